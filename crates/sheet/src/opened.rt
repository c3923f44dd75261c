// An accepted sheet, kept open and asked for any row by number. Whoever holds one made it by `open`, with the counts that `read` gave.
ghost use Rattle.std.specs.Prelude.{◌≡◌};
ghost use Rattle.sheet.specs.Reading.{read_of};
ghost use Rattle.sheet.specs.Asking.{row_of, section_of};

use crate::asking::{row_of, section_of};
use crate::{Counts, Fields};
use refusals::Refusal;

#[derive(Clone, Copy)]
pub struct OpenSheet<'a> {
    pub bytes: &'a [u8],
    pub counts: Counts,
}

pub fn open<'a>(bytes: &'a [u8], counts: Counts) -> OpenSheet<'a>
    requires { read_of bytes.now ≡ Ok counts }
    ensures { (result.bytes ≡ bytes.entry) × (result.counts ≡ counts) }
{
    OpenSheet { bytes, counts }
}

// Row i of section k: 12 where there is none.
pub fn row<'a>(o: OpenSheet<'a>, k: u32, i: u32) -> Result<Fields, Refusal>
    requires { read_of o.bytes.now ≡ Ok o.counts }
    ensures { result ≡ row_of o.entry.bytes.now o.entry.counts k i }
{
    row_of(o.bytes, o.counts, k, i)
}

// Section k, as that stretch of the bytes that the sheet was opened over.
pub fn stretch<'a>(o: OpenSheet<'a>, k: u32) -> &'a [u8]
    requires { read_of o.bytes.now ≡ Ok o.counts }
    ensures { result.now ≡ section_of o.entry.bytes.now o.entry.counts k }
{
    section_of(o.bytes, o.counts, k)
}

// A sheet opened and asked for one row: whoever has plain bytes and the counts that `read` gave.
pub fn kept_row(bytes: &[u8], counts: Counts, k: u32, i: u32) -> Result<Fields, Refusal>
    requires { read_of bytes.now ≡ Ok counts }
    ensures { result ≡ row_of bytes.now counts k i }
{
    row(open(bytes, counts), k, i)
}

// The same for one section.
pub fn kept_stretch(bytes: &[u8], counts: Counts, k: u32) -> &[u8]
    requires { read_of bytes.now ≡ Ok counts }
    ensures { result.now ≡ section_of bytes.now counts k }
{
    stretch(open(bytes, counts), k)
}
