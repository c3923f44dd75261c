// Mending a sheet: a copy with its distances worked out and its unused bytes set to 0, and a report of every byte changed.
#![tactic(auto)]

ghost use Rattle.std.specs.Prelude.{◌≡◌, ◌+◌, ◌-◌, ◌*◌, ◌/◌, ◌%◌, ◌^◌, ◌≤◌, ◌<◌, length};
ghost use Rattle.octets.specs.Bytes.{word};
ghost use Rattle.mend.specs.Mend.{row_mended, mended_at, changes, Mends};
ghost use Rattle.mend.specs.Steps.{Small, Mendable, MendRoomy, noted, notes, Copied, MendsCounted};

use octets::Words;
use refusals::Refusal;
use sheet::Counts;

// The distance back from row `end` to row `start`, in bytes.
fn distance(end: usize, start: usize) -> u32
    requires { (start ≤ end) × (end < 65536) }
    ensures { result ≡ 16 * (end - start) }
{
    (16 * (end - start)) as u32
}

// Row r of a sheet with these counts, where it says w.
#[tactic(auto, unfolding(crate::specs::Mend::row_mended))]
fn row_mended(c: Counts, r: usize, w: Words) -> Words
    requires { Small c }
    ensures { result ≡ row_mended c r w }
{
    let boundaries = c.agents;
    let plants = boundaries + c.boundaries;
    let contracts = plants + c.plants;
    let end = contracts + c.contracts;
    if r < boundaries {
        Words {
            second: 0,
            third: 0,
            fourth: 0,
            ..w
        }
    } else if r < plants {
        Words { second: 0, ..w }
    } else if r < end {
        w
    } else if r == end {
        Words {
            first: distance(end, 0),
            third: distance(end, boundaries),
            ..w
        }
    } else {
        Words {
            first: distance(end, plants),
            third: distance(end, contracts),
            ..w
        }
    }
}

// Number j of a row, and byte m of a number.
#[tactic(auto, unfolding(octets::specs::Bytes::word))]
fn number_in(w: Words, j: usize) -> u32
    requires { j < 4 }
    ensures { result ≡ word w j }
{
    match j {
        0 => w.first,
        1 => w.second,
        2 => w.third,
        _ => w.fourth,
    }
}

fn byte_in(x: u32, m: usize) -> u8
    requires { m < 4 }
    ensures { result ≡ x / 256 ^ m % 256 }
{
    x.to_le_bytes()[m]
}

// Byte k of the mended sheet.
#[tactic(auto, unfolding(crate::specs::Mend::mended_at, octets::specs::Bytes::byte_of))]
fn mended_at(s: &[u8], c: Counts, k: usize) -> u8
    requires { Mendable s.now c }
    ensures { result ≡ mended_at s.now k }
{
    let r = k / 16;
    let w = row_mended(c, r, octets::row_at(s, r));
    byte_in(number_in(w, k / 4 % 4), k % 4)
}

// 1 where a byte is changed, 0 where it isn't.
#[tactic(auto, unfolding(crate::specs::Steps::notes, sums::specs::Sums::pick))]
fn one_if_changed(old: u8, new: u8) -> usize
    ensures { result ≡ notes old new }
{
    usize::from(old != new)
}

// How many bytes mending changes.
fn count_changes(s: &[u8], c: Counts) -> usize
    requires { Mendable s.now c }
    ensures { result ≡ changes s.now }
{
    let mut n: usize = 0;
    for (k, &old) in s.iter().enumerate() {
        n += one_if_changed(old, mended_at(s, c, k));
    }
    n
}

// Notes a change, where there is one, behind n others, and hands back how many there are then: n is what the report holds so far, and no
// list's length.
#[tactic(auto, unfolding(crate::specs::Steps::notes, crate::specs::Steps::noted, sums::specs::Sums::pick))]
fn note(report: &mut [u32], n: usize, place: usize, old: u8, new: u8) -> usize
    requires { (3 * (n + notes old new) ≤ length report.old) × (place < 4294967296) }
    ensures { (result ≡ n + notes old new) × (report.new ≡ noted report.old n place old new) }
{
    if new == old {
        n
    } else {
        report[3 * n] = place as u32;
        report[3 * n + 1] = u32::from(old);
        report[3 * n + 2] = u32::from(new);
        n + 1
    }
}

// Every byte of the mended sheet, and every change.
fn write_mended(s: &[u8], c: Counts, copy: &mut [u8], report: &mut [u32])
    requires { Mendable s.now c × MendRoomy s.now copy.old report.old }
    ensures { Copied s.now copy.old report.old copy.new report.new }
{
    let mut n: usize = 0;
    for (k, &old) in s.iter().enumerate() {
        let new = mended_at(s, c, k);
        copy[k] = new;
        n = note(report, n, k, old, new);
    }
}

// The same, where copy and report have room; hands back how many changes there are.
#[tactic(auto, using(crate::proofs::Places::count_few))]
fn mend_counted(s: &[u8], c: Counts, copy: &mut [u8], report: &mut [u32]) -> Result<usize, Refusal>
    requires { Mendable s.now c }
    ensures { MendsCounted s.now copy.old report.old result copy.new report.new }
{
    let n = count_changes(s, c);
    let room = (s.len() <= copy.len()) & (3 * n <= report.len());
    refusals::refuse_unless(room, Refusal::ROOM, 0)?;
    write_mended(s, c, copy, report);
    Ok(n)
}

// Any bytes: the mended copy at the front of `copy`, and at the front of `report` three numbers a change, in rising place: the
// place, the old byte and the new one.
#[tactic(auto, using(crate::proofs::Verdicts::answers))]
pub fn mend(bytes: &[u8], copy: &mut [u8], report: &mut [u32]) -> Result<usize, Refusal>
    ensures { Mends bytes.now copy.old report.old result copy.new report.new }
{
    let c = sheet::counting::count_rows(bytes)?;
    mend_counted(bytes, c, copy, report)
}
