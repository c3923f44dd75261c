// A row of text put before byte `at` of a scratch.
ghost use Rattle.std.specs.Prelude.{◌+◌, ◌*◌, length, drop};
ghost use Rattle.printing.specs.Put.{PutInRoom};
ghost use Rattle.text.specs.Written.{joined, row_text};

use printing::pen;

// Numbers with a space before each.
pub fn put_joined(s: &mut [u8], at: usize, v: &[u32]) -> usize
    ensures { PutInRoom (joined v.now (drop at s.old))
        s.old s.new at (21 * length v.now) result }
{
    let mut i = at;
    for &n in v.iter().rev() {
        i = pen::number(s, i, n);
    }
    i
}

// A word, its numbers and a line end.
pub fn put_row(s: &mut [u8], at: usize, word: &[u8], numbers: &[u32]) -> usize
    ensures { PutInRoom (row_text word.now numbers.now (drop at s.old))
        s.old s.new at (length word.now + 21 * length numbers.now + 1) result }
{
    let i = pen::byte(s, at, b'\n');
    let j = put_joined(s, i, numbers);
    pen::word(s, j, word)
}
