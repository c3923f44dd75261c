// Pieces of text put before byte `at` of a scratch, for other crates: each does nothing where there is no room for it.
ghost use Rattle.std.specs.Prelude.{◌∷◌, ◌++◌, leb, length, drop};
ghost use Rattle.refusals.specs.Refusals.{no_room, refused_unless};
ghost use Rattle.printing.specs.Text.{decimal, signed};
ghost use Rattle.printing.specs.Page.{Prints};
ghost use Rattle.printing.specs.Put.{PutInRoom};

use refusals::Refusal;

pub fn byte(s: &mut [u8], at: usize, b: u8) -> usize
    ensures { PutInRoom (b ∷ drop at s.old) s.old s.new at 1 result }
{
    if (at < 1) | (s.len() < at) {
        return at;
    }
    super::put_byte(s, at, b)
}

pub fn word(s: &mut [u8], at: usize, word: &[u8]) -> usize
    ensures { PutInRoom (word.now ++ drop at s.old)
        s.old s.new at (length word.now) result }
{
    if (at < word.len()) | (s.len() < at) {
        return at;
    }
    super::put_word(s, at, word)
}

// A number with a space before it.
pub fn number(s: &mut [u8], at: usize, n: u32) -> usize
    ensures { PutInRoom (32 ∷ decimal n (drop at s.old)) s.old s.new at 21 result }
{
    if (at < 21) | (s.len() < at) {
        return at;
    }
    let i = super::put_decimal(s, at, u64::from(n));
    super::put_byte(s, i, b' ')
}

// A number with its sign, and a space before it.
pub fn signed(s: &mut [u8], at: usize, x: i64) -> usize
    ensures { PutInRoom (32 ∷ signed x (drop at s.old)) s.old s.new at 22 result }
{
    if (at < 22) | (s.len() < at) {
        return at;
    }
    let i = super::put_signed(s, at, x);
    super::put_byte(s, i, b' ')
}

// What stands in the scratch from `from` on, at the front of a lent buffer: refusal 11 where it is too short.
pub fn give(s: &[u8], from: usize, out: &mut [u8]) -> Result<usize, Refusal>
    ensures { Prints (refused_unless (leb (length (drop from s.now)) (length out.old)) no_room 0)
        (drop from s.now) out.old result out.new }
{
    if s.len() < from {
        return Ok(0);
    }
    let text = &s[from..];
    if out.len() < text.len() {
        return Err(Refusal {
            number: Refusal::ROOM,
            place: 0,
        });
    }
    super::copy_out(text, out, 0);
    Ok(text.len())
}
