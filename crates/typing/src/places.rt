// Which line a row stands on.
ghost use Rattle.std.specs.Prelude.{◌≡◌};
ghost use Rattle.typing.specs.Made.{line_of_row, refused_line};

use refusals::Refusal;

// The line of a row of a section, from 1.
fn line_of_row(s: &[u8], section: u32, row: usize) -> usize
    ensures { result ≡ line_of_row section row s.now }
{
    let mut left = row;
    for (i, line) in s.split(|b| *b == b'\n').enumerate() {
        if text::read_line(line).word == section {
            if left == 0 {
                return i + 1;
            }
            left -= 1;
        }
    }
    0
}

// The line that a refusal of writing speaks of.
#[tactic(auto, unfolding(crate::specs::Made::refused_line))]
pub(crate) fn refused_line(s: &[u8], r: Refusal) -> usize
    ensures { result ≡ refused_line s.now r }
{
    if (Refusal::AGENT <= r.number) & (r.number <= Refusal::CONTRACT) {
        line_of_row(s, r.number - 2, r.place as usize)
    } else {
        0
    }
}
