// The lines of a statement, put before byte `at` of a scratch.
ghost use Rattle.std.specs.Prelude.{◌+◌, ◌*◌, ◌≤◌, ◌<◌, [], ◌∷◌, length, drop, get_or};
ghost use Rattle.limits.specs.Limits.{most_agents, most_contracts};
ghost use Rattle.hour.specs.Answer.{lent};
ghost use Rattle.printing.specs.Put.{PutInRoom};
ghost use Rattle.printing.specs.Text.{lines_to};
ghost use Rattle.text.specs.Written.{row_text};
ghost use Rattle.telling.specs.Text.{agent_line};

use limits::Agent;
use printing::pen;
use text::puts;

// Agent a's line: its word has 5 bytes, each of seven numbers 21 with its space, its money 22, and the line end is one.
#[tactic(auto, unfolding(crate::specs::Text::agent_line))]
fn put_agent(s: &mut [u8], at: usize, figures: &[u32], money: &[i64], a: usize) -> usize
    requires { (a < most_agents) × (6 * a + 6 ≤ length figures.now) × (a < length money.now) }
    ensures { PutInRoom (agent_line (lent figures.now money.now [] []) a (drop at s.old))
        s.old s.new at 175 result }
{
    let i = pen::byte(s, at, b'\n');
    let owed = money[a];
    let j = pen::signed(s, i, owed);
    let k = Agent::CELLS * a;
    let numbers = [
        a as u32,
        figures[k],
        figures[k + 1],
        figures[k + 2],
        figures[k + 3],
        figures[k + 4],
        figures[k + 5],
    ];
    let m = puts::put_joined(s, j, &numbers);
    pen::word(s, m, b"agent")
}

// The lines of the agents, as many as there are in `money`.
pub(crate) fn put_agents(s: &mut [u8], at: usize, figures: &[u32], money: &[i64]) -> usize
    requires { (length money.now ≤ most_agents) × (6 * length money.now ≤ length figures.now) }
    ensures { PutInRoom (lines_to (agent_line (lent figures.now money.now [] [])) (length money.now) (drop at s.old))
        s.old s.new at (175 * length money.now) result }
{
    let mut i = at;
    for a in (0..money.len()).rev() {
        i = put_agent(s, i, figures, money, a);
    }
    i
}

// The rows of a list, each with its number behind the word: of at most 8 bytes, two numbers and a line end.
pub(crate) fn put_list(s: &mut [u8], at: usize, word: &[u8], list: &[u32]) -> usize
    requires { (length list.now ≤ most_contracts) × (length word.now ≤ 8) }
    ensures { PutInRoom
        (lines_to (λ i. row_text word.now (i ∷ get_or list.now i 0 ∷ [])) (length list.now) (drop at s.old))
        s.old s.new at (51 * length list.now) result }
{
    let mut i = at;
    for row in (0..list.len()).rev() {
        i = puts::put_row(s, i, word, &[row as u32, list[row]]);
    }
    i
}
