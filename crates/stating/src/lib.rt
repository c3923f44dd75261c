// An administrator's statement of an hour from its text.
#![tactic(auto)]

mod fills;
mod marks;

ghost use Rattle.std.specs.Prelude.{◌≡◌};
ghost use Rattle.stating.specs.Read.{lists_fit, StatementInto};
ghost use Rattle.hour.specs.Answer.{lent};

use limits::Agent;
use sheet::Counts;
use text::{Fault, WrongLine};

// The word of the price: the others are those of their sections.
const PRICE: u32 = 5;

// How many lines were read, and what is wrong with the last of them.
#[derive(Clone, Copy)]
pub struct Seen {
    pub line: usize,
    pub fault: Option<Fault>,
}

// The counts are within a sheet's limits, and the lists have room.
#[tactic(auto, unfolding(crate::specs::Read::lists_fit))]
fn lists_fit(c: Counts, figures: &[u32], money: &[i64], schedule: &[u32], amounts: &[u32]) -> bool
    ensures { result ≡ lists_fit c
        (lent figures.now money.now schedule.now amounts.now) }
{
    if !limits::few(c.agents, c.boundaries, c.plants, c.contracts) {
        return false;
    }
    (Agent::CELLS * c.agents <= figures.len())
        & (c.agents <= money.len())
        & (c.plants <= schedule.len())
        & (c.contracts <= amounts.len())
}

// The numbers of a text at the places of their rows, and its price; or its first line that is wrong and how: then the lists stay as
// they were. Counts that no sheet has and lists too short are told as line 0.
pub fn read(
    text: &[u8],
    c: Counts,
    figures: &mut [u32],
    money: &mut [i64],
    schedule: &mut [u32],
    amounts: &mut [u32],
) -> Result<u32, WrongLine>
    ensures { StatementInto text.now c
        (lent figures.old money.old schedule.old amounts.old) result
        (lent figures.new money.new schedule.new amounts.new) }
{
    if !lists_fit(c, figures, money, schedule, amounts) {
        return Err(WrongLine {
            line: 0,
            fault: Fault::Rows,
        });
    }
    marks::judge(text, c)?;
    Ok(fills::fill(text, figures, money, schedule, amounts))
}
