// Writing the hour sheet from four lists of 32-bit numbers: the named fields row by row in byte order, without fillers.
#![tactic(auto)]

mod judge;
mod lists;
mod place;

ghost use Rattle.writing.specs.Numbers.{numbers};
ghost use Rattle.writing.specs.Judged.{Written};

use lists::Lists;
use refusals::{Refusal, Verdict};

// The sheet of these numbers into `out`, whose bytes past the sheet's length keep their values.
pub fn write(
    agents: &[u32],
    boundaries: &[u32],
    plants: &[u32],
    contracts: &[u32],
    out: &mut [u8],
) -> Result<usize, Refusal>
    ensures { Written
        (numbers agents.now boundaries.now plants.now contracts.now)
        out.old result out.new }
{
    let l = Lists {
        agents,
        boundaries,
        plants,
        contracts,
    };
    judge::write_verdict(l, out.len())?;
    let size = lists::size(lists::counts_in(l));
    place::put_sheet(l, out, size / 16);
    Ok(size)
}
