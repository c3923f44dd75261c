// What settling and checking both stand on: whether the hour of a sheet is to be settled at all, and its plants by their columns.
#![tactic(auto)]

use balance::Weight;
use limits::Agent;
use refusals::{Refusal, Verdict};
use sheet::Counts;

pub mod plants;

ghost use Rattle.std.specs.Prelude.{◌≡◌};
ghost use Rattle.refusals.specs.Refusals.{Verdict};
ghost use Rattle.sheet.specs.Reading.{read_of};
ghost use Rattle.columns.specs.Columns.{columns_of};
ghost use Rattle.balance.specs.Balances.{ledger, Weighing};
ghost use Rattle.ground.specs.Ground.{admission, admission_with};
ghost use Rattle.ground.specs.Parts.{roomy, late_verdict};

// Lists as long as the counts ask for. The figures are divided, not the cells multiplied: no count is too large for that.
pub fn has_room(c: Counts, figures: usize, money: usize, schedule: usize, amounts: usize) -> bool
    ensures { result ≡ roomy c figures money schedule amounts }
{
    (c.agents <= figures / Agent::CELLS)
        & (c.agents <= money)
        & (c.plants <= schedule)
        & (c.contracts <= amounts)
}

// Refusal 10, then 13, then 11.
fn late(target: u32, available: u32, must: u32, room: bool) -> Verdict
    ensures { result ≡ late_verdict target available must room }
{
    if available < target {
        return refusals::refuse(Refusal::UNCOVERED, 0);
    }
    if target < must {
        return refusals::refuse(Refusal::OVERRUN, 0);
    }
    if room {
        return Ok(());
    }
    refusals::refuse(Refusal::ROOM, 0)
}

// Whether the hour of a sheet that reading accepts with these counts is to be settled: refusals 7 to 9 as weighing has them, then 10, 13
// and 11. Whether there is room is the caller's word: of lists that it lends, or true of its own. The columns are weighing's.
pub fn admit_with(
    bytes: &[u8],
    c: Counts,
    kinds: &mut [u32; Agent::MOST],
    shares: &mut [u32; Agent::MOST],
    commercial: &mut [u32; Agent::MOST],
    own: &mut [u32; Agent::MOST],
    imports: &mut [u32; Agent::MOST],
    room: bool,
) -> Result<Weight, Refusal>
    requires { read_of bytes.now ≡ Ok c }
    ensures { Weighing (admission_with (columns_of bytes.now c) room) (columns_of bytes.now c)
        (ledger kinds.old shares.old commercial.old own.old imports.old)
        (ledger kinds.new shares.new commercial.new own.new imports.new)
        result }
{
    let w = balance::weigh_read(bytes, c, kinds, shares, commercial, own, imports)?;
    let offer = plants::offered(bytes, c);
    late(w.target, offer.available, offer.must, room)?;
    Ok(w)
}

// The same for four lists: of these the lengths are looked at, and nothing else.
pub fn admit(
    bytes: &[u8],
    c: Counts,
    kinds: &mut [u32; Agent::MOST],
    shares: &mut [u32; Agent::MOST],
    commercial: &mut [u32; Agent::MOST],
    own: &mut [u32; Agent::MOST],
    imports: &mut [u32; Agent::MOST],
    figures: &[u32],
    money: &[i64],
    schedule: &[u32],
    amounts: &[u32],
) -> Result<Weight, Refusal>
    requires { read_of bytes.now ≡ Ok c }
    ensures { Weighing
        (admission (columns_of bytes.now c)
        figures.now money.now schedule.now amounts.now)
        (columns_of bytes.now c)
        (ledger kinds.old shares.old commercial.old own.old imports.old)
        (ledger kinds.new shares.new commercial.new own.new imports.new)
        result }
{
    let room = has_room(c, figures.len(), money.len(), schedule.len(), amounts.len());
    admit_with(bytes, c, kinds, shares, commercial, own, imports, room)
}
