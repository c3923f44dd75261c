// The contracts of an hour: what each of them is assigned.
#![tactic(auto)]

use limits::{Agent, Contract};
use refusals::{Refusal, Verdict};

mod sides;
mod walk;

ghost use Rattle.std.specs.Prelude.{◌≡◌, ◌+◌, ◌≤◌, ◌<◌, eqb, length};
ghost use Rattle.sums.specs.Lists.{at};
ghost use Rattle.limits.specs.Limits.{most_agents, most_price};
ghost use Rattle.order.specs.Passes.{NextPlaces, Placed};
ghost use Rattle.contracts.specs.Assign.{count_in, deals_in, section_fits, assign_verdict, Assigned};
ghost use Rattle.contracts.specs.Keys.{row_span, low_key, low_in, key_in, wholes, Ready};
ghost use Rattle.contracts.specs.Sides.{AddedUp, Numbered, SidesTotalled, Cuts, cut_side, tag_in, Planned};
ghost use Rattle.contracts.specs.Sides.{FrontKeys, Cut, CutBelow, AllAssigned};

// ---- the key of each row, by which the rows of one side of a buyer are put in order

// The rows that a key has room for.
pub(crate) const ROW_SPAN: u32 = 256;

// The number by which a row stands in its place: of kind 3 the second part is always 0.
#[tactic(auto, unfolding(sums::specs::Sums::pick))]
pub(crate) fn key_of(kind: u32, price: u32, row: usize) -> u32
    requires { (price ≤ most_price) × (row < row_span) }
    ensures { result ≡ low_key kind price row }
{
    (price * 2 + u32::from(kind == Contract::CONDITIONAL)) * ROW_SPAN + row as u32
}

// ---- whether the rows can be assigned

fn layout_good(section: &[u8], demands: &[u32]) -> bool
    ensures { result ≡ section_fits section.now demands.now }
{
    let n = section.len();
    (n % 16 == 0) & ((n / 16 <= Contract::MOST) & (demands.len() <= Agent::MOST))
}

// A bad row is told before a short list. Where nothing is wrong, the totals have what each side of each buyer holds, and the counts in how
// many rows.
fn judge(
    section: &[u8],
    demands: &[u32],
    out: &[u32],
    totals: &mut [u32],
    counts: &mut [u32],
) -> Verdict
    requires { AddedUp section.now 0 totals.old × Numbered section.now 0 counts.old }
    ensures { SidesTotalled (assign_verdict section.now demands.now out.now)
        section.now result totals.new counts.new }
{
    refusals::refuse_unless(layout_good(section, demands), Refusal::LAYOUT, 0)?;
    sides::add_up(section, demands.len(), totals, counts)?;
    refusals::refuse_unless(section.len() / 16 <= out.len(), Refusal::ROOM, 0)
}

// ---- the amounts

// A section that nothing is wrong with, the commercial demand of each agent, and which side of each buyer's that cuts.
#[derive(Clone, Copy)]
struct Judged<'a> {
    section: &'a [u8],
    demands: &'a [u32],
    decided: &'a [u32],
}

// Buyer b's side that is cut, from its keys: they are put in order, and each row gets its amount by its place. The sort's scratch is
// gone by then. Where there are no keys, nothing changes.
fn serve_side(j: Judged, b: usize, keys: &mut [u32], out: &mut [u32])
    requires ready { Ready (deals_in j.section.now) j.demands.now × (count_in j.section.now ≤ length out.old)
        × (b < length j.demands.now) }
    requires cuts { Cuts j.section.now j.demands.now j.decided.now
        × (0 < length keys.old → at j.decided.now (most_agents + b) ≤ 1)
        × (0 < length keys.old → FrontKeys (eqb (cut_side j.decided.now b)) (key_in j.section.now) (count_in j.section.now)
        (wholes (cut_side j.decided.now b) keys.old)) }
    ensures { (0 < length keys.old → Cut j.entry.section.now j.entry.demands.now
        (eqb (cut_side j.entry.decided.now b)) out.old out.new)
        × (length keys.old ≡ 0 → out.new ≡ out.old) }
{
    if keys.is_empty() {
        return;
    }
    order::sort(keys);
    let left = j.decided[b];
    if j.decided[Agent::MOST + b] == 0 {
        walk::serve_firm(j.section, keys, left, out);
    } else {
        walk::serve_asked(j.section, keys, left, out);
    }
}

// Each buyer's side that is cut, one after the other: its keys end where its next one would have gone.
fn serve_all(j: Judged, ends: &[u32], keys: &mut [u32], out: &mut [u32])
    requires ready { Ready (deals_in j.section.now) j.demands.now × (count_in j.section.now ≤ length out.old) }
    requires cuts { Cuts j.section.now j.demands.now j.decided.now × (count_in j.section.now ≤ length keys.old)
        × NextPlaces (tag_in j.section.now j.decided.now) (length j.demands.now) (count_in j.section.now) (count_in j.section.now) ends.now
        × Placed (tag_in j.section.now j.decided.now) (low_in j.section.now) (length j.demands.now) (count_in j.section.now)
        (count_in j.section.now) keys.old keys.old }
    ensures { CutBelow j.entry.section.now j.entry.demands.now j.entry.decided.now (length j.entry.demands.now)
        out.old out.new }
{
    let mut begin = 0;
    for (b, &end) in ends.iter().enumerate() {
        let end = end as usize;
        serve_side(j, b, &mut keys[begin..end], out);
        begin = end;
    }
}

// Where some side is cut: the rows of the others at once, then its own.
fn assign_some(j: Judged, next: &mut [u32], out: &mut [u32])
    requires ready { Ready (deals_in j.section.now) j.demands.now × (count_in j.section.now ≤ length out.old) }
    requires cuts { Cuts j.section.now j.demands.now j.decided.now
        × NextPlaces (tag_in j.section.now j.decided.now) (length j.demands.now) (count_in j.section.now) 0 next.old }
    ensures { AllAssigned j.entry.section.now j.entry.demands.now out.old out.new }
{
    let mut keys = [0u32; Contract::MOST];
    sides::part(j.section, j.decided, next, &mut keys, out);
    serve_all(j, next, &mut keys, out);
}

// Judges the rows and decides which sides are cut. Handed back is whether any is; where one is, each buyer has its places. The counts are
// gone when it is done.
fn survey(
    section: &[u8],
    demands: &[u32],
    out: &[u32],
    totals: &mut [u32],
    next: &mut [u32],
) -> Result<bool, Refusal>
    requires { AddedUp section.now 0 totals.old × (length next.old ≡ most_agents) }
    ensures { Planned section.now demands.now out.now result
        totals.new next.new }
{
    let mut counts = [0u32; sides::COUNTS];
    judge(section, demands, out, totals, &mut counts)?;
    let some = sides::decide(demands, totals);
    if some {
        sides::spots(totals, &counts, &mut next[..demands.len()]);
    }
    Ok(some)
}

// What each contract of a section of rows gets; `demands` has the commercial demand of each agent.
pub fn assign(section: &[u8], demands: &[u32], out: &mut [u32]) -> Verdict
    ensures { Assigned section.now demands.now out.old result out.new }
{
    let mut totals = [0u32; sides::CELLS];
    let mut next = [0u32; Agent::MOST];
    if survey(section, demands, out, &mut totals, &mut next)? {
        let j = Judged {
            section,
            demands,
            decided: &totals,
        };
        assign_some(j, &mut next[..demands.len()], out);
    } else {
        sides::in_full(section, out);
    }
    Ok(())
}
