// Whether the amounts stated for all contracts follow document 01, for some order of equal prices: three passes over the rows with one
// account an agent, and one over the agents. No order is made.
ghost use Rattle.std.specs.Prelude.{◌≡◌, cond, ◌&&◌, ◌+◌, ◌-◌, ◌*◌, ◌≤◌, ◌<◌, max, length, ltb, leb, eqb};
ghost use Rattle.sums.specs.Sums.{pick};
ghost use Rattle.limits.specs.Limits.{most_agents, most_contracts};
ghost use Rattle.deals.specs.Deals.{conditional, demanded};
ghost use Rattle.statement.specs.Decide.{every, is_near};
ghost use Rattle.statement.specs.Quick.{shape_good, group_good};
ghost use Rattle.statement.specs.Hour.{hour_good};
ghost use Rattle.checking.specs.Passes.{above, room, Looked, Added};
ghost use Rattle.checking.specs.Accounts.{rows_from, Placed, Dealt, AllSeen, AllSummed, AllFine, retailer_test, retailer_at};

use crate::numbers;
use limits::{Agent, Contract};

// What the first pass finds: whether kinds 1 and 2 are in full or 0; one above the highest price at which kind 2 is given
// something, how far below 2^32 the lowest stands at which it is not, one above the highest at which kind 3 is given something; what
// kinds 1 and 2 are given, what kind 3 is given, and what it has. `good` is a finding like the others: they hold whatever it says.
#[derive(Clone, Copy)]
pub(crate) struct Seen {
    pub good: bool,
    pub reach: u64,
    pub depth: u64,
    pub top: u64,
    pub firm: u64,
    pub given: u64,
    pub asked: u64,
}

// What the second pass sums up at those prices.
#[derive(Clone, Copy)]
pub(crate) struct Summed {
    pub ahead: u64,
    pub largest: u32,
    pub under: u64,
    pub cheaper: u64,
    pub whole: u64,
}

// The higher of a and one above the price p, where the test holds.
#[tactic(auto, unfolding(sums::specs::Sums::pick))]
fn raised(a: u64, t: bool, p: u32) -> u64
    ensures { result ≡ max a (pick t (p + 1)) }
{
    if t {
        return a.max(u64::from(p) + 1);
    }
    a
}

// The higher of a and the distance from the price p up to 2^32, where the test holds.
#[tactic(auto, unfolding(sums::specs::Sums::pick))]
fn sunk(a: u64, t: bool, p: u32) -> u64
    ensures { result ≡ max a (pick t (above - p)) }
{
    if t {
        return a.max((1 << 32) - u64::from(p));
    }
    a
}

#[tactic(auto, unfolding(sums::specs::Sums::pick))]
pub(crate) fn most_when(a: u32, t: bool, x: u32) -> u32
    ensures { result ≡ max a (pick t x) }
{
    if t {
        return a.max(x);
    }
    a
}

#[tactic(auto, unfolding(sums::specs::Sums::pick))]
fn more_when(a: u64, t: bool, x: u32) -> u64
    requires { a ≤ room (4 * most_contracts) }
    ensures { (result ≡ a + pick t x) × (result ≤ a + 4294967295) }
{
    if t {
        return a + u64::from(x);
    }
    a
}

// Kind 1 in full, kind 2 in full or 0.
#[tactic(auto, unfolding(statement::specs::Quick::shape_good))]
fn shape_good(k: u32, q: u32, x: u32) -> bool
    ensures { result ≡ shape_good k q x }
{
    if k == Contract::FIXED {
        return x == q;
    }
    if k == Contract::CONDITIONAL {
        return (x == 0) | (x == q);
    }
    true
}

fn look(v: Seen, row: Contract, amount: u32) -> Seen
    requires { (v.firm ≤ room most_contracts) × (v.given ≤ room most_contracts) × (v.asked ≤ room most_contracts) }
    ensures { Looked v row.kind row.price row.quantity amount result }
{
    let two = row.kind == Contract::CONDITIONAL;
    let three = row.kind == Contract::DEMANDED;
    let some = 0 < amount;
    let none = (amount == 0) & (0 < row.quantity);
    Seen {
        good: v.good & shape_good(row.kind, row.quantity, amount),
        reach: raised(v.reach, two & some, row.price),
        depth: sunk(v.depth, two & none, row.price),
        top: raised(v.top, three & some, row.price),
        firm: more_when(v.firm, row.kind < Contract::DEMANDED, amount),
        given: more_when(v.given, three, amount),
        asked: more_when(v.asked, three, row.quantity),
    }
}

fn firm_below(a: u64, row: Contract, u: u64) -> u64
    requires { a ≤ room (4 * most_contracts) }
    ensures { (result ≡ a + pick (ltb row.kind demanded && ltb row.price u) row.quantity) × (result ≤ a + 4294967295) }
{
    let cheap = u64::from(row.price) < u;
    more_when(a, (row.kind < Contract::DEMANDED) & cheap, row.quantity)
}

fn demanded_below(a: u64, row: Contract, u: u64) -> u64
    requires { a ≤ room (4 * most_contracts) }
    ensures { (result ≡ a + pick (eqb row.kind demanded && ltb row.price u) row.quantity) × (result ≤ a + 4294967295) }
{
    let cheap = u64::from(row.price) < u;
    more_when(a, (row.kind == Contract::DEMANDED) & cheap, row.quantity)
}

fn at_price(a: u64, row: Contract, which: u32, u: u64, x: u32) -> u64
    requires { a ≤ room (4 * most_contracts) }
    ensures { (result ≡ a + pick (eqb row.kind which && eqb row.price u) x) × (result ≤ a + 4294967295) }
{
    let same = u64::from(row.price) == u;
    more_when(a, (row.kind == which) & same, x)
}

fn largest_at(a: u32, row: Contract, u: u64, x: u32) -> u32
    ensures { result ≡ max a (pick (eqb row.kind conditional && eqb row.price u) x) }
{
    let same = u64::from(row.price) == u;
    most_when(a, (row.kind == Contract::CONDITIONAL) & same, x)
}

fn add(u: u64, w: u64, g: u64, v: Summed, row: Contract, amount: u32) -> Summed
    requires { (v.ahead ≤ room (2 * most_contracts)) × (v.under ≤ room (3 * most_contracts)) × (v.cheaper ≤ room most_contracts)
        × (v.whole ≤ room most_contracts) }
    ensures { Added u w g v row.kind row.price row.quantity amount result }
{
    let cheap = firm_below(v.ahead, row, u);
    let lower = firm_below(v.under, row, w);
    let taken = at_price(lower, row, Contract::CONDITIONAL, w, amount);
    Summed {
        ahead: at_price(cheap, row, Contract::CONDITIONAL, u, amount),
        largest: largest_at(v.largest, row, u, amount),
        under: at_price(taken, row, Contract::FIXED, w, row.quantity),
        cheaper: demanded_below(v.cheaper, row, g),
        whole: at_price(v.whole, row, Contract::DEMANDED, g, row.quantity),
    }
}

fn rest(left: u32, c: u64) -> u32
    ensures { result ≡ left - c }
{
    u64::from(left).saturating_sub(c) as u32
}

// A row of the group that is the last to be given something.
fn in_group(left: u32, c: u64, t: u64, q: u32, x: u32) -> bool
    requires { (c ≤ room most_contracts) × (t ≤ room most_contracts) }
    ensures { result ≡ cond (leb (c + t) left) (eqb x q) (is_near (left - c) q t x) }
{
    if c + t <= u64::from(left) {
        return x == q;
    }
    numbers::near(rest(left, c), q, t, x)
}

#[tactic(auto, unfolding(statement::specs::Quick::group_good))]
fn group_good(left: u32, g: u64, c: u64, t: u64, row: Contract, amount: u32) -> bool
    requires { (c ≤ room most_contracts) × (t ≤ room most_contracts) }
    ensures { result ≡ group_good left g c t row.kind row.price row.quantity amount }
{
    if row.kind != Contract::DEMANDED {
        return true;
    }
    let next = u64::from(row.price) + 1;
    if next < g {
        return amount == row.quantity;
    }
    if next != g {
        return true;
    }
    in_group(left, c, t, row.quantity, amount)
}

// What the passes find, put together, where `left` is what kinds 1 and 2 leave of the demand d.
fn verdict(v: Seen, z: Summed, groups: bool, left: u32, d: u32) -> bool
    ensures { result ≡ retailer_test v z groups left d }
{
    let demand = u64::from(d);
    let largest = u64::from(z.largest);
    let ahead = z.ahead.saturating_sub(largest);
    let most = u64::from(left);
    let share = most.min(v.asked);
    let last = (v.reach == 0) | (ahead < demand);
    let first = (v.depth == 0) | (demand <= z.under);
    v.good & (last & (first & (groups & (v.given == share))))
}

// The first pass over the rows of all retailers, into lent cells: what each pass finds stands once on the stack.
fn look_rows(rows: &[Contract], amounts: &[u32], all: &mut [Seen; Agent::MOST])
    requires placed { Placed rows.now amounts.now }
    requires begun { AllSeen (rows_from rows.now) amounts.now 0 all.old }
    ensures { AllSeen (rows_from rows.now) amounts.now (length rows.now) all.new }
{
    for (i, &row) in rows.iter().enumerate() {
        let b = row.buyer as usize;
        all[b] = look(all[b], row, amounts[i]);
    }
}

// One row more in the sums of its buyer, of whom the first pass found v.
fn add_at(v: Seen, z: Summed, row: Contract, amount: u32) -> Summed
    requires { (z.ahead ≤ room (2 * most_contracts)) × (z.under ≤ room (3 * most_contracts)) × (z.cheaper ≤ room most_contracts)
        × (z.whole ≤ room most_contracts) }
    ensures { Added (v.reach - 1) (above - v.depth) (v.top - 1) z row.kind row.price row.quantity amount result }
{
    let u = v.reach.saturating_sub(1);
    let w = (1u64 << 32).saturating_sub(v.depth);
    let g = v.top.saturating_sub(1);
    add(u, w, g, z, row, amount)
}

// The second pass.
fn add_rows(
    rows: &[Contract],
    amounts: &[u32],
    seen: &[Seen; Agent::MOST],
    all: &mut [Summed; Agent::MOST],
)
    requires placed { Placed rows.now amounts.now }
    requires begun { AllSummed (rows_from rows.now) amounts.now seen.now 0 all.old }
    ensures { AllSummed (rows_from rows.now) amounts.now seen.now (length rows.now) all.new }
{
    for (i, &row) in rows.iter().enumerate() {
        let b = row.buyer as usize;
        all[b] = add_at(seen[b], all[b], row, amounts[i]);
    }
}

fn group_at(d: u32, v: Seen, z: Summed, row: Contract, amount: u32) -> bool
    requires { (z.cheaper ≤ room most_contracts) × (z.whole ≤ room most_contracts) }
    ensures { result ≡ group_good (d - v.firm) v.top z.cheaper z.whole row.kind row.price row.quantity amount }
{
    group_good(rest(d, v.firm), v.top, z.cheaper, z.whole, row, amount)
}

// The third pass.
fn group_rows(
    rows: &[Contract],
    amounts: &[u32],
    demands: &[u32],
    seen: &[Seen; Agent::MOST],
    sums: &[Summed; Agent::MOST],
) -> [bool; Agent::MOST]
    requires { Dealt rows.now amounts.now demands.now
        × AllSummed (rows_from rows.now) amounts.now seen.now (length rows.now) sums.now }
    ensures { AllFine (rows_from rows.now) amounts.now demands.now seen.now sums.now (length rows.now) result }
{
    let mut all = [true; Agent::MOST];
    for (i, &row) in rows.iter().enumerate() {
        let b = row.buyer as usize;
        all[b] &= group_at(demands[b], seen[b], sums[b], row, amounts[i]);
    }
    all
}

// All agents.
fn agents_good(
    seen: &[Seen; Agent::MOST],
    sums: &[Summed; Agent::MOST],
    fine: &[bool; Agent::MOST],
    demands: &[u32],
) -> bool
    requires { length demands.now ≤ most_agents }
    ensures { result ≡ every (length demands.now) (retailer_at seen.now sums.now fine.now demands.now) }
{
    (0..demands.len()).all(|b| {
        let left = rest(demands[b], seen[b].firm);
        verdict(seen[b], sums[b], fine[b], left, demands[b])
    })
}

// Whether the stated amounts of an hour's contracts follow document 01, for some order of equal prices.
pub(crate) fn hour_follows(rows: &[Contract], amounts: &[u32], demands: &[u32]) -> bool
    requires { Dealt rows.now amounts.now demands.now }
    ensures { result ≡ hour_good (rows_from rows.now) demands.now amounts.now }
{
    let mut seen = [Seen {
        good: true,
        reach: 0,
        depth: 0,
        top: 0,
        firm: 0,
        given: 0,
        asked: 0,
    }; Agent::MOST];
    look_rows(rows, amounts, &mut seen);
    let mut sums = [Summed {
        ahead: 0,
        largest: 0,
        under: 0,
        cheaper: 0,
        whole: 0,
    }; Agent::MOST];
    add_rows(rows, amounts, &seen, &mut sums);
    let fine = group_rows(rows, amounts, demands, &seen, &sums);
    agents_good(&seen, &sums, &fine, demands)
}
