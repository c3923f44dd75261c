// The ideal dispatch of one hour and its price, for any number of plants. No order of the plants is made: the price at which
// the demand crosses the offers is found by passes, and one pass then fills the schedule.
#![tactic(auto)]

ghost use Rattle.std.specs.Prelude.{◌≡◌, ◌-◌, ◌≤◌, min, ltb, eqb, length};
ghost use Rattle.sums.specs.Sums.{sum, pick};
ghost use Rattle.sums.specs.Lists.{at, Filled};
ghost use Rattle.crossing.specs.Crossing.{taken};
ghost use Rattle.merit.specs.Merit.{schedule};
ghost use Rattle.dispatch.specs.Dispatch.{plant_count, Dispatched, price_of};

use refusals::{Refusal, Verdict};

// What a demand has left after all plants: 0 exactly where they cover it.
#[tactic(auto, using(sums::proofs::Sums::sum_none, sums::proofs::Sums::sum_step))]
fn left_over(available: &[u32], demand: u32) -> u32
    ensures { result ≡ demand - sum (length available.now) (at available.now) }
{
    let mut left = demand;
    for &v in available {
        left = left.saturating_sub(v);
    }
    left
}

// What a plant of offer y and availability v offers at the price x.
#[tactic(auto, using(sums::proofs::Picks::picks))]
fn level_with(y: u32, x: u32, v: u32) -> u32
    ensures { result ≡ pick (eqb y x) v }
{
    if y == x { v } else { 0 }
}

// What a plant of offer y and availability v delivers at the marginal price m.
#[tactic(auto, using(crossing::proofs::Crossing::takes))]
fn portion_at(y: u32, m: u32, v: u32, left: u32) -> u32
    ensures { result ≡ taken y m v left }
{
    if y < m {
        v
    } else if y == m {
        v.min(left)
    } else {
        0
    }
}

// Writes the schedule of the plants that both lists have.
fn fill(offers: &[u32], available: &[u32], demand: u32, out: &mut [u32])
    requires { plant_count offers.now available.now ≤ length out.old }
    ensures { Filled 0 out.old out.new (plant_count offers.now available.now)
        (schedule (at offers.now) (at available.now) (plant_count offers.now available.now)
        demand) }
{
    let m = crossing::reach(offers, available, demand);
    let mut left = crossing::left_below(offers, available, demand, m);
    for i in 0..offers.len().min(available.len()) {
        let y = offers[i];
        let v = available[i];
        out[i] = portion_at(y, m, v, left);
        left = left.saturating_sub(level_with(y, m, v));
    }
}

// The schedule of the plants that both lists have, written to `out`; or refusal 10 or 11, and `out` as it was.
pub fn dispatch(offers: &[u32], available: &[u32], demand: u32, out: &mut [u32]) -> Verdict
    ensures { Dispatched offers.now available.now demand out.old result out.new }
{
    let n = offers.len().min(available.len());
    if 0 < left_over(&available[..n], demand) {
        return refusals::refuse(Refusal::UNCOVERED, 0);
    }
    if out.len() < n {
        return refusals::refuse(Refusal::ROOM, 0);
    }
    fill(offers, available, demand, out);
    Ok(())
}

// What a plant says to the price: its offer where it is flexible and scheduled, else 0.
#[tactic(auto, using(sums::proofs::Picks::picks))]
fn bid(offer: u32, flag: u32, scheduled: u32) -> u32
    ensures { result ≡ pick (eqb flag 0) (pick (ltb 0 scheduled) offer) }
{
    if flag == 0 && 0 < scheduled { offer } else { 0 }
}

// The bolsa price of a schedule, over the rows that all three lists have.
#[tactic(auto, using(sums::proofs::Sums::peak_step), unfolding(sums::specs::Sums::peak))]
pub fn price(offers: &[u32], flags: &[u32], scheduled: &[u32]) -> u32
    ensures { result ≡ price_of offers.now flags.now scheduled.now }
{
    let mut top: u32 = 0;
    for i in 0..offers.len().min(flags.len()).min(scheduled.len()) {
        top = top.max(bid(offers[i], flags[i], scheduled[i]));
    }
    top
}
