// Points 22 and 23: their schedule, and the price that it gives.
ghost use Rattle.std.specs.Prelude.{◌≡◌, ◌≤◌, length};
ghost use Rattle.sums.specs.Lists.{at};
ghost use Rattle.limits.specs.Limits.{most_plants};
ghost use Rattle.sheet.specs.Reading.{read_of};
ghost use Rattle.columns.specs.Columns.{columns_of};
ghost use Rattle.statement.specs.Decide.{every};
ghost use Rattle.statement.specs.Tests.{order_test};
ghost use Rattle.checking.specs.Passes.{room};
ghost use Rattle.checking.specs.Parts.{Ran, RanTo, Fitted, Spacious, Scheduled};

use crate::{passes, tally};
use limits::Plant;
use sheet::Counts;

// What a pass over the plants finds: whether each stands within its bounds, what they deliver together, the dearest offer above a
// must-run, and the highest flexible one that is scheduled. `good` is a finding like the others, and they hold whatever it says.
#[derive(Clone, Copy)]
struct Run {
    good: bool,
    total: u64,
    dearest: u32,
    price: u32,
}

// One plant more, which is to deliver q.
fn run_one(v: Run, flag: u32, must: u32, offer: u32, available: u32, q: u32) -> Run
    requires { v.total ≤ room most_plants }
    ensures { Ran v flag must offer available q result }
{
    Run {
        good: v.good & ((must <= q) & (q <= available)),
        total: v.total + u64::from(q),
        dearest: passes::most_when(v.dearest, must < q, offer),
        price: passes::most_when(v.price, (flag == 0) & (0 < q), offer),
    }
}

// The plants by their columns, as `ground` reads them for settling too.
#[derive(Clone, Copy)]
struct Fleet<'a> {
    flags: &'a [u32],
    musts: &'a [u32],
    offers: &'a [u32],
    available: &'a [u32],
}

// The first pass.
fn run_all(fleet: Fleet, schedule: &[u32]) -> Run
    requires { Fitted fleet.flags.now fleet.musts.now fleet.offers.now fleet.available.now schedule.now }
    ensures { RanTo fleet.entry.flags.now fleet.entry.musts.now fleet.entry.offers.now fleet.entry.available.now
        schedule.now (length fleet.entry.flags.now) result }
{
    let mut v = Run {
        good: true,
        total: 0,
        dearest: 0,
        price: 0,
    };
    for i in 0..fleet.flags.len() {
        v = run_one(
            v,
            fleet.flags[i],
            fleet.musts[i],
            fleet.offers[i],
            fleet.available[i],
            schedule[i],
        );
    }
    v
}

// A plant with energy left is not cheaper than the dearest that runs above its must-run.
fn placed(dearest: u32, offer: u32, available: u32, q: u32) -> bool
    ensures { result ≡ order_test dearest offer available q }
{
    (available <= q) | (dearest <= offer)
}

// The second pass.
fn in_order(fleet: Fleet, schedule: &[u32], dearest: u32) -> bool
    requires { Fitted fleet.flags.now fleet.musts.now fleet.offers.now fleet.available.now schedule.now }
    ensures { result ≡ every (length fleet.entry.flags.now)
        (λ i. order_test dearest (at fleet.entry.offers.now i) (at fleet.entry.available.now i) (at schedule.now i)) }
{
    (0..fleet.flags.len()).all(|i| placed(
        dearest,
        fleet.offers[i],
        fleet.available[i],
        schedule[i],
    ))
}

// The price of the schedule, if it is one for this demand; each generator's part is added to its own energy.
pub(crate) fn judge(
    bytes: &[u8],
    c: Counts,
    demand: u64,
    schedule: &[u32],
    own: &mut [u64],
) -> Option<u32>
    requires bytes_value { read_of bytes.now ≡ Ok c }
    requires plants_in_bounds { (c.plants ≤ length schedule.now) × Spacious own.old }
    ensures { Scheduled (columns_of bytes.now c) demand schedule.now
        own.old result own.new }
{
    let n = c.plants;
    let mut holders = [0u32; Plant::MOST];
    let mut flags = [0u32; Plant::MOST];
    let mut musts = [0u32; Plant::MOST];
    let mut offers = [0u32; Plant::MOST];
    let mut available = [0u32; Plant::MOST];
    ground::plants::columns(
        bytes,
        c,
        &mut holders,
        &mut flags,
        &mut musts,
        &mut offers,
        &mut available,
    );
    tally::tally(&holders[..n], schedule, own);
    let fleet = Fleet {
        flags: &flags[..n],
        musts: &musts[..n],
        offers: &offers[..n],
        available: &available[..n],
    };
    let v = run_all(fleet, schedule);
    let order = in_order(fleet, schedule, v.dearest);
    (v.good & (v.total == demand) & order).then_some(v.price)
}
