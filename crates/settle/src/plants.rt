// The plants of an accepted sheet: their schedule, and what it comes to by agent.
ghost use Rattle.std.specs.Prelude.{◌≡◌, ℕ, ◌+◌, ◌-◌, ◌≤◌, ◌<◌, length};
ghost use Rattle.sums.specs.Sums.{sum};
ghost use Rattle.sums.specs.Lists.{at, Filled};
ghost use Rattle.sheet.specs.Reading.{read_of};
ghost use Rattle.columns.specs.Columns.{columns_of};
ghost use Rattle.settle.specs.Parts.{Covered, Generates};

use crate::tally;
use limits::Plant;
use sheet::Counts;

// What each plant has to spare above its must-run, in place of its availability. What must run together is handed back.
fn set_apart(musts: &[u32], available: &mut [u32]) -> u32
    requires { (length musts.now ≤ length available.old) × (sum (length musts.now) (at musts.now) ≤ 4294967295) }
    ensures { (result ≡ sum (length musts.now) (at musts.now))
        × Filled 0 available.old available.new (length musts.now)
        (λ i. at available.old i - at musts.now i) }
{
    let mut total = 0;
    for (i, &must) in musts.iter().enumerate() {
        available[i] = available[i].saturating_sub(must);
        total += must;
    }
    total
}

// Adds each must-run to what the price order gave above it.
fn add_musts(musts: &[u32], schedule: &mut [u32])
    requires musts_len { length musts.now ≤ length schedule.old }
    requires by_index { (i : ℕ) → i < length musts.now → at musts.now i + at schedule.old i ≤ 4294967295 }
    ensures { Filled 0 schedule.old schedule.new (length musts.now)
        (λ i. at musts.now i + at schedule.old i) }
{
    for (i, &must) in musts.iter().enumerate() {
        schedule[i] += must;
    }
}

// The schedule into the lent list, and each generator's into its own energy, which has already what no schedule gives: nobody has
// both. The bolsa price is handed back.
pub(crate) fn generate(
    bytes: &[u8],
    c: Counts,
    target: u32,
    schedule: &mut [u32],
    own: &mut [u32],
) -> u32
    requires bytes_value { read_of bytes.now ≡ Ok c }
    requires covered { Covered (columns_of bytes.now c) target (length schedule.old) own.old }
    ensures { Generates (columns_of bytes.now c) result own.new
        schedule.old schedule.new }
{
    let n = c.plants;
    let mut holders = [0u32; Plant::MOST];
    let mut flags = [0u32; Plant::MOST];
    let mut musts = [0u32; Plant::MOST];
    let mut offers = [0u32; Plant::MOST];
    let mut spare = [0u32; Plant::MOST];
    ground::plants::columns(
        bytes,
        c,
        &mut holders,
        &mut flags,
        &mut musts,
        &mut offers,
        &mut spare,
    );
    let musts = &musts[..n];
    let must = set_apart(musts, &mut spare);
    let rest = target.saturating_sub(must);
    let _ = dispatch::dispatch(&offers[..n], &spare[..n], rest, schedule);
    add_musts(musts, schedule);
    tally::tally(&holders[..n], &schedule[..n], own);
    dispatch::price(&offers[..n], &flags[..n], &schedule[..n])
}
