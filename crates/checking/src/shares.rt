// Point 21: their loss shares, and the demands with them.
ghost use Rattle.std.specs.Prelude.{◌≡◌, ℕ, ◌+◌, ◌-◌, ◌*◌, ◌≤◌, ◌<◌, length};
ghost use Rattle.sums.specs.Sums.{sum};
ghost use Rattle.sums.specs.Lists.{at, Filled};
ghost use Rattle.limits.specs.Limits.{most_agents};
ghost use Rattle.rows.specs.Rows.{carries_losses};
ghost use Rattle.hour.specs.Lines.{cells_per_agent};
ghost use Rattle.statement.specs.Tests.{share_test};
ghost use Rattle.checking.specs.Passes.{room};
ghost use Rattle.checking.specs.Parts.{share_at, shares_test};

use crate::numbers;
use limits::Agent;

// One column of agents less another.
pub(crate) fn differences(xs: &[u32], ys: &[u32], out: &mut [u32])
    requires { (length ys.now ≡ length xs.now) × (length xs.now ≤ length out.old) }
    ensures { Filled 0 out.old out.new (length xs.now) (λ a. at xs.now a - at ys.now a) }
{
    for a in 0..xs.len() {
        out[a] = xs[a].saturating_sub(ys[a]);
    }
}

// The sum of a column.
pub(crate) fn total(values: &[u32]) -> u64
    requires { sum (length values.now) (at values.now) ≤ room 1 }
    ensures { result ≡ sum (length values.now) (at values.now) }
{
    let mut sum = 0;
    for &value in values {
        sum += u64::from(value);
    }
    sum
}

// A retailer's share is near its proportion; a generator has none, and nobody has where nothing is consumed.
fn share_good(kind: u32, losses: u32, used: u32, consumed: u64, share: u32) -> bool
    ensures { result ≡ share_test (carries_losses kind) losses used consumed share }
{
    if rows::carries_losses(kind) & (0 < consumed) {
        return numbers::near(losses, used, consumed, share);
    }
    share == 0
}

// Every share good, and all together the losses.
pub(crate) fn good(kinds: &[u32], used: &[u32], losses: u32, consumed: u64, figures: &[u32]) -> bool
    requires { (length kinds.now ≤ most_agents) × (length used.now ≡ length kinds.now)
        × (cells_per_agent * length kinds.now ≤ length figures.now) }
    ensures { result ≡ shares_test kinds.now used.now figures.now (length kinds.now) losses consumed }
{
    let mut fine = true;
    let mut sum = 0;
    for a in 0..kinds.len() {
        let share = figures[Agent::CELLS * a];
        fine &= share_good(kinds[a], losses, used[a], consumed, share);
        sum += u64::from(share);
    }
    fine & (sum == u64::from(losses))
}

// The commercial demands with their shares.
pub(crate) fn demands(used: &[u32], figures: &[u32], out: &mut [u32])
    requires in_bounds { (length used.now ≤ most_agents) × (cells_per_agent * length used.now ≤ length figures.now)
        × (length used.now ≤ length out.old) }
    requires by_index { (a : ℕ) → a < length used.now → at used.now a + share_at figures.now a ≤ 4294967295 }
    ensures { Filled 0 out.old out.new (length used.now) (λ a. at used.now a + share_at figures.now a) }
{
    for a in 0..used.len() {
        out[a] = used[a] + figures[Agent::CELLS * a];
    }
}

// Two columns added, 64 bits wide.
pub(crate) fn together(xs: &[u32], ys: &[u32], out: &mut [u64])
    requires { (length ys.now ≡ length xs.now) × (length xs.now ≤ length out.old) }
    ensures { Filled 0 out.old out.new (length xs.now) (λ a. at xs.now a + at ys.now a) }
{
    for a in 0..xs.len() {
        out[a] = u64::from(xs[a]) + u64::from(ys[a]);
    }
}
