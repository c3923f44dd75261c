// An agent's line: what it buys, sells and is owed, from its kind, its own energy, its own import and what it holds under contract; and
// its figures and its money, written.
#![tactic(auto)]

ghost use Rattle.std.specs.Prelude.{◌≡◌, ℕ, ◌+◌, ◌*◌, ◌≤◌, ◌<◌, min, pos, length};
ghost use Rattle.std.proofs.Math.Seq.{paste};
ghost use Rattle.sums.specs.Lists.{at, Filled};
ghost use Rattle.limits.specs.Limits.{most_agents, most_offer};
ghost use Rattle.hour.specs.Lines.{money_of, cells_per_agent};
ghost use Rattle.lines.specs.Lines.{buys, sells, line_cell, line_money};

use limits::{Agent, Plant};

// A retailer buys the demand that contracts don't cover; a generator buys its shortfall, and its own import besides.
pub fn bought(kind: u32, own: u32, import: u32, contracted: u32) -> u64
    ensures { result ≡ buys kind own import contracted }
{
    if rows::carries_losses(kind) {
        u64::from(own.saturating_sub(contracted))
    } else {
        u64::from(contracted.saturating_sub(own)) + u64::from(import)
    }
}

// A retailer sells its contracted excess, a generator what it makes beyond its contracts.
pub fn sold(kind: u32, own: u32, contracted: u32) -> u32
    ensures { result ≡ sells kind own contracted }
{
    if rows::carries_losses(kind) {
        contracted.saturating_sub(own)
    } else {
        own.saturating_sub(contracted)
    }
}

// The money of one agent, in whole centavos; no price is above the highest offer.
pub fn owed(sold: u32, bought: u32, price: u32) -> i64
    ensures { result ≡ money_of sold bought (min price most_offer) }
{
    (i64::from(sold) - i64::from(bought)) * i64::from(price.min(Plant::OFFER))
}

// The cells of agent a in the figures.
fn write_line(a: usize, line: &[u32; Agent::CELLS], figures: &mut [u32])
    requires { cells_per_agent * (a + 1) ≤ length figures.old }
    ensures { figures.new ≡ paste figures.old (cells_per_agent * a) line.now cells_per_agent }
{
    figures[Agent::CELLS * a..Agent::CELLS * (a + 1)].copy_from_slice(line);
}

// The lines and the money of n agents: callers hold columns with room for the most agents, and n of each are filled.
pub fn write_lines<'a>(
    kinds: &'a [u32; Agent::MOST],
    shares: &'a [u32; Agent::MOST],
    own: &[u32; Agent::MOST],
    imports: &'a [u32; Agent::MOST],
    contracted: &[u32; Agent::MOST],
    n: usize,
    price: u32,
    figures: &mut [u32],
    money: &mut [i64],
)
    requires n_le_most_agents { (n ≤ most_agents) × (cells_per_agent * n ≤ length figures.old) × (n ≤ length money.old) × (price ≤ most_offer) }
    requires by_index { (a : ℕ) → a < n → buys (at kinds.now a) (at own.now a) (at imports.now a) (at contracted.now a) ≤ 4294967295 }
    ensures filled { Filled 0 figures.old figures.new (cells_per_agent * n)
        (line_cell kinds.now shares.now own.now imports.now contracted.now) }
    ensures filled_2 { Filled (pos 0) money.old money.new n
        (line_money kinds.now own.now imports.now contracted.now price) }
{
    for a in 0..n {
        let buys = bought(kinds[a], own[a], imports[a], contracted[a]) as u32;
        let sells = sold(kinds[a], own[a], contracted[a]);
        let line = [shares[a], own[a], imports[a], contracted[a], buys, sells];
        write_line(a, &line, figures);
        money[a] = owed(sells, buys, price);
    }
}
