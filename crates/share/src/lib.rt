// The sharing rule: an amount is shared over weights. Each weight gets its proportion rounded down, and the kWh left over
// go one each to the largest remainders, the lower number first among equal ones.
#![tactic(auto)]

ghost use Rattle.std.specs.Prelude.{◌≡◌, ℕ, ◌+◌, ◌-◌, ◌*◌, ◌/◌, ◌%◌, ◌^◌, ◌<◌, ◌≤◌, length, MatchOption};
ghost use Rattle.sums.specs.Lists.{at, total, Filled};
ghost use Rattle.crossing.specs.Crossing.{Bracket, taken};
ghost use Rattle.share.specs.Share.{most_weights, floor_of, left_over, share_of, Shared};
ghost use Rattle.share.specs.Lacks.{most_total, Sharing, whole_rate, Rate, Floored, FloorsHeld, lack_of, one, Lesser, NextLack};
ghost use Rattle.share.specs.Lacks.{Narrowed, Noted, Cleared, Classed, Levelled, Chosen, FirstSpan, Closed};

use refusals::{Refusal, Verdict};

// More weights than this are refused.
pub const MOST_WEIGHTS: usize = 256;

// Two 32-bit numbers' whole product.
fn product(x: u32, y: u32) -> u64
    ensures { result ≡ x * y }
{
    u64::from(x) * u64::from(y)
}

// The sum of the weights.
fn total_of(weights: &[u32]) -> u64
    requires { length weights.now ≤ most_weights }
    ensures { (result ≡ total weights.now) × (result ≤ most_total) }
{
    weights.iter().map(|&w| u64::from(w)).sum()
}

// What is shared, over which weights, and the total of these.
#[derive(Clone, Copy)]
struct Split<'a> {
    amount: u32,
    weights: &'a [u32],
    total: u64,
}

// What a weight lacks to its next kWh: the total less the remainder, found from the floor without a second division.
fn lack(p: &Split, weight: u32, floor: u32) -> u64
    requires { (0 < p.now.total) × (p.now.total ≤ most_total) × (floor ≡ p.now.amount * weight / p.now.total) }
    ensures { (result ≡ p.now.total - p.now.amount * weight % p.now.total) × (result ≤ p.now.total) }
{
    p.total - (product(p.amount, weight) - u64::from(floor) * p.total)
}

// ---- the proportions, with one division for all of them

// A whole one of what a rate counts in.
const WHOLE: u64 = 4294967296;

// The amount's part of the total, in 2^32nds: rounded down, and a whole one at the most, so that it can be multiplied by any weight.
fn rate_of(p: &Split) -> u64
    requires { 0 < p.now.total }
    ensures { Rate p.now.amount p.now.total result }
{
    (u64::from(p.amount) * WHOLE / p.total).min(WHOLE)
}

// What a rate gives a weight, rounded down.
fn rated(rate: u64, weight: u32) -> u64
    requires { rate ≤ whole_rate }
    ensures { result ≡ rate * weight / whole_rate }
{
    rate * u64::from(weight) / WHOLE
}

// A weight's proportion of the amount, rounded down, and the remainder.
#[derive(Clone, Copy)]
struct Divided {
    floor: u32,
    remainder: u64,
}

// What the rate gives is the floor or less: only where it leaves no less than the total is a division made for this weight.
fn divide(p: &Split, weight: u32, rate: u64) -> Divided
    requires { (0 < p.now.total) × (weight ≤ p.now.total) × Rate p.now.amount p.now.total rate }
    ensures { (result.floor ≡ p.now.amount * weight / p.now.total)
        × (result.remainder ≡ p.now.amount * weight % p.now.total) }
{
    let whole = product(p.amount, weight);
    let guess = rated(rate, weight);
    let rest = whole - guess * p.total;
    if rest < p.total {
        return Divided {
            floor: guess as u32,
            remainder: rest,
        };
    }
    Divided {
        floor: (whole / p.total) as u32,
        remainder: whole % p.total,
    }
}

// ---- where the kWh left over go

// The kWh left over cross the weights, by what these lack, somewhere from `low` to `high`; `left` of them reach `low`.
// `held` is how many are counted in it, or 0, and only chooses the next step.
#[derive(Clone, Copy)]
struct Span {
    low: u64,
    high: u64,
    left: u32,
    held: u32,
}

// The least lack from `low` on that was seen, and how many have it.
#[derive(Clone, Copy)]
struct Least {
    lack: u64,
    count: u32,
}

// One lack more. No branch depends on it: all are values that are chosen.
fn lesser(m: Least, low: u64, k: u64) -> Least
    requires { (m.count < 4294967295) × (m.lack ≤ most_total) }
    ensures { Lesser low k m.lack m.count result.lack result.count }
{
    let y = from(k, low);
    Least {
        lack: y.min(m.lack),
        count: count_of(y, m.lack, m.count),
    }
}

// How many have the lesser of y and x, where c have x.
fn count_of(y: u64, x: u64, c: u32) -> u32
    requires { c < 4294967295 }
    ensures { (y < x → result ≡ 1) × (y ≡ x → result ≡ c + 1) × (x < y → result ≡ c) }
{
    let more = c + u32::from(y == x);
    if y < x { 1 } else { more }
}

// k where it is from `low` on, else more than any lack.
fn from(k: u64, low: u64) -> u64
    ensures { (low ≤ k → result ≡ k) × (k < low → most_total < result) }
{
    if k < low { u64::MAX } else { k }
}

// The next lack from `low` on, by a fresh pass.
fn least_from(p: &Split, out: &[u32], low: u64, high: u64) -> Least
    requires { FloorsHeld p.now.amount p.now.weights.now p.now.total out.now × (low ≤ high) × (high ≤ most_total) }
    ensures { NextLack (lack_of p.now.amount p.now.weights.now) (length p.now.weights.now) low high result.lack result.count }
{
    let mut m = Least {
        lack: high,
        count: 0,
    };
    for (&weight, &floor) in p.weights.iter().zip(out) {
        m = lesser(m, low, lack(p, weight, floor));
    }
    m
}

// One group of equal lacks is passed.
fn pass(p: &Split, out: &[u32], b: Span) -> Span
    requires { FloorsHeld p.now.amount p.now.weights.now p.now.total out.now × (b.low < b.high) × (b.high ≤ most_total) }
    ensures { Narrowed (lack_of p.now.amount p.now.weights.now) (length p.now.weights.now) b.low b.high b.left
        result.low result.high result.left }
{
    let m = least_from(p, out, b.low, b.high);
    if b.left <= m.count {
        return Span {
            low: m.lack,
            high: m.lack,
            left: b.left,
            held: 0,
        };
    }
    Span {
        low: m.lack + 1,
        high: b.high,
        left: b.left - m.count,
        held: 0,
    }
}

// A power of 2.
fn power(s: u32) -> u64
    requires { s < 64 }
    ensures { result ≡ 2 ^ s }
{
    1u64 << s
}

// The width of a class, as a shift: with `most` 58, some 63 of them make up x.
fn shift_for(x: u64, most: u32) -> u32
    requires { (0 < x) × (most < 64) }
    ensures { (result < 64) × (2 ^ result ≤ x) }
{
    let s = most.saturating_sub(x.leading_zeros());
    if x < power(s) { 0 } else { s }
}

// The class of k: a value that is chosen, and no branch.
fn class_of(low: u64, s: u32, k: u64) -> u64
    requires { s < 64 }
    ensures { (k < low → result ≡ 63) × (low ≤ k → result ≡ (k - low) / 2 ^ s) }
{
    if k < low { 63 } else { (k - low) >> s }
}

// One more in the class of k.
fn note(counts: &mut [u32], low: u64, s: u32, k: u64)
    requires { (s < 64) × (length counts.old ≡ 64) × ((c : ℕ) → c < 63 → at counts.old c < 4294967295) }
    ensures { Noted low (2 ^ s) k counts.old counts.new }
{
    let c = class_of(low, s, k);
    if c < 63 {
        counts[c as usize] += 1;
    }
}

// Puts in the shares rounded down, and hands back the kWh left over. While it divides it counts what the weights lack by classes.
fn floors(p: &Split, s: u32, out: &mut [u32], counts: &mut [u32]) -> u32
    requires { Sharing p.now.weights.now p.now.total × (length p.now.weights.now ≤ length out.old) × (s < 64) × Cleared counts.old }
    ensures { Floored p.now.amount p.now.weights.now out.old result out.new
        × Classed (lack_of p.now.amount p.now.weights.now) (length p.now.weights.now) 0 (2 ^ s) counts.new }
{
    let rate = rate_of(p);
    let mut left = p.amount;
    for (i, &weight) in p.weights.iter().enumerate() {
        let d = divide(p, weight, rate);
        note(counts, 0, s, p.total - d.remainder);
        out[i] = d.floor;
        left -= d.floor;
    }
    left
}

// How many lack so much as to be of each class.
fn classes(p: &Split, out: &[u32], low: u64, s: u32, counts: &mut [u32])
    requires { FloorsHeld p.now.amount p.now.weights.now p.now.total out.now × (s < 64) × Cleared counts.old }
    ensures { Classed (lack_of p.now.amount p.now.weights.now) (length p.now.weights.now) low (2 ^ s) counts.new }
{
    for (&weight, &floor) in p.weights.iter().zip(out) {
        note(counts, low, s, lack(p, weight, floor));
    }
}

// A class, and what is left when those below it are passed.
#[derive(Clone, Copy)]
struct Reach {
    class: usize,
    left: u32,
}

// The class at which so many end, or 63.
fn class_at(counts: &[u32], left: u32) -> Reach
    requires { length counts.now ≡ 64 }
    ensures { Levelled counts.now left result.class result.left }
{
    let mut rest = left;
    for (class, &held) in counts[..63].iter().enumerate() {
        if rest <= held {
            return Reach { class, left: rest };
        }
        rest -= held;
    }
    Reach {
        class: 63,
        left: rest,
    }
}

// The span of the class at which it ends.
fn choose(counts: &[u32], s: u32, b: Span) -> Span
    requires { (length counts.now ≡ 64) × (s < 64) × (2 ^ s ≤ b.high - b.low) × (b.high ≤ most_total) }
    ensures { Chosen counts.now (2 ^ s) b.low b.high b.left result.low result.high result.left }
{
    let l = class_at(counts, b.left);
    let w = power(s);
    let c = l.class;
    let low = b.low + w * (c as u64);
    if 63 <= c {
        return Span {
            low,
            high: b.high,
            left: l.left,
            held: 0,
        };
    }
    let top = low + (w - 1);
    let held = counts[c];
    if held <= l.left {
        return Span {
            low: top + 1,
            high: top.min(b.high),
            left: 0,
            held: 0,
        };
    }
    Span {
        low,
        high: top.min(b.high),
        left: l.left,
        held,
    }
}

// The span of one class out of 63, by a fresh pass.
fn narrow(p: &Split, out: &[u32], b: Span) -> Span
    requires { FloorsHeld p.now.amount p.now.weights.now p.now.total out.now × (b.low < b.high) × (b.high ≤ most_total) }
    ensures { Narrowed (lack_of p.now.amount p.now.weights.now) (length p.now.weights.now) b.low b.high b.left
        result.low result.high result.left }
{
    let s = shift_for(b.high - b.low, 58);
    let mut counts = [0u32; 64];
    classes(p, out, b.low, s, &mut counts);
    choose(&counts, s, b)
}

// Where the kWh left over cross the weights. Which step is taken is a matter of speed alone.
fn crossing(p: &Split, first: Span, out: &[u32]) -> Span
    requires { FloorsHeld p.now.amount p.now.weights.now p.now.total out.now × (first.high ≤ most_total) }
    ensures { Closed (lack_of p.now.amount p.now.weights.now) (length p.now.weights.now) first.low first.high
        first.left result.low result.high result.left }
{
    let mut b = first;
    while b.low < b.high {
        b = step(p, out, b);
    }
    b
}

fn step(p: &Split, out: &[u32], b: Span) -> Span
    requires { FloorsHeld p.now.amount p.now.weights.now p.now.total out.now × (b.low < b.high) × (b.high ≤ most_total) }
    ensures { Narrowed (lack_of p.now.amount p.now.weights.now) (length p.now.weights.now) b.low b.high b.left
        result.low result.high result.left }
{
    if b.left < 3 || 8 < b.held || p.weights.len() <= 8 {
        pass(p, out, b)
    } else {
        narrow(p, out, b)
    }
}

// One more for a weight that lacks less than x; at x for as many as are left.
fn unit(k: u64, x: u64, left: u32) -> u32
    ensures { result ≡ taken k x 1 left }
{
    u32::from(k < x) + u32::from(k == x).min(left)
}

// One kWh each to what lacks less than x, and to the first of those that lack x.
fn give(p: &Split, x: u64, left: u32, out: &mut [u32])
    requires { FloorsHeld p.now.amount p.now.weights.now p.now.total out.old
        × Bracket (lack_of p.now.amount p.now.weights.now) one (length p.now.weights.now)
        (left_over p.now.amount p.now.weights.now) x x left }
    ensures { Filled 0 out.old out.new (length p.now.weights.now)
        (share_of p.now.amount p.now.weights.now) }
{
    let mut rest = left;
    for (i, &weight) in p.weights.iter().enumerate() {
        let floor = out[i];
        let k = lack(p, weight, floor);
        out[i] = floor + unit(k, x, rest);
        rest = rest.saturating_sub(u32::from(k == x));
    }
}

// The kWh left over, where the floors stand in `out` already and a first span is known. No copy of the remainders is held.
fn spread(p: &Split, first: Span, out: &mut [u32])
    requires { FloorsHeld p.now.amount p.now.weights.now p.now.total out.old × (first.high ≤ most_total)
        × Bracket (lack_of p.now.amount p.now.weights.now) one (length p.now.weights.now)
        (left_over p.now.amount p.now.weights.now) first.low first.high first.left }
    ensures { Filled 0 out.old out.new (length p.now.weights.now)
        (share_of p.now.amount p.now.weights.now) }
{
    let b = crossing(p, first, out);
    give(p, b.low, b.left, out);
}

// How wide the first classes are: few weights need few classes.
fn first_shift(n: usize, t: u64) -> u32
    requires { 0 < t }
    ensures { (result < 64) × (2 ^ result ≤ t) }
{
    shift_for(
        t,
        match n {
            0..=8 => 60,
            9..=32 => 59,
            _ => 58,
        },
    )
}

// The shares, in a list that has room for them.
fn fill(amount: u32, weights: &[u32], out: &mut [u32])
    requires { (length weights.now ≤ most_weights) × (length weights.now ≤ length out.old) }
    ensures { Filled 0 out.old out.new (length weights.now)
        (share_of amount weights.now) }
{
    let total = total_of(weights);
    if total == 0 {
        out[..weights.len()].fill(0);
        return;
    }
    fill_some(
        &Split {
            amount,
            weights,
            total,
        },
        out,
    );
}

// The floors stand in `out` afterwards; handed back is a first span in which the kWh left over cross, where there are any. Its counts
// are gone before the span is narrowed, which takes counts of its own.
fn begin(p: &Split, out: &mut [u32]) -> Option<Span>
    requires { Sharing p.now.weights.now p.now.total × (length p.now.weights.now ≤ length out.old) }
    ensures floors { Filled 0 out.old out.new (length p.now.weights.now)
        (floor_of p.now.amount p.now.weights.now) }
    ensures span { MatchOption result (left_over p.now.amount p.now.weights.now ≡ 0)
        (λ b. FirstSpan p.now.amount p.now.weights.now b.low b.high b.left) }
{
    let s = first_shift(p.weights.len(), p.total);
    let mut counts = [0u32; 64];
    let left = floors(p, s, out, &mut counts);
    if left == 0 {
        return None;
    }
    let whole = Span {
        low: 0,
        high: p.total,
        left,
        held: 0,
    };
    Some(choose(&counts, s, whole))
}

// The shares of a total above 0.
fn fill_some(p: &Split, out: &mut [u32])
    requires { Sharing p.now.weights.now p.now.total × (length p.now.weights.now ≤ length out.old) }
    ensures { Filled 0 out.old out.new (length p.now.weights.now)
        (share_of p.now.amount p.now.weights.now) }
{
    if let Some(first) = begin(p, out) {
        spread(p, first, out);
    }
}

// Shares the amount over the weights: share i goes to cell i of `out`, and cells past those stay. A refusal writes nothing.
pub fn share(amount: u32, weights: &[u32], out: &mut [u32]) -> Verdict
    ensures { Shared amount weights.now out.old result out.new }
{
    if MOST_WEIGHTS < weights.len() {
        return refusals::refuse(Refusal::LAYOUT, 0);
    }
    if out.len() < weights.len() {
        return refusals::refuse(Refusal::ROOM, 0);
    }
    fill(amount, weights, out);
    Ok(())
}
