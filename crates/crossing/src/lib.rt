// Where a demand crosses rows with keys and values, for any number of rows, with no order of them made: by passes, each a sum of
// values with no branch in it, and one that draws the end in to a key that there is.
#![tactic(auto)]

ghost use Rattle.std.specs.Prelude.{◌≡◌, ℕ, ◌+◌, ◌-◌, ◌≤◌, ◌<◌, min, ltb, length};
ghost use Rattle.sums.specs.Sums.{peak, pick};
ghost use Rattle.sums.specs.Lists.{at};
ghost use Rattle.crossing.specs.Crossing.{held_below, Crossing};

// The highest key.
#[tactic(auto, using(sums::proofs::Sums::peak_step), unfolding(sums::specs::Sums::peak))]
fn highest(keys: &[u32]) -> u32
    ensures { result ≡ peak (length keys.now) (at keys.now) }
{
    let mut top: u32 = 0;
    for &y in keys {
        top = top.max(y);
    }
    top
}

// What a row of key y that holds v holds below the key x.
#[tactic(auto, using(sums::proofs::Picks::picks))]
fn below(y: u32, x: u32, v: u32) -> u32
    ensures { result ≡ pick (ltb y x) v }
{
    if y < x { v } else { 0 }
}

// So many rows are summed at once, with no regard to the demand: their sum fits.
const STRETCH: usize = 64;

// What is held below the key x in a stretch of rows: one sum of values, with no branch in it.
#[tactic(auto, using(crate::proofs::Rows::held_none))]
fn held_below(keys: &[u32], values: &[u32], x: u32) -> u64
    requires { (length values.now ≡ length keys.now) × (length keys.now ≤ 64) }
    ensures { result ≡ held_below (at keys.now) (at values.now) (length keys.now) x }
{
    let mut s: u64 = 0;
    for (&y, &v) in keys.iter().zip(values) {
        s += u64::from(below(y, x, v));
    }
    s
}

// What the keys below x leave of the demand.
fn left_of(keys: &[u32], values: &[u32], demand: u32, x: u32) -> u32
    requires { length values.now ≡ length keys.now }
    ensures { result ≡ demand - held_below (at keys.now) (at values.now) (length keys.now) x }
{
    let mut left = u64::from(demand);
    for (k, v) in keys.chunks(STRETCH).zip(values.chunks(STRETCH)) {
        left = left.saturating_sub(held_below(k, v, x));
    }
    left as u32
}

// The highest key below x, or 0.
#[tactic(auto, using(sums::proofs::Sums::peak_step), unfolding(sums::specs::Sums::peak))]
fn highest_below(keys: &[u32], x: u32) -> u32
    ensures { result ≡ peak (length keys.now) (λ i. pick (ltb (at keys.now i) x) (at keys.now i)) }
{
    let mut top: u32 = 0;
    for &y in keys {
        top = top.max(below(y, x, y));
    }
    top
}

// y where it is from x on, else the largest number.
fn from(y: u32, x: u32) -> u32
    ensures { (x ≤ result) × (x ≤ y → result ≡ y) }
{
    if y < x { u32::MAX } else { y }
}

// The lowest key from x on, or `high`.
fn lowest_from(keys: &[u32], x: u32, high: u32) -> u32
    requires { x ≤ high }
    ensures { (x ≤ result) × (result ≤ high)
        × ((i : ℕ) → i < length keys.now → at keys.now i < result → at keys.now i < x) }
{
    let mut low = high;
    for &y in keys {
        low = low.min(from(y, x));
    }
    low
}

// A crossing, by halving: it lies from `low` to `high`, which are moved to keys that there are.
fn close_in(keys: &[u32], values: &[u32], demand: u32) -> u32
    requires { length values.now ≡ length keys.now }
    ensures { Crossing (at keys.now) (at values.now) (length keys.now) demand result }
{
    let mut low = 0;
    let mut high = highest(keys);
    while low < high {
        let middle = high - (high - low) / 2;
        if left_of(keys, values, demand, middle) == 0 {
            high = highest_below(keys, middle);
        } else {
            low = lowest_from(keys, middle, high);
        }
    }
    low
}

// ---- of the rows that both lists have

// A key at which the demand crosses them.
pub fn reach(keys: &[u32], values: &[u32], demand: u32) -> u32
    ensures { Crossing (at keys.now) (at values.now)
        (min (length keys.now) (length values.now)) demand result }
{
    let n = keys.len().min(values.len());
    close_in(&keys[..n], &values[..n], demand)
}

// What those below the key x leave of the demand.
pub fn left_below(keys: &[u32], values: &[u32], demand: u32, x: u32) -> u32
    ensures { result ≡ demand - held_below (at keys.now) (at values.now)
        (min (length keys.now) (length values.now)) x }
{
    let n = keys.len().min(values.len());
    left_of(&keys[..n], &values[..n], demand, x)
}
