// One side of a buyer, by its keys in order: the retailer's tally, from what is left where the side begins.
ghost use Rattle.std.specs.Prelude.{◌≡◌, ◌||◌, ◌-◌, ◌≤◌, ◌<◌, ltb, length};
ghost use Rattle.sums.specs.Sums.{pick};
ghost use Rattle.sums.specs.Lists.{at, total, Filled};
ghost use Rattle.limits.specs.Limits.{most_contracts};
ghost use Rattle.share.specs.Share.{share_of};
ghost use Rattle.contracts.specs.Keys.{is_fixed, key_row};
ghost use Rattle.contracts.specs.Walk.{quantity_of, quantities_of, Scattered, Rowed, firm_amount};
ghost use Rattle.contracts.specs.Walk.{group_amount, Walked, RisingKeys};

use limits::Contract;

// What is left of a retailer's demand.
#[derive(Clone, Copy)]
pub struct Tally {
    pub left: u32,
}

impl Tally {
    // A quantity is taken, and the tally handed back with the demand left, not below 0.
    pub fn take(self, q: u32) -> Tally
        ensures { result.left ≡ self.left - q }
    {
        Tally {
            left: self.left.saturating_sub(q),
        }
    }
}

// ---- what a key says

fn row_of(k: u32) -> usize
    ensures { result ≡ key_row k }
{
    (k % crate::ROW_SPAN) as usize
}

fn quantity_of(section: &[u8], k: u32) -> u32
    ensures { result ≡ quantity_of section.now k }
{
    rows::contract_of(octets::row_at(section, row_of(k))).quantity
}

fn fixed(k: u32) -> bool
    ensures { result ≡ is_fixed k }
{
    k / crate::ROW_SPAN % 2 == 0
}

// ---- kinds 1 and 2

// Kind 1 in full, kind 2 in full where any of the demand is left.
#[tactic(auto, unfolding(sums::specs::Sums::pick))]
fn firm(in_full: bool, left: u32, q: u32) -> u32
    ensures { result ≡ pick (in_full || ltb 0 left) q }
{
    if in_full | (0 < left) { q } else { 0 }
}

pub(crate) fn serve_firm(section: &[u8], keys: &[u32], left: u32, out: &mut [u32])
    requires { Rowed keys.now (length keys.now) (length out.old) }
    ensures { Scattered keys.now (length keys.now)
        (firm_amount section.now keys.now left) out.old out.new }
{
    let mut tally = Tally { left };
    for &k in keys {
        let q = quantity_of(section, k);
        out[row_of(k)] = firm(fixed(k), tally.left, q);
        tally = tally.take(q);
    }
}

// ---- kind 3: a group of one price

fn in_full(section: &[u8], keys: &[u32], out: &mut [u32])
    requires { Rowed keys.now (length keys.now) (length out.old) }
    ensures { Scattered keys.now (length keys.now)
        (λ u. quantity_of section.now (at keys.now u)) out.old out.new }
{
    for &k in keys {
        out[row_of(k)] = quantity_of(section, k);
    }
}

fn nothing(keys: &[u32], out: &mut [u32])
    requires { Rowed keys.now (length keys.now) (length out.old) }
    ensures { Scattered keys.now (length keys.now) (λ _. 0) out.old out.new }
{
    for &k in keys {
        out[row_of(k)] = 0;
    }
}

// The quantities by place.
fn gather(section: &[u8], keys: &[u32], out: &mut [u32])
    requires { length keys.now ≤ length out.old }
    ensures { Filled 0 out.old out.new (length keys.now)
        (λ u. quantity_of section.now (at keys.now u)) }
{
    for (p, &k) in keys.iter().enumerate() {
        out[p] = quantity_of(section, k);
    }
}

// The amounts by row.
fn scatter(keys: &[u32], amounts: &[u32], out: &mut [u32])
    requires { Rowed keys.now (length keys.now) (length out.old) × (length keys.now ≤ length amounts.now) }
    ensures { Scattered keys.now (length keys.now) (at amounts.now)
        out.old out.new }
{
    for (&k, &amount) in keys.iter().zip(amounts) {
        out[row_of(k)] = amount;
    }
}

// What is left, shared over the group's quantities. There are no more of them than a sheet may have contracts, so that sharing never
// refuses.
fn share_out(section: &[u8], keys: &[u32], left: u32, out: &mut [u32])
    requires { Rowed keys.now (length keys.now) (length out.old) × (length keys.now ≤ most_contracts) }
    ensures { Scattered keys.now (length keys.now)
        (share_of left (quantities_of section.now keys.now)) out.old out.new }
{
    let mut quantities = [0u32; Contract::MOST];
    let mut amounts = [0u32; Contract::MOST];
    gather(section, keys, &mut quantities);
    let _ = share::share(left, &quantities[..keys.len()], &mut amounts);
    scatter(keys, &amounts, out);
}

fn total_of(section: &[u8], keys: &[u32]) -> u64
    requires { length keys.now ≤ most_contracts }
    ensures { result ≡ total (quantities_of section.now keys.now) }
{
    keys.iter()
        .map(|&k| u64::from(quantity_of(section, k)))
        .sum()
}

// A group that doesn't fit: one row gets what is left, several share it.
fn share_left(section: &[u8], keys: &[u32], left: u32, out: &mut [u32])
    requires { Rowed keys.now (length keys.now) (length out.old) × (length keys.now ≤ most_contracts)
        × (left < total (quantities_of section.now keys.now)) }
    ensures { Scattered keys.now (length keys.now)
        (share_of left (quantities_of section.now keys.now)) out.old out.new }
{
    if let &[k] = keys {
        out[row_of(k)] = left;
        return;
    }
    share_out(section, keys, left, out);
}

// A group in full where all of it fits, else the demand left is shared. Handed back is what is left behind it.
fn serve_group(section: &[u8], keys: &[u32], tally: Tally, out: &mut [u32]) -> Tally
    requires { Rowed keys.now (length keys.now) (length out.old) × (length keys.now ≤ most_contracts) }
    ensures { (result.left ≡ tally.left - total (quantities_of section.now keys.now))
        × Scattered keys.now (length keys.now)
        (group_amount tally.left (quantities_of section.now keys.now)) out.old out.new }
{
    if tally.left == 0 {
        nothing(keys, out);
        return tally;
    }
    let asked = total_of(section, keys);
    if u64::from(tally.left) < asked {
        share_left(section, keys, tally.left, out);
        return Tally { left: 0 };
    }
    in_full(section, keys, out);
    tally.take(asked as u32)
}

// ---- kind 3: one group after the other

pub(crate) fn serve_asked(section: &[u8], keys: &[u32], left: u32, out: &mut [u32])
    requires { RisingKeys keys.now (length out.old) }
    ensures { Walked section.now keys.now left (length keys.now)
        out.old out.new }
{
    let mut tally = Tally { left };
    for group in keys.chunk_by(|&k, &next| k / crate::ROW_SPAN == next / crate::ROW_SPAN) {
        tally = serve_group(section, group, tally, out);
    }
}
