// The reason of one contract: what stands before it, and what its price group asks, each summed in a pass over the contract rows.
ghost use Rattle.std.specs.Prelude.{◌≡◌, ℕ, ◌<◌, Bool};
ghost use Rattle.deals.specs.Deals.{stands};
ghost use Rattle.sheet.specs.Asking.{contract_at};
ghost use Rattle.sheet.specs.Reading.{read_of};
ghost use Rattle.reasons.specs.Reasons.{conditional_reason, demanded_reason};
ghost use Rattle.reasons.specs.Parts.{part_total, reason_in};

use crate::{Ahead, ContractReason, Group};
use limits::Contract;
use sheet::Counts;

// Row j stands before row i: by rising price, kind 1 first at equal price, then the lower row.
#[tactic(auto, unfolding(deals::specs::Deals::stands))]
fn stands_before(k: Contract, j: usize, me: Contract, i: usize) -> bool
    ensures { result ≡ stands k.price k.kind j me.price me.kind i }
{
    (k.price < me.price)
        | ((k.price == me.price) & ((k.kind < me.kind) | ((k.kind == me.kind) & (j < i))))
}

// One pass over the contract rows of an accepted sheet: the quantities of the buyer's rows that count, each asked with its number. The
// contract says it of every test t that the closure's answers agree with.
fn pass<F: Fn(Contract, usize) -> bool>(bytes: &[u8], c: Counts, buyer: u32, counts: F) -> u32
    requires bytes_value { read_of bytes.now ≡ Ok c }
    requires counts_value { F.IsAlwaysCallable counts }
    ensures { (t : Contract → ℕ → Bool)
        → ((j : ℕ) (r : Bool) → j < c.contracts → F.post counts (contract_at bytes.now c j) j r → r ≡ t (contract_at bytes.now c j) j)
        → result ≡ part_total bytes.now c buyer t }
{
    let start = c.agents + c.boundaries + c.plants;
    let mut sum = 0;
    for j in 0..c.contracts {
        let k = rows::contract_of(octets::row_at(bytes, start + j));
        if k.buyer == buyer && counts(k, j) {
            sum += k.quantity;
        }
    }
    sum
}

// Kind 2, with the quantities ahead of it.
fn of_conditional(ahead: u32, demand: u32) -> ContractReason
    ensures { result ≡ conditional_reason ahead demand }
{
    if ahead < demand {
        ContractReason::Needed(Ahead { ahead, demand })
    } else {
        ContractReason::Covered(Ahead { ahead, demand })
    }
}

// Kind 3: what remains of the demand, what cheaper groups ask of it, and what its own group asks.
fn of_demanded(rest: u32, cheaper: u32, total: u32) -> ContractReason
    ensures { result ≡ demanded_reason rest cheaper total }
{
    let remainder = rest.saturating_sub(cheaper);
    if rest < cheaper {
        return ContractReason::Dearer(Group { remainder, total });
    }
    if total <= remainder {
        return ContractReason::Fits(Group { remainder, total });
    }
    ContractReason::Shares(Group { remainder, total })
}

// The reason of the contract `me` in row i of an accepted sheet, whose buyer has this demand.
#[tactic(auto, unfolding(crate::specs::Parts::reason_in))]
pub(crate) fn judge(bytes: &[u8], c: Counts, me: Contract, i: usize, demand: u32) -> ContractReason
    requires { read_of bytes.now ≡ Ok c }
    ensures { result ≡ reason_in bytes.now c me i demand }
{
    if me.kind == Contract::FIXED {
        return ContractReason::Fixed;
    }
    if me.kind == Contract::CONDITIONAL {
        let ahead = pass(bytes, c, me.buyer, |k, j| {
            k.kind < Contract::DEMANDED && stands_before(k, j, me, i)
        });
        return of_conditional(ahead, demand);
    }
    let firm = pass(bytes, c, me.buyer, |k, _| k.kind < Contract::DEMANDED);
    let cheaper = pass(
        bytes,
        c,
        me.buyer,
        |k, _| k.kind == Contract::DEMANDED && k.price < me.price,
    );
    let total = pass(
        bytes,
        c,
        me.buyer,
        |k, _| k.kind == Contract::DEMANDED && k.price == me.price,
    );
    of_demanded(demand.saturating_sub(firm), cheaper, total)
}
