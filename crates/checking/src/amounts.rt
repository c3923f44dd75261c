// Point 24: their contract amounts.
ghost use Rattle.std.specs.Prelude.{◌≡◌, ◌≤◌, length};
ghost use Rattle.sums.specs.Lists.{Filled};
ghost use Rattle.sheet.specs.Reading.{read_of};
ghost use Rattle.sheet.specs.Asking.{contract_at};
ghost use Rattle.columns.specs.Columns.{columns_of};
ghost use Rattle.checking.specs.Accounts.{no_contract};
ghost use Rattle.checking.specs.Parts.{Spacious, Holdable, Holding, Agreed};

use crate::passes;
use limits::Contract;
use sheet::Counts;

// The contract rows, into lent cells: two arrays of rows would be too much stack.
fn contracts(bytes: &[u8], c: Counts, rows: &mut [Contract; Contract::MOST])
    requires { read_of bytes.now ≡ Ok c }
    ensures { Filled no_contract rows.old rows.new c.contracts (contract_at bytes.now c) }
{
    let section = sheet::asking::section_of(bytes, c, Contract::SECTION);
    for j in 0..c.contracts {
        rows[j] = rows::contract_of(octets::row_at(section, j));
    }
}

// Adds to each agent's cell what it buys and sells, in one sum, since nobody does both.
fn hold(rows: &[Contract], amounts: &[u32], held: &mut [u64])
    requires { Holdable rows.now amounts.now held.old }
    ensures { Holding rows.now amounts.now held.old held.new }
{
    for (j, &row) in rows.iter().enumerate() {
        let amount = u64::from(amounts[j]);
        held[row.buyer as usize] += amount;
        held[row.seller as usize] += amount;
    }
}

// Whether the amounts follow, on these demands; what each agent holds is added to its cell.
pub(crate) fn judge(
    bytes: &[u8],
    c: Counts,
    demands: &[u32],
    amounts: &[u32],
    held: &mut [u64],
) -> bool
    requires bytes_value { read_of bytes.now ≡ Ok c }
    requires contracts_in_bounds { (c.contracts ≤ length amounts.now) × (length demands.now ≡ c.agents) × Spacious held.old }
    ensures { Agreed (columns_of bytes.now c) demands.now amounts.now
        held.old result held.new }
{
    let mut all = [Contract {
        seller: 0,
        buyer: 0,
        kind: 0,
        price: 0,
        quantity: 0,
    }; Contract::MOST];
    contracts(bytes, c, &mut all);
    let rows = &all[..c.contracts];
    hold(rows, amounts, held);
    passes::hour_follows(rows, amounts, demands)
}
