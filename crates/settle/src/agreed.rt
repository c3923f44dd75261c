// The contracts of an accepted sheet: what each of them is assigned, and what it comes to by agent.
ghost use Rattle.std.specs.Prelude.{◌≡◌, length, take};
ghost use Rattle.limits.specs.Limits.{most_agents};
ghost use Rattle.sheet.specs.Reading.{read_of};
ghost use Rattle.columns.specs.Columns.{columns_of};
ghost use Rattle.balance.specs.Balances.{zeros};
ghost use Rattle.settle.specs.Parts.{Holding, HeldByAgent, Demanding, Agrees};

use limits::Contract;
use sheet::Counts;

// What each agent holds of the contracts of a section, bought and sold in one sum: nobody does both.
fn hold(section: &[u8], amounts: &[u32], held: &mut [u32])
    requires { Holding section.now amounts.now × (held.old ≡ zeros) }
    ensures { HeldByAgent section.now amounts.now held.new }
{
    for j in 0..section.len() / 16 {
        let k = rows::contract_of(octets::row_at(section, j));
        let amount = amounts[j];
        held[k.buyer as usize] += amount;
        held[k.seller as usize] += amount;
    }
}

// The amounts of all contracts into the lent list. The column has the commercial demands, which make room for what each agent holds under
// contract. Where there are no contracts no scratch is cleared for them.
pub(crate) fn agree(bytes: &[u8], c: Counts, column: &mut [u32], amounts: &mut [u32])
    requires bytes_value { read_of bytes.now ≡ Ok c }
    requires column_len { (length column.old ≡ most_agents)
        × Demanding (columns_of bytes.now c) (take c.agents column.old) (length amounts.old) }
    ensures { Agrees (columns_of bytes.now c) column.new
        amounts.old amounts.new }
{
    if c.contracts == 0 {
        column.fill(0);
        return;
    }
    let section = sheet::asking::section_of(bytes, c, Contract::SECTION);
    let _ = contracts::assign(section, &column[..c.agents], amounts);
    column.fill(0);
    hold(section, amounts, column);
}
