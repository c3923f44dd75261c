// From a settled hour to what a day's book holds of it: demand, losses, bought kWh and price.
#![tactic(auto)]

ghost use Rattle.std.specs.Prelude.{◌≡◌, ◌≤◌, min};
ghost use Rattle.sums.specs.Lists.{at};
ghost use Rattle.limits.specs.Limits.{most_agents};
ghost use Rattle.sheet.specs.Counting.{counting_of};
ghost use Rattle.entry.specs.Entry.{agents_counted, bought_in_all, most_word, entry_of};

use book::Hour;
use hour::Summary;
use refusals::Refusal;

// How many agents the sheet has.
#[tactic(auto, using(sheet::proofs::Counted::rows_counted))]
fn agents_in(sheet: &[u8]) -> usize
    ensures { (result ≡ agents_counted (counting_of sheet.now)) × (result ≤ most_agents) }
{
    match sheet::counting::count_rows(sheet) {
        Ok(c) => c.agents,
        Err(_) => 0,
    }
}

// The k-th cell, 0 past the end.
fn cell(figures: &[u32], k: usize) -> u32
    ensures { result ≡ at figures.now k }
{
    figures.get(k).copied().unwrap_or(0)
}

// What the first n agents bought: the fifth of each one's six cells. The figures may be fewer than n agents have, and then there is no
// slice of n agents' cells.
fn all_bought(figures: &[u32], n: usize) -> u64
    requires { n ≤ most_agents }
    ensures { result ≡ bought_in_all figures.now n }
{
    let mut sum: u64 = 0;
    for a in 0..n {
        sum += u64::from(cell(figures, 6 * a + 4));
    }
    sum
}

// The number in 32 bits, and the greatest such number where it has more: over what a book takes.
fn narrow(x: u64) -> u32
    ensures { result ≡ min x most_word }
{
    u32::try_from(x).unwrap_or(u32::MAX)
}

// The entry of an hour, from its sheet, the summary that `settle` answered for it, and the figures that `settle` left.
pub fn entry_of(sheet: &[u8], summary: Summary, figures: &[u32]) -> Result<Hour, Refusal>
    ensures { result ≡ entry_of sheet.now summary figures.now }
{
    // the C interface tells the summary by its number, 0 for a settled hour: `Summary` is flat
    if summary.number == 0 {
        let bought = narrow(all_bought(figures, agents_in(sheet)));
        Ok(Hour {
            demand: summary.demand,
            losses: summary.losses,
            bought,
            price: summary.price,
        })
    } else {
        Err(Refusal {
            number: summary.number,
            place: summary.place,
        })
    }
}
