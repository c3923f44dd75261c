// Counting a sheet's rows, distances not looked at: what mending a sheet begins with.
ghost use Rattle.std.specs.Prelude.{◌≡◌};
ghost use Rattle.sheet.specs.Counting.{counting_of};

use crate::{Counts, counts_fit, counts_of, length_good};
use refusals::Refusal;

// The counts, where they are within their limits and fit the length.
#[tactic(auto, using(crate::proofs::Counted::counting_steps))]
pub fn count_rows(s: &[u8]) -> Result<Counts, Refusal>
    ensures { result ≡ counting_of s.now }
{
    refusals::refuse_unless(length_good(s.len()), Refusal::LENGTH, 0)?;
    let c = counts_of(s);
    refusals::refuse_unless(counts_fit(s, c), Refusal::LAYOUT, 0)?;
    Ok(c)
}
