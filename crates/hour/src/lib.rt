// What an hour answers: the summary that every settlement hands back. All else here is definitions and laws.
#![tactic(auto)]

// The five numbers that `naomhral_settle` writes: a refused hour has its refusal in the first two and 0 in the others, a settled one 0 in
// the first two.
#[derive(Clone, Copy)]
pub struct Summary {
    pub number: u32,
    pub place: u32,
    pub price: u32,
    pub demand: u32,
    pub losses: u32,
}
