// Sums by index, lists and tests, as definitions and laws: no code stands here.
#![tactic(auto)]
