// Ideal dispatch as definitions, and the least-cost theorem: no code stands here.
#![tactic(auto)]
