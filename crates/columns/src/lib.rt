// An accepted sheet by its columns, as a definition and its laws: no code stands here.
#![tactic(auto)]
