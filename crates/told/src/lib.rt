// That a statement which was written is read back, and that ours is then accepted, as theorems: no code stands here.
#![tactic(auto)]
