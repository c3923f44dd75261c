// What the desk may rely on of a settled hour, as theorems: no code stands here.
#![tactic(auto)]
