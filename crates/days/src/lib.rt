// What the desk may rely on of each hour of a day, as theorems: no code stands here.
#![tactic(auto)]
