// Whether an administrator's statement follows documents 01 and 02, as definitions and laws: no code stands here.
#![tactic(auto)]
