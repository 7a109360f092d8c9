// The formula and its game meaning, as definitions (specs/) and their laws (proofs/). There is no code here.
#![tactic(auto)]
