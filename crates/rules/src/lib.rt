// The steps, the log, the run and the replay, as definitions (specs/) and their theorems (proofs/). There is no code here.
#![tactic(auto)]
