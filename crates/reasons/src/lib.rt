// Why a variable is left: the reason as a definition, what each reason says of the formula by itself (specs/), and the theorems
// that the reason given is true and the only one (proofs/). There is no code here.
#![tactic(auto)]
