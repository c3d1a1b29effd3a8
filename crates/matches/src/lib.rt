// The mathematics of a match: definitions in specs/, theorems in proofs/. There is no code here.
#![tactic(auto)]
