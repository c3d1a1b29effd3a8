// Two answers that meet one promise are equal, function by function. Nothing to run: the statements are in proofs/.
#![tactic(auto)]
