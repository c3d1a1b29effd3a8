// The laws over any run of slots from a fresh card. Nothing to run: the statements are in proofs/.
#![tactic(auto)]
