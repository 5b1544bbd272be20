// Lemmas of no one crate, on options, tests, lists and counts, in proofs/.
#![tactic(auto)]
