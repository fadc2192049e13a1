// Demand 3 for the calls in place: what a chain of them answers (specs/Chain.antt, proofs/Watched.antt). It has no code.
#![tactic(auto)]
