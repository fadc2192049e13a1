// Demand 3 and request 14 at the doors: what a chain of calls tells a host by its numbers, by value or over a lent pair (specs/, proofs/). It has no code.
#![tactic(auto)]
