// Single answers at the doors: any two results that a call's promise allows are the same, the arrays included, and a refusal leaves every lent word (proofs/). It has no code.
#![tactic(auto)]
