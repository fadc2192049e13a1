// The public calls of document 01 by value, above the calls in place: translate, load and test. Probe and the flushes are in `tableless`.
#![tactic(auto)]

pub mod by_value;
