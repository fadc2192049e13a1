// Table memory: the ranges, one long, one descriptor, and the arithmetic of pages.

#![tactic(auto)]

pub mod bits;
pub mod descriptor;
pub mod kept;
pub mod longs;
pub mod page030;
pub mod page040;
pub mod ranges;
pub mod tables;
