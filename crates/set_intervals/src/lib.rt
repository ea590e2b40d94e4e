//! Sorted, disjoint intervals of 128-bit numbers with a value each: the lookup table of an nftables
//! set or map. Building one from `n` pairs takes O(n log n) time and O(n) memory, a lookup O(log
//! n).
#![tactic(auto)]

mod fault;
mod overlay;
mod range;
mod table;

pub use fault::SetError;
pub use range::Range;
pub use table::Intervals;
