//! Sets of packets as lines that can be read: each line says of some fields in which ranges their
//! numbers lie. It knows nothing of rules: what a field stands for is its user's. No packet passes
//! two of the lines. Where a set takes more lines than are wanted, or where a field can't be parted
//! from the others, the rest is counted and not left out unsaid.
#![tactic(auto)]

mod halves;
mod line;
mod listing;
mod pieces;
mod ways;

pub use line::{FieldNumbers, Line, Lines, Numbers};
pub use listing::lines;
