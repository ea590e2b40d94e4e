//! Rules: matches, which test what a selector reads of a packet, and other statements (nft(8),
//! "Rules", "Expressions", "Statements").
//!
//! The selectors of a match are read first. The tokens after them decide the rest: a set lookup, or
//! a test of the one selector by its kind (bits, TCP flags or a comparison).
#![tactic(auto)]

mod bits;
mod comparisons;
mod counters;
mod flags;
mod marks;
mod matches;
mod nat;
mod operators;
mod rules;
mod statements;

pub use nft_expressions::{anysel, elems, pairs};
pub use nft_tree::Memory;
pub use rules::rule;
pub use statements::AnyStatement;
