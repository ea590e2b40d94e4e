//! Where a fault of a ruleset as a whole stands in its text: the bytes of the node with which the
//! ruleset gets it.
#![tactic(auto)]

mod ranges;
mod spans;

pub use ranges::node_range;
pub use spans::{FaultSpan, fault_span};
