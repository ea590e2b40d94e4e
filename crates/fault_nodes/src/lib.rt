//! The node with which a ruleset gets its fault: declarations are read first and then rules,
//! statements and elements, all in text order.
#![tactic(auto)]

mod counting;
mod cutting;
mod elements;
mod first_faults;
mod lists;
mod locating;
mod node_at;
mod nodes;
mod reading;

pub use counting::{declarations, ruleset_parts};
pub use first_faults::first_fault;
pub use node_at::node_of_part;
pub use nodes::{FaultyNode, Node};
pub use reading::ruleset_between;
