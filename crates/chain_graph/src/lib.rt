//! The call graph of chains and verdict maps: topological order, costs, depths and reachability.
//!
//! Nothing is recursive and all passes take linear time, so that a long row of chains can't
//! overflow the stack.
#![tactic(auto)]

mod analysis;
mod costs;
mod depths;
mod node;
mod reaching;
mod search;
mod targets;

pub use analysis::{GraphAnalysis, analyze};
pub use node::{Edge, Node};
pub use reaching::reaches_marked;
