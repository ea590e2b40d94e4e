//! The code of chains: one step for each statement of the rules that aren't dropped, and one for
//! the end of the chain.
#![tactic(auto)]

mod dropped;
mod firsts;
mod merged;
mod reached;
mod rules;

pub use rules::{add_chain, to_u32};
