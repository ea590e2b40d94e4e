//! Termination: in a well-formed ruleset every packet gets a result, since costs and depths are a
//! ranking of its chains.
#![tactic(auto)]

mod laws;

pub use laws::{costs_rank_chains, hooks_terminate};
