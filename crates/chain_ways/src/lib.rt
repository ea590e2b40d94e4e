//! The ways of packets through chains: which rules a packet comes to, where it goes on behind each, and where
//! its way ends. Ways are values, while runs are relations; that they agree are laws.
#![tactic(auto)]

mod exits;
mod laws;

pub use exits::{RuleExit, rule_exit};
pub use laws::{
    base_chain_events_fit_ways, base_chain_runs_are_ways, runs_are_ways, stage_runs_are_ways,
};
