//! The ways of all packets of a set through a base chain at once: which rules they come to and meet,
//! and how their ways end.
#![tactic(auto)]

mod fault;
mod merging;
mod outcomes;
mod table;
mod turns;
mod visits;
mod walking;
mod ways;

pub use fault::WalkError;
pub use outcomes::ChainEnd;
pub use visits::{RuleSets, Visits};
pub use ways::{ChainSets, LEVELS, chain_sets, chain_sets_from};
