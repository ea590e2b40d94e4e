//! The ways of all packets of a set through the base chains of a stage of a hook, one after another, at
//! once: how they end. And the packets that all filter chains of a ruleset accept.
#![tactic(auto)]

mod accepting;
mod bases;
mod ends;
mod numbers;
mod outcome;
mod stages;
mod states;
mod through;

pub use accepting::accepted;
pub use outcome::{Decider, StageOutcome};
pub use stages::stage_outcomes;
