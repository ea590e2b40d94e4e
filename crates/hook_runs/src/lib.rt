//! Runs the base chains of the hooks, in the stages between which a packet's connection is looked
//! up and its addresses are translated.
#![tactic(auto)]

mod events;
mod running;
mod runs;
mod sorting;
mod stages;

pub use events::Events;
pub use rule_meaning::HookStage;
pub use runs::HookRuns;
