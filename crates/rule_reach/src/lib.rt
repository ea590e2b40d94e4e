//! What packets do in a ruleset: the sets of those that come to each rule and meet it, and told by them
//! for each rule whether some packet meets it, and whether any comes to it, and which rules take the
//! packets of one that none meets.
#![tactic(auto)]

mod answers;
mod making;
mod numbers;
mod reaching;
mod rules;
mod sets;
mod takers;
mod telling;
mod unmet;

pub use answers::{Answer, PolicyReach, Reach, ReachError, RuleReach, Unmet};
pub use making::reach_sets;
pub use sets::{BaseSets, ReachSets};
