//! What two rulesets do differently on a box: the packets with which they do, as sets, stage by stage;
//! none where they do the same with every packet.
#![tactic(auto)]

mod differences;
mod diffing;
mod hints;
mod pairs;
mod pieces;

pub use differences::{Difference, RulesetDiff};
pub use diffing::ruleset_diff;
