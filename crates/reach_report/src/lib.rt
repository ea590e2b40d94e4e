//! What packets do in a ruleset, as lines: of each rule whether some packet meets it, and else which
//! rules take its packets; of each policy whether it applies; on demand by which packets; and sentences
//! on rules that can't be met.
#![tactic(auto)]

mod reach_lines;
mod reporting;
mod sets_below;
mod told;
mod unmet_reasons;

pub use reporting::{ReachReport, report_of};
pub use unmet_reasons::UnmetReasons;
