//! What a new ruleset does differently, as lines: classes of packets by what each ruleset does with
//! them, the packets of each as matches of nft(8).
#![tactic(auto)]

mod classes;
mod lines;
mod reporting;
mod words;

pub use reporting::{DiffReport, report_of};
