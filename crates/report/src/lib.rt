//! The report of a run: log lines, traced verdicts, counters and totals.
#![tactic(auto)]

mod counter_lines;
mod names;
mod note_lines;
mod notes;
mod page;
mod piece;
mod report;
mod tallies;
mod total_lines;

pub use history::Entry;
pub use report::{INITIAL_NOTES, MOST_NOTES, Report};
pub use std::alloc::AllocError as Memory;
