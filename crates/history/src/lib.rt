//! What became of each record: the history that the written capture and the report come from.
#![tactic(auto)]

mod entry;
mod outcome;

pub use entry::Entry;
pub use outcome::{Cause, Outcome};
