//! A run of the engine that shows how much of its capture is read.
#![tactic(auto)]

mod progress_reader;
mod running;

pub use progress_reader::{Progress, ProgressLine, ProgressReader};
pub use running::{RunInputs, run_with_progress};
