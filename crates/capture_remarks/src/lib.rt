//! Where a capture is refused or torn, what of it misleads a run, and how full the connection table
//! gets, told in few lines to those who explain it: `tools/doctor` tells more.
//!
//! The locations and the numbers are a help: no contract says them.
#![tactic(auto)]

mod fullness;
mod header_advice;
mod lines;
mod location;
mod second_run;
mod table_lines;
mod tally;

pub use fullness::Fullness;
pub use header_advice::{Compression, HeaderAdvice};
pub use lines::remarks;
pub use location::{CaptureLocation, capture_location};
pub use second_run::{SecondRun, Texts};
pub use table_lines::table_remarks;
