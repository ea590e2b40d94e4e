//! Each action of a rule as cases of packets: with which of them it does what.
#![tactic(auto)]

mod cases;
mod concatenations;
mod laws;

pub use cases::{Outcome, action_cases};
pub use laws::bits_are_kept;
