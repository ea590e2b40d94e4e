//! The virtual machine that executes the code of rules. It is total on any code, and its steps are
//! bounded by a start's cost.
#![tactic(auto)]

mod code;
mod events;
mod machine;
mod size;
mod stack;

pub use code::{Code, Start};
pub use events::Events;
pub use machine::{run, run_in_place};
pub use nft_tree::Memory;
pub use rule_index::CodeSize;
pub use rule_meaning::{ChainResult as Outcome, Facts};
