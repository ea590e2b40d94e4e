//! Checks rulesets before they are loaded: names, jumps, types, values, NAT and limits.
#![tactic(auto)]

mod analysis;
mod checked;
mod fault;
mod heads;
mod laws;
mod limits;
mod terminal_statements;

pub use checked::{Checked, check, least_fault};
pub use fault::{CheckError, CheckFault};
pub use laws::{least_fault_unique, well_formed_or_least_fault};
pub use limits::{chain_count, rule_count, too_large};
