//! Lowers statements of rules to actions of the virtual machine: words to numbers, names to
//! indexes, sets and maps to tables of intervals.
#![tactic(auto)]

mod asked;
mod declarations;
mod keys;
mod lookup_tables;
mod matches;
mod nat_statements;
mod statements;
mod tables;

pub use asked::{AskedNumbers, AskedSelectors, asked_numbers, asked_selectors};
pub use declarations::declared;
pub use statements::action;
