//! Name resolution: what the names of a ruleset's tables, chains, sets and maps refer to.
#![tactic(auto)]

mod index;
mod laws;
mod name_faults;
mod references;
mod ruleset_names;
mod table;
mod targets;

pub use laws::duplicate_names_decidable;
pub use name_faults::{jumps_to_base_chain, jumps_to_unknown_chain, refers_to_unknown_set};
pub use ruleset_names::{ItemNames, RulesetNames};
pub use table::TableNames;
