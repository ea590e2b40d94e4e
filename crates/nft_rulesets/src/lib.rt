//! Tables with their chains, sets and maps, and whole rulesets (nft(8), "Ruleset", "Tables",
//! "Chains", "Sets", "Maps"); words of nft(8) that this profile doesn't support.
#![tactic(auto)]

mod chains;
mod element_lists;
mod fields;
mod flags;
mod heads;
mod notes;
mod sets;
mod tables;
mod types;
mod unsupported_words;

pub use chains::{ChainStart, EndedRule, chain_start};
pub use element_lists::{Elements, Pairs};
pub use fields::{AnyField, Field, block_start, elements_start};
pub use tables::{AnyTable, TableItem, ruleset, ruleset_start, table_start};
pub use types::{MapTypes, SetTypes};
pub use unsupported_words::{NO_VARIABLES, ONLY_IPV4, has_unsupported, instead_of};
