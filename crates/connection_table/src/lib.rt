//! Conntrack entries with their NAT mappings: a mapping is held exactly as long as an entry that
//! was created with it.
#![tactic(auto)]

mod table;

pub use table::ConnectionTable;
