//! Type checking: set and map keys against selectors, map data against statements, operators and
//! ranges against types (N08).
#![tactic(auto)]

mod compared_types;
mod keys;
mod maps;
mod statements;
mod tables;

pub use tables::has_type_mismatch;
