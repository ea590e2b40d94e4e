//! The values of each type, and the numbers that they denote.
//!
//! A ruleset writes a value as a number, an address, a word or a string. What it denotes depends on
//! the type that is expected there (nft(8), "Data types"), and for interface names also on the box.
#![tactic(auto)]

mod bounds;
mod compared_types;
mod names;
mod ranges;
mod values;

pub use names::name_number;
pub use ranges::{is_range, is_range_on_box, numbers_of, value_numbers};
pub use values::{is_on_box, is_value};
