//! What to do about a fault of a ruleset as a whole, or of a box file.
//!
//! It is a heuristic: no contract says which advice is given.
#![tactic(auto)]

mod around;
mod box_advice;
mod check_advice;
mod duplicates;
mod name_advice;
mod names;
mod type_advice;
mod types;
mod value_advice;

pub use around::Source;
pub use box_advice::put_advice_on_box;
pub use check_advice::put_advice_on_rules;
