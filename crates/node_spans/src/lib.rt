//! Where each node of a ruleset stands among its tokens: tables, their items, rules, statements and
//! elements.
//!
//! Each function takes the tokens and the range of a node, and gives the ranges of its parts. So a
//! path of indexes leads from the whole ruleset to the tokens of any node. The parts are read again
//! by the parser's own productions.
#![tactic(auto)]

mod anonymous;
mod braces;
mod nodes;
mod reading;
mod set_elements;
mod token_range;

pub use anonymous::anonymous_elements;
pub use nodes::{items, rules, statements, tables};
pub use set_elements::elements;
pub use token_range::TokenRange;
