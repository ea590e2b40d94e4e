//! The parts of a ruleset that can't be read: tables, their items, rules and elements, found by the
//! parser's own productions, one level after the other.
//!
//! No contract says which parts these are. That the grammar allows the start of a part is shown by
//! an ending with which that is read.
#![tactic(auto)]

mod beginnings;
mod braces;
mod part;
mod prefixes;
mod walk;

pub use braces::{OpenBrace, braces_match, open_braces, unclosed_brace};
pub use part::{Part, PartKind};
pub use walk::unread_parts;
