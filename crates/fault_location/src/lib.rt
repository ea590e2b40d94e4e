//! Locates the faults of a ruleset and of a box file, for diagnostics: the one that is told, or all of
//! them.
//!
//! No contract says at which word of a faulty part a fault is shown, nor which faults are listed: a
//! part that is taken out may have had another fault, and faults that only follow from that aren't
//! listed.
#![tactic(auto)]

mod box_place;
mod fault_list;
mod faults;
mod node_place;
mod node_search;
mod text_place;

pub use box_place::faulty_line;
pub use fault_list::all_faults;
pub use faults::{Fault, SourcePaths, Sources, box_fault, read_box};
pub use node_place::{CheckPlace, check_place, fault_word};
pub use text_place::{SyntaxPlace, lexical_place, syntax_place};
