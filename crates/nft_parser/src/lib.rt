//! The parser: the syntax tree of a ruleset's text (nft(8)); and whether some ruleset begins with
//! tokens, which it does if it is read with more behind them.
#![tactic(auto)]

mod beginnings;
mod fault;
mod laws;
mod parsing;

pub use beginnings::{begins, joined, unsupported_word};
pub use fault::{ParseError, TextFault};
pub use laws::{one_fault, one_tree, some_answer};
pub use parsing::parse;
