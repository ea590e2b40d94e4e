//! Parser combinators over the tokens: single tokens, keywords of a table, repetitions and lists.
//!
//! A parsing function takes a position in the tokens (past the last token there is nothing) and
//! gives a part and the position after it, which is greater and within the tokens.
//! `specs/Grammar.antt` defines productions and their combinators; `specs/steps/Lawful.antt` proves
//! that each combinator parses exactly what it spells.
#![tactic(auto)]

mod ends;
mod found;
mod productions;
mod single;
mod tables;

pub use ends::{after_end, after_ends, is_rule_end, skip_ends};
pub use productions::{Comma, Dot, Production, Separator, lines, more, repeated, separated};
pub use single::{
    address, after_punctuator, after_word, number, number_after, string, string_after, word,
};
pub use tables::one_of;
