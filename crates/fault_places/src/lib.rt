//! Words and positions in the text of a ruleset or a box file, and what is around them, for
//! diagnostics.
//!
//! Of positions it is proved that they lie within the text. What is around them is found by braces
//! and ends of lines, without the grammar.
#![tactic(auto)]

mod heads;
mod part;
mod position;
mod words;

pub use heads::{heads_around, tokens_around};
pub use part::{
    Span, bytes_of, holds, is_in_one, mask, rest_from, shown, span_of, tokens_of, tokens_within,
};
pub use position::{Position, position_at, show};
pub use words::Words;
