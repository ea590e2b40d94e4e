//! What is said of a fault, for people: the words of nft(8) that are read, by what they are, those that
//! aren't, the one nearest to another, and sentences with them.
//!
//! They are a help: no contract says them, and what is printed of words is what the parser takes.
#![tactic(auto)]

mod near;
mod sentences;
mod unread;
mod vocabulary;

pub use near::{changes, nearest};
pub use nft_rulesets::{NO_VARIABLES, ONLY_IPV4};
pub use sentences::{
    Advice, DID_YOU_MEAN, DID_YOU_MEAN_ONE_OF, Gap, NO_GAP, filled, fixed, greatest_is,
    groups_advice, no_value, one_of, put_known, with_text, with_texts, with_words, write_this,
};
pub use unread::{COMMENT_MARK, OF_IPTABLES, OF_JSON, Place, left_out};
pub use vocabulary::{
    VERDICTS, begins_match, begins_statement, constants, has_constant, kinds, lists, names,
    otherwise,
};
