//! Sets of packets as matches of nft(8), to be put into rules, line by line below the other lines of a
//! report. No contract says which words these are: they are tested. The numbers of a line and the words
//! for them are both found by `FactField`, so that one field's numbers aren't written with another's
//! words.
#![tactic(auto)]

mod line;
mod lists;
mod numbers;
mod protocols;
mod texts;
mod words;
mod writer;

pub use texts::SetWords;
