//! Explains a fault of a ruleset, a box file or a capture: what it means, where it is, and what to do
//! about it. What to do about a fault of judged rules and of a box file is in `rules_advice`.
//!
//! What to do is a heuristic, as the location is: no contract says which advice is given.
#![tactic(auto)]

mod explaining;
mod shape_advice;
mod stop;
mod token_advice;
mod word_advice;

pub use explaining::explained;
