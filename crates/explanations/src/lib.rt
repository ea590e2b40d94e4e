//! What the codes of faults mean: one sentence and one paragraph for each.
#![tactic(auto)]

mod explanation;
mod table;

pub use explanation::{Explanation, explain};
