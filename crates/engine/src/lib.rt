//! Runs the packets of a capture through a ruleset of nft(8), as a forwarding box would.
#![tactic(auto)]

mod fault;
mod fullest;
mod inputs;
mod judging;
mod laws;
mod replay;
mod rerun;
mod runs;

pub use fault::{RulesFault, RunFault};
pub use fullest::Fullest;
// What a caller of single steps needs: the engine, what became of a record, and its entry.
pub use history::{Entry, Outcome as Passed};
pub use judging::{Counts, judge};
pub use laws::{
    failed_or_not, no_meaning, one_judging, one_meaning, one_refusal, some_answer, some_judging,
};
pub use rerun::Rerun;
pub use runs::{Summary, run};
pub use std::alloc::AllocError as Memory;
pub use stepping::Engine;
