//! Compiles checked rulesets to code that gives the rules' own verdicts and events.
#![tactic(auto)]

mod compiled_chain;
mod compiling;
mod starts;
mod tables;

pub use compiling::compile;
pub use nft_tree::Memory;
