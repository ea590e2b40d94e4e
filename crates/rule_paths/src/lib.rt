//! Analysis of jumps and gotos: cycles, depth, cost, and NAT statements in chains that may not have
//! them.
//!
//! Each table is a call graph by index: its chains, its maps, and one empty node each for unknown
//! chains and maps. All passes take linear time, and nothing is recursive.
#![tactic(auto)]

mod analysis;
mod laws;
mod marks;
mod misplaced;
mod nodes;
mod numbers;
mod table;

pub use analysis::{Findings, analyze};
pub use laws::{costs_exist, path_faults_decidable};
