//! Proved examples of definitions, each a law: of the grammar, texts with the trees that they spell
//! and texts that spell none; of the semantics of rules, small rulesets with the results for packets.
#![tactic(auto)]

pub mod grammar;
pub mod semantics;
