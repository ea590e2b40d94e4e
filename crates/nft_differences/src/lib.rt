//! What nft(8) 1.0.6 makes of a ruleset that is accepted here: what it refuses, and what it, or
//! Linux, means otherwise; and where its rules are.
//!
//! Each warning was tried against nft. No contract says which are given, nor the places: they are a
//! help.
#![tactic(auto)]

mod chains;
mod declarations;
mod findings;
mod intervals;
mod layout;
mod names;
mod ports;
mod protocols;
mod rules;
mod sets;
mod tokens;

pub use findings::{rule_offsets, warnings};
