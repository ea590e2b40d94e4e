//! Processes a capture record by record, as a forwarding box with a ruleset would.
#![tactic(auto)]

mod arrival;
mod confirm;
mod engine;
mod hooks;
mod interfaces;
mod laws;
mod lookup;
mod nat;
mod packet_buffer;
mod process;
mod setup;
mod state;

pub use engine::{Engine, Processed};
pub use laws::one_entry;
pub use std::alloc::AllocError as Memory;
