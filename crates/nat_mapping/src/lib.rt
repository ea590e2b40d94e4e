//! The mappings of a NAT (RFC 4787): which internal endpoint is mapped to which external one, and
//! which port the next one gets.
#![tactic(auto)]

mod keys;
pub mod laws;
mod mappings;
mod pools;
mod tables;

pub use mappings::{MapError, Mappings};
pub use std::alloc::AllocError as Memory;
