//! Packet rewriting for forwarding and NAT: fields replaced, checksums updated incrementally.
#![tactic(auto)]

mod change;
mod checksum;
pub mod examples;
mod fields;
pub mod laws;
mod sending;

pub use change::{Change, PortsOrIdentifier};
pub use ip_headers::ones_sum;
pub use sending::{emit, rewrite_packet};
pub use std::alloc::AllocError as Memory;
