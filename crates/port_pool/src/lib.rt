//! Port allocation at one external address of a NAT: ports of TCP and UDP, and ICMP identifiers.
//!
//! A port keeps its class and parity where possible, and its number where that is free (RFC 4787,
//! section 4.2).
#![tactic(auto)]

mod bitmap;
pub mod examples;
pub mod laws;
mod order;
mod pool;
mod range;
mod span;
mod unused;

pub use order::Order;
pub use pool::Pool;
pub use range::CandidateRange;
pub use std::alloc::AllocError as Memory;
pub use unused::choose_unused;
