//! Network address translation of one packet (RFC 3022): its state in connection tracking, and what
//! destination NAT and source NAT do to it.
#![tactic(auto)]

mod change;
mod ct_info;
mod destination;
pub mod examples;
mod external;
mod facts;
pub mod laws;
mod source;

pub use ct_info::{CtInfo, NewConnection, TrackedConnection};
pub use destination::apply_destination_nat;
pub use facts::{update_destination, update_source};
pub use source::apply_source_nat;
