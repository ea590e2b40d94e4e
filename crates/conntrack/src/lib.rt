//! Connection tracking: the entries of a table, the trait of tables, and how a table represents the
//! history of all records.
#![tactic(auto)]

mod belonging;
mod connection;
pub mod examples;
pub mod laws;
mod limits;
mod list_tracker;
mod tracker;

pub use belonging::{Belonging, ConnectionRef};
pub use connection::{Aged, ConnId, Connection, ConntrackEntry, Flags, Moment, Phase};
pub use ip_headers::Direction;
pub use limits::{idle_kind, limit_by, limit_in};
pub use list_tracker::ListTracker;
pub use std::alloc::AllocError as Memory;
pub use step_count::Steps;
pub use tracker::{BeginError, MAX_CONNECTIONS, Tracker};
