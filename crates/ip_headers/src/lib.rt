//! IPv4 packets: views that read them in place, writable fields, tuples, and the Internet checksum.
#![tactic(auto)]

mod bytes;
pub mod laws;
mod parts;
mod sum;
mod transport;
mod tuple;
mod view;

pub use parts::PartsMut;
pub use sum::ones_sum;
pub use transport::Transport;
pub use tuple::{Direction, Endpoint, Kind, Mapping, Tuple};
pub use view::{HeaderFault, View};
