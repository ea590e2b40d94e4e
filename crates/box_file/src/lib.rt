//! Box files: the interfaces of a box with their addresses, its routes, the interface for captures
//! without interfaces and the idle timeouts; and lookups in them.
#![tactic(auto)]

mod by_kind;
mod checks;
mod duplicates;
mod fault;
mod idle;
mod idle_line;
mod laws;
mod limits;
mod line;
mod network;
mod numbers;
mod routes;
mod words;

pub use fault::{BoxError, BoxFault};
pub use idle_line::IdleKind;
pub use laws::{one_box, some_box};
pub use limits::Limits;
pub use network::{IfIndex, Plant};
