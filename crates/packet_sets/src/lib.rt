//! Sets of packets as reduced ordered binary decision diagrams over numbered bits. It knows nothing
//! of rules: what a bit of a packet stands for is its user's. Nodes stand in one vector, children
//! before parents. No result rests on the index by which a node is found again, nor on how much of
//! earlier results the memo still has: what either gives is compared before it is used.
#![tactic(auto)]

mod branch;
mod diagrams;
mod example;
mod fault;
mod fields;
mod index;
mod memo;
mod nodes;
mod operation;
mod packet_set;
mod places;
mod split;

pub use diagrams::Diagrams;
pub use fault::SetError;
pub use fields::Field;
pub use packet_set::PacketSet;
pub use split::Split;
