//! Nodes of diagrams.

/// A node: a walk goes on to `high` where the packet has the bit, else to `low`. The two nodes at
/// which walks end lead to themselves, and their bit comes after all others.
#[derive(Clone, Copy)]
pub struct Branch {
    pub bit: u32,
    pub low: u32,
    pub high: u32,
}
