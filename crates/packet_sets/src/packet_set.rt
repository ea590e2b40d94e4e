//! Names of sets.

/// A set of packets among some diagrams: its node. It means nothing to other diagrams.
#[derive(Clone, Copy, PartialEq, Eq)]
pub struct PacketSet {
    pub(crate) node: u32,
}

impl PacketSet {
    /// No packet.
    pub const NONE: PacketSet = PacketSet { node: 0 };

    /// All packets.
    pub const ALL: PacketSet = PacketSet { node: 1 };
}
