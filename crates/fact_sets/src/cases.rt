//! Packets with what becomes of them.
use packet_sets::PacketSet;

/// Packets, and what becomes of them.
#[derive(Clone, Copy)]
pub struct Case<V> {
    pub set: PacketSet,
    pub outcome: V,
}
