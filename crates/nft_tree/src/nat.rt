//! NAT statements (nft(8), "NAT statements").
use crate::statement::MapLookup;

/// A NAT statement.
#[derive(Drop)]
pub enum Nat {
    /// `snat to`
    Source(SourceTarget),
    /// `dnat to`
    Destination(DestinationTarget),
    /// `masquerade`, with the ports to choose from
    Masquerade(Option<PortRange>),
    /// `redirect`, with the new destination port
    Redirect(Option<u64>),
}

/// The new source of `snat`.
#[derive(Drop)]
pub enum SourceTarget {
    Address(u32, Option<PortRange>),
    MapLookup(MapLookup),
}

/// The new destination of `dnat`.
#[derive(Drop)]
pub enum DestinationTarget {
    Address(u32, Option<u64>),
    MapLookup(MapLookup),
}

/// A port, or a range of ports, both ends included.
#[derive(Clone, Copy)]
pub enum PortRange {
    One(u64),
    Between(u64, u64),
}
