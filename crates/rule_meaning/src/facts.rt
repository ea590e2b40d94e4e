//! What rules can read of a packet.
use ip_headers::{Direction, Transport};

/// Everything that rules can read of a packet.
#[derive(Clone, Copy)]
pub struct Facts {
    pub packet: Packet,
    /// The input interface.
    pub input: Interface,
    /// The output interface; `None` before routing, and for packets to the box itself.
    pub output: Option<Interface>,
    /// The packet's mark.
    pub mark: u32,
    pub ct: CtFacts,
}

/// The header fields of a packet, as translated so far.
#[derive(Clone, Copy)]
pub struct Packet {
    /// The source address, big-endian: its first octet is the highest byte.
    pub source: u32,
    /// The destination address, big-endian.
    pub destination: u32,
    /// The protocol number.
    pub protocol: u8,
    /// The time to live, as decremented so far.
    pub ttl: u8,
    /// The total length, in bytes.
    pub length: u16,
    pub transport: Transport,
}

/// An interface.
#[derive(Clone, Copy)]
pub struct Interface {
    /// Its interface index (ifindex).
    pub index: u32,
    /// Its name, padded with zeros to 16 bytes, as a big-endian number.
    pub name: u128,
}

/// What rules can read of a packet's connection.
#[derive(Clone, Copy)]
pub enum CtFacts {
    /// Nothing: the conntrack lookup is yet to come.
    NotLookedUp,
    /// Nothing: a `notrack` statement has ruled out the lookup to come.
    Notrack,
    /// The lookup was skipped: `ct state untracked`.
    Untracked,
    /// The packet belongs to no connection and creates none: `ct state invalid`.
    Invalid,
    /// The packet belongs to a connection, creates one, or is an ICMP error about one.
    Known(ConnectionFacts),
}

/// What rules can read of a packet's connection, where there is one.
#[derive(Clone, Copy)]
pub struct ConnectionFacts {
    pub state: CtState,
    pub direction: Direction,
    /// The connection's mark.
    pub mark: u32,
    /// A packet in reply direction has been seen (IPS_SEEN_REPLY).
    pub seen_reply: bool,
    /// Its source is translated (IPS_SRC_NAT).
    pub source_translated: bool,
    /// Its destination is translated (IPS_DST_NAT).
    pub destination_translated: bool,
}

/// The `ct state` of a packet with a connection.
#[derive(Clone, Copy)]
pub enum CtState {
    /// Packets have been seen in both directions.
    Established,
    /// The packet is an ICMP error about the connection.
    Related,
    /// The packet creates the connection, or there was no reply yet.
    New,
}
