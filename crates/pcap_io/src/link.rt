//! Link-layer headers: where the packet of a record begins.
ghost use Rattle.std.specs.Prelude.{◌≡◌, ◌≤◌, length, IfOk};
ghost use Rattle.pcap_io.specs.Links as links;

use crate::format::LinkType;
use byteorder::{BigEndian, ByteOrder};
use thiserror::Error;

/// The EtherType of IPv4.
const IPV4: u16 = 0x0800;

/// What a link header says of its record.
#[derive(Clone, Copy)]
pub struct Link {
    /// The packet's offset in the record's bytes.
    pub packet: usize,
    /// The index of the input interface, where the header has it.
    pub interface: Option<u32>,
}

/// Why a record carries no packet for the box.
#[derive(Clone, Copy, Debug, Error)]
pub enum LinkCause {
    /// Fewer bytes than the link header has.
    #[error("short")]
    Short,
    /// The link header's protocol isn't IPv4.
    #[error("notip")]
    NotIp,
    /// The frame is for a group, or for another station.
    #[error("link")]
    Link,
}

impl LinkType {
    /// The length of the header, in bytes.
    fn header_bytes(self) -> usize
        ensures { result ≡ links.link_bytes self }
    {
        match self {
            Self::Ethernet => 14,
            Self::Raw => 0,
            Self::Sll2 => 20,
        }
    }

    /// Whether the header's protocol is IPv4.
    fn is_ipv4(self, bytes: &[u8]) -> bool
        requires { links.link_bytes self ≤ length bytes.now }
        ensures { result ≡ links.is_ipv4 self bytes.now }
    {
        match self {
            Self::Ethernet => BigEndian::read_u16(&bytes[12..]) == IPV4,
            Self::Raw => true,
            Self::Sll2 => BigEndian::read_u16(bytes) == IPV4,
        }
    }

    /// Whether the frame is for this station: by Ethernet no group address (its first byte's lowest
    /// bit is 0), by SLL2 packet type 0.
    fn is_to_station(self, bytes: &[u8]) -> bool
        requires { links.link_bytes self ≤ length bytes.now }
        ensures { result ≡ links.is_to_station self bytes.now }
    {
        match self {
            Self::Ethernet => bytes[0] % 2 == 0,
            Self::Raw => true,
            Self::Sll2 => bytes[10] == 0,
        }
    }

    /// The interface's index, where the header has it.
    fn interface(self, bytes: &[u8]) -> Option<u32>
        requires { links.link_bytes self ≤ length bytes.now }
        ensures { result ≡ links.interface_in self bytes.now }
    {
        match self {
            Self::Ethernet | Self::Raw => None,
            Self::Sll2 => Some(BigEndian::read_u32(&bytes[4..])),
        }
    }

    /// The packet's offset, and the input interface where the header has it; or the first test of
    /// the header that fails.
    pub(crate) fn link(self, bytes: &[u8]) -> Result<Link, LinkCause>
        ensures link { result ≡ links.link_of self bytes.now }
        ensures within { IfOk result (λ l. l.packet ≤ length bytes.now) }
    {
        if bytes.len() < self.header_bytes() {
            return Err(LinkCause::Short);
        }
        if !self.is_ipv4(bytes) {
            return Err(LinkCause::NotIp);
        }
        if !self.is_to_station(bytes) {
            return Err(LinkCause::Link);
        }
        Ok(Link {
            packet: self.header_bytes(),
            interface: self.interface(bytes),
        })
    }
}
