//! Header changes.
ghost use Rattle.std.specs.Prelude.{◌≡◌};
ghost use Rattle.rewrite.specs.Endpoints.{between, ports_or_identifier};

use ip_headers::{Kind, Tuple};

/// What identifies the endpoints of a packet besides the addresses.
#[derive(Clone, Copy)]
pub enum PortsOrIdentifier {
    /// TCP and UDP: the source port and the destination port.
    Ports(u16, u16),
    /// ICMP echo request and echo reply: the identifier.
    Identifier(u16),
}

/// Header fields to replace. `None` leaves a field as it is.
#[derive(Clone, Copy)]
pub struct Change {
    /// The source address in host byte order.
    pub source: Option<u32>,
    /// The destination address.
    pub destination: Option<u32>,
    /// Ports or identifier. Ports are ignored unless the packet is TCP or UDP, an identifier unless
    /// it is an ICMP echo request or echo reply.
    pub numbers: Option<PortsOrIdentifier>,
    /// The time to live.
    pub ttl: Option<u8>,
    /// For an ICMP error: the new endpoints of the quoted datagram. Ignored where the packet quotes
    /// none that can be translated.
    pub inner: Option<Tuple>,
}

impl Change {
    /// Gives a packet the endpoints of a tuple, and this TTL or its own.
    pub fn between(tuple: Tuple, ttl: Option<u8>) -> Change
        ensures { result ≡ between tuple ttl }
    {
        Change {
            source: Some(tuple.source.address),
            destination: Some(tuple.destination.address),
            numbers: ports_or_identifier_of(&tuple),
            ttl,
            inner: None,
        }
    }
}

/// The ports of a tuple, or the identifier at the endpoint that sends the requests.
fn ports_or_identifier_of(tuple: &Tuple) -> Option<PortsOrIdentifier>
    ensures { result
        ≡ ports_or_identifier tuple.now.kind tuple.now.source.port tuple.now.destination.port }
{
    let (from, to) = (tuple.source.port, tuple.destination.port);
    match tuple.kind {
        Kind::Tcp | Kind::Udp => Some(PortsOrIdentifier::Ports(from, to)),
        Kind::EchoRequest => Some(PortsOrIdentifier::Identifier(from)),
        Kind::EchoReply => Some(PortsOrIdentifier::Identifier(to)),
        Kind::Other(_) => None,
    }
}
