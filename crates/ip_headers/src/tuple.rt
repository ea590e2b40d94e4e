//! Tuples: kind, source and destination endpoint of a packet.
ghost use Rattle.std.specs.Prelude.{◌≡◌, ◌+◌, ◌*◌, ◌≤◌, true, length};
ghost use Rattle.ip_headers.specs.Header.{protocol};
ghost use Rattle.ip_headers.specs.Transport.{icmp_type};
ghost use Rattle.ip_headers.specs.Tuple.{inner_tuple, inverse, inverse_kind, is_error_type, echo_kind, tuple_in};
ghost use Rattle.ip_headers.specs.HashWords.{hash_word, hash_words, kind_number};
ghost use Rattle.ip_headers.specs.steps.Ports.{kind_and_ports, kind_with_ports, has_ports};
ghost use Rattle.std.specs.Cmp.Rules.{hashing};
ghost use Rattle.std.proofs.Common.{rules};

use crate::bytes::{u16_at, u32_at};
use crate::transport::{ICMP, TCP, UDP};
use std::hash::{Hash, Hasher};

/// An address and a port (RFC 4787, section 4.1). The port is 0 for kinds without ports.
#[derive(Clone, Copy, PartialEq, Eq)]
pub struct Endpoint {
    /// The address in host byte order: the first octet is the most significant byte.
    pub address: u32,
    /// The port. Of ICMP echo the identifier, at the endpoint that sends the requests.
    pub port: u16,
}

/// A protocol, as far as tuples distinguish it: ports of different kinds are never the same.
#[derive(Clone, Copy, PartialEq, Eq)]
pub enum Kind {
    /// TCP.
    Tcp,
    /// UDP.
    Udp,
    /// ICMP echo request (RFC 792; a query in RFC 5508).
    EchoRequest,
    /// ICMP echo reply.
    EchoReply,
    /// Any other protocol, by its number; it has no ports.
    Other(u8),
}

/// A packet's kind, source and destination: what connection tracking identifies it by.
#[derive(Clone, Copy, PartialEq, Eq)]
pub struct Tuple {
    /// The protocol.
    pub kind: Kind,
    /// The source.
    pub source: Endpoint,
    /// The destination.
    pub destination: Endpoint,
}

/// The directions of a connection (netfilter's IP_CT_DIR_ORIGINAL and IP_CT_DIR_REPLY).
#[derive(Clone, Copy, PartialEq, Eq)]
pub enum Direction {
    /// The direction of the first packet.
    Original,
    /// The other direction.
    Reply,
}

/// A NAT mapping: an internal endpoint and the external one that translation puts in its place (RFC
/// 4787, section 4.1).
#[derive(Clone, Copy, PartialEq, Eq)]
pub struct Mapping {
    /// The protocol.
    pub kind: Kind,
    /// The endpoint behind the NAT.
    pub internal: Endpoint,
    /// The endpoint that hosts outside see.
    pub external: Endpoint,
}

impl Hash for Tuple {
    ghost hash_input = { hash_words };

    ghost respects_eq = { Prim.search (hashing, rules) };

    // Two words in place of a write for each field.
    fn hash<H: Hasher>(&self, state: &mut H) {
        let kind = self.kind.number();
        state.write_u64(self.source.word(kind));
        state.write_u64(self.destination.word(kind));
    }
}

impl Endpoint {
    /// The endpoint and a kind in one word, by which tables hash them. Equal words are those of
    /// equal endpoints and kinds ([`hash_words_differ`](crate::laws::hash_words_differ)).
    pub fn hash_word(self, kind: Kind) -> u64
        ensures { result ≡ hash_word kind self }
    {
        self.word(kind.number())
    }

    /// The same, given the kind's number.
    #[inline(always)]
    fn word(self, kind: u16) -> u64
        ensures { result ≡ kind * 281474976710656 + self.port * 4294967296 + self.address }
    {
        let kind_and_port = u64::from(kind) * 65_536 + u64::from(self.port);
        kind_and_port * 4_294_967_296 + u64::from(self.address)
    }
}

impl Kind {
    /// Its number among kinds.
    fn number(self) -> u16
        ensures { result ≡ kind_number self }
    {
        match self {
            Self::Tcp => 256,
            Self::Udp => 257,
            Self::EchoRequest => 258,
            Self::EchoReply => 259,
            Self::Other(number) => u16::from(number),
        }
    }

    /// The kind of packets in the other direction: echo request and echo reply change places.
    pub fn inverse(self) -> Self
        ensures value { result ≡ inverse_kind self }
        ensures back { inverse_kind result ≡ self }
    {
        match self {
            Self::EchoRequest => Self::EchoReply,
            Self::EchoReply => Self::EchoRequest,
            same => same,
        }
    }
}

impl Tuple {
    /// The tuple of packets in the other direction: source and destination change places, and echo
    /// request with echo reply.
    pub fn inverse(self) -> Self
        ensures value { result ≡ inverse self }
        // Inversion is an involution.
        ensures back { inverse result ≡ self }
    {
        Tuple {
            kind: self.kind.inverse(),
            source: self.destination,
            destination: self.source,
        }
    }
}

/// Whether this is the type of an ICMP error (RFC 792): destination unreachable, source quench,
/// redirect, time exceeded or parameter problem.
pub(crate) fn is_error_type(message: u8) -> bool
    ensures { result ≡ is_error_type message }
{
    matches!(message, 3 | 4 | 5 | 11 | 12)
}

/// The tuple of a datagram, by its header and the first bytes of its payload; `None` for ICMP
/// messages other than echo request and echo reply.
pub(crate) fn tuple_in(datagram: &[u8], payload: &[u8]) -> Option<Tuple>
    requires header { 20 ≤ length datagram.now }
    requires ports { has_ports (protocol datagram.now) ≡ true → 8 ≤ length payload.now }
    ensures { result ≡ tuple_in datagram.now payload.now }
{
    let (kind, from, to) = kind_and_ports(datagram[9], payload)?;
    Some(Tuple {
        kind,
        source: Endpoint {
            address: u32_at(datagram, 12),
            port: from,
        },
        destination: Endpoint {
            address: u32_at(datagram, 16),
            port: to,
        },
    })
}

/// Kind, source port and destination port of a payload.
fn kind_and_ports(protocol: u8, payload: &[u8]) -> Option<(Kind, u16, u16)>
    requires { has_ports protocol ≡ true → 8 ≤ length payload.now }
    ensures { result ≡ kind_and_ports protocol payload.now }
{
    match protocol {
        TCP => Some((Kind::Tcp, u16_at(payload, 0), u16_at(payload, 2))),
        UDP => Some((Kind::Udp, u16_at(payload, 0), u16_at(payload, 2))),
        ICMP => query_kind_and_ports(payload),
        number => Some((Kind::Other(number), 0, 0)),
    }
}

/// The same of an ICMP message: echo request or echo reply.
pub(crate) fn query_kind_and_ports(message: &[u8]) -> Option<(Kind, u16, u16)>
    requires { 8 ≤ length message.now }
    ensures { result ≡ kind_with_ports (echo_kind (icmp_type message.now)) message.now }
{
    let identifier = u16_at(message, 4);
    match message[0] {
        0 => Some((Kind::EchoReply, 0, identifier)),
        8 => Some((Kind::EchoRequest, identifier, 0)),
        _ => None,
    }
}

/// The tuple of the datagram that an ICMP error quotes, if it can be translated and has one.
pub(crate) fn inner_tuple(inner: &[u8]) -> Option<Tuple>
    ensures { result ≡ inner_tuple inner.now }
{
    if inner.len() < 28 || inner[0] / 16 != 4 {
        return None;
    }
    // IHL counts 32-bit words.
    let header_len = (inner[0] % 16) as usize * 4;
    if header_len < 20 || inner.len() < header_len + 8 {
        return None;
    }
    // The fragment offset: all but the reserved bit, DF and MF.
    if u16_at(inner, 6) % 8192 != 0 {
        return None;
    }
    tuple_in(inner, &inner[header_len..])
}
