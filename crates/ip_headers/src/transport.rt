//! The transport header of a packet: TCP, UDP or ICMP.
ghost use Rattle.std.specs.Prelude.{◌≡◌, false, length};
ghost use Rattle.ip_headers.specs.Transport.{destination_port_of, icmp_type_of, source_port_of};
ghost use Rattle.ip_headers.specs.Transport.{tcp_flags_of, tcp_is_malformed, transport_in, transport_is_malformed};
ghost use Rattle.ip_headers.specs.Transport.{udp_is_malformed};

use crate::bytes::u16_at;

/// Protocol number of ICMP (IANA).
pub(crate) const ICMP: u8 = 1;
/// Protocol number of TCP.
pub(crate) const TCP: u8 = 6;
/// Protocol number of UDP.
pub(crate) const UDP: u8 = 17;

/// What a packet carries, by its protocol number, with the fields that rules match on.
#[derive(Clone, Copy, PartialEq)]
pub enum Transport {
    /// A TCP segment (RFC 9293, section 3.1).
    Tcp {
        /// The source port.
        source: u16,
        /// The destination port.
        destination: u16,
        /// CWR, ECE, URG, ACK, PSH, RST, SYN and FIN, from the most to the least significant bit.
        flags: u8,
    },
    /// A UDP datagram (RFC 768).
    Udp {
        /// The source port.
        source: u16,
        /// The destination port.
        destination: u16,
    },
    /// An ICMP message (RFC 792).
    Icmp {
        /// Its type.
        icmp_type: u8,
    },
    /// Anything else.
    Other,
}

impl Transport {
    /// The source port; `None` except for TCP and UDP.
    pub fn source_port(self) -> Option<u16>
        ensures { result ≡ source_port_of self }
    {
        match self {
            Self::Tcp { source, .. } | Self::Udp { source, .. } => Some(source),
            Self::Icmp { .. } | Self::Other => None,
        }
    }

    /// The destination port; `None` except for TCP and UDP.
    pub fn destination_port(self) -> Option<u16>
        ensures { result ≡ destination_port_of self }
    {
        match self {
            Self::Tcp { destination, .. } | Self::Udp { destination, .. } => Some(destination),
            Self::Icmp { .. } | Self::Other => None,
        }
    }

    /// The TCP flags, FIN the least significant bit; `None` for other protocols.
    pub fn tcp_flags(self) -> Option<u8>
        ensures { result ≡ tcp_flags_of self }
    {
        match self {
            Self::Tcp { flags, .. } => Some(flags),
            _ => None,
        }
    }

    /// The type of an ICMP message; `None` for other protocols.
    pub fn icmp_type(self) -> Option<u8>
        ensures { result ≡ icmp_type_of self }
    {
        match self {
            Self::Icmp { icmp_type } => Some(icmp_type),
            _ => None,
        }
    }
}

/// Whether a payload is too short for its protocol, or its length field or data offset doesn't fit
/// it.
#[inline(always)]
pub(crate) fn is_malformed(protocol: u8, payload: &[u8]) -> bool
    ensures { result ≡ transport_is_malformed protocol payload.now }
{
    match protocol {
        TCP => tcp_is_malformed(payload),
        UDP => udp_is_malformed(payload),
        ICMP => payload.len() < 8,
        _ => false,
    }
}

fn tcp_is_malformed(payload: &[u8]) -> bool
    ensures { result ≡ tcp_is_malformed payload.now }
{
    if payload.len() < 20 {
        return true;
    }
    // The data offset counts 32-bit words.
    let offset = (payload[12] / 16) as usize;
    offset < 5 || payload.len() < offset * 4
}

fn udp_is_malformed(payload: &[u8]) -> bool
    ensures { result ≡ udp_is_malformed payload.now }
{
    if payload.len() < 8 {
        return true;
    }
    let length = u16_at(payload, 4) as usize;
    length < 8 || payload.len() < length
}

/// Parses a payload that passed the tests.
pub(crate) fn read(protocol: u8, payload: &[u8]) -> Transport
    requires { transport_is_malformed protocol payload.now ≡ false }
    ensures { result ≡ transport_in protocol payload.now }
{
    match protocol {
        TCP => Transport::Tcp {
            source: u16_at(payload, 0),
            destination: u16_at(payload, 2),
            flags: payload[13],
        },
        UDP => Transport::Udp {
            source: u16_at(payload, 0),
            destination: u16_at(payload, 2),
        },
        ICMP => Transport::Icmp {
            icmp_type: payload[0],
        },
        _ => Transport::Other,
    }
}
