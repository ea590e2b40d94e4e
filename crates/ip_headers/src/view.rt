//! IPv4 packets, read in place.
ghost use Rattle.std.specs.Prelude.{◌≤◌, length, ◌≡◌, None, take, IfOk};
ghost use Rattle.std.specs.Result.{result_err as err_of};
ghost use Rattle.ip_headers.specs.Header.{fault_of, packet_of, payload_of, header_len, total_len, protocol, source, destination, transport_of, ttl};
ghost use Rattle.ip_headers.specs.Tuple.{inner_tuple_of, is_error, tuple_of};
ghost use Rattle.ip_headers.specs.steps.Decoding.{decoded_of};
ghost use Rattle.ip_headers.specs.steps.Ports.{kind_and_ports};

use crate::bytes::{u16_at, u32_at};
use crate::sum::header_sum;
use crate::transport::{self, Transport};
use crate::tuple::{self, Endpoint, Kind, Tuple};
use std::fmt;
use thiserror::Error;

/// Why a record has no valid packet: the first test that fails (RFC 791, section 3.1; for the last
/// one see there).
#[derive(Clone, Copy, Debug, PartialEq, Error)]
pub enum HeaderFault {
    /// Fewer than 20 bytes.
    Short,
    /// The version isn't 4.
    Version,
    /// IHL is below 5.
    HeaderLength,
    /// The total length is below four times IHL.
    Length,
    /// Fewer bytes than the total length says.
    Truncated,
    /// The ones' complement sum of the header's words isn't ffff.
    Checksum,
    /// MF is set, or the offset isn't 0.
    Fragment,
    /// The payload is too short for TCP, UDP or ICMP, or its data offset or length field is too
    /// small or beyond the end (RFC 9293, section 3.1; RFC 768; RFC 792).
    Transport,
}

impl HeaderFault {
    ghost use Rattle.std.specs.Prelude.{◌≡◌};
    ghost use Rattle.ip_headers.specs.Words.{word_of};

    /// The word for it, as in a report.
    pub fn word(self) -> &'static str
        ensures { result.now ≡ word_of self }
    {
        match self {
            Self::Short => "short",
            Self::Version => "version",
            Self::HeaderLength => "hlen",
            Self::Length => "length",
            Self::Truncated => "truncated",
            Self::Checksum => "checksum",
            Self::Fragment => "fragment",
            Self::Transport => "transport",
        }
    }
}

/// Writes the word.
impl fmt::Display for HeaderFault {
    ghost use Rattle.std.specs.Prelude.{Some};
    ghost use Rattle.ip_headers.specs.Words.{word_of};

    ghost output = { λ fault. Some (word_of fault) };

    fn fmt<W: fmt::Write>(&self, f: &mut fmt::Formatter<W>) -> fmt::Result {
        f.write_str(self.word())
    }
}

/// The header fields that are asked for, each decoded once.
#[derive(Clone, Copy)]
struct Decoded {
    source: u32,
    destination: u32,
    ttl: u8,
    protocol: u8,
    transport: Transport,
}

impl Decoded {
    /// Those of a packet that passed the tests, given its payload.
    #[inline(always)]
    fn read(packet: &[u8], payload: &[u8]) -> Self
        requires whole { fault_of packet.now ≡ None }
        requires tail { payload.now ≡ payload_of packet.now }
        ensures { result ≡ decoded_of packet.now }
    {
        Decoded {
            source: u32_at(packet, 12),
            destination: u32_at(packet, 16),
            ttl: packet[8],
            protocol: packet[9],
            transport: transport::read(packet[9], payload),
        }
    }
}

/// A valid packet: its parts, which borrow the record. Bytes past the total length are left out.
#[derive(Clone, Copy)]
pub struct View<'a> {
    /// The header and the payload, as long as the total length says.
    pub packet: &'a [u8],
    /// The header with its options: four times IHL bytes.
    pub header: &'a [u8],
    /// The bytes after the header.
    pub payload: &'a [u8],
    decoded: Decoded,
    pub ghost whole: { fault_of packet.now ≡ None },
    pub ghost head: { header.now ≡ take (header_len packet.now) packet.now },
    pub ghost tail: { payload.now ≡ payload_of packet.now },
    pub ghost exact: { length packet.now ≡ total_len packet.now },
    pub ghost small: { length packet.now ≤ 65535 },
    ghost fields: { decoded ≡ decoded_of packet.now },
}

impl<'a> View<'a> {
    /// The packet at the front of a record.
    ///
    /// # Errors
    ///
    /// The first test that fails, in the order of [`HeaderFault`].
    pub fn read(bytes: &'a [u8]) -> Result<View<'a>, HeaderFault>
        ensures fault { err_of result ≡ fault_of bytes.entry.now }
        ensures packet { IfOk result (λ view. view.packet.now ≡ packet_of bytes.entry.now) }
    {
        if bytes.len() < 20 {
            return Err(HeaderFault::Short);
        }
        if bytes[0] / 16 != 4 {
            return Err(HeaderFault::Version);
        }
        // IHL counts 32-bit words.
        let header_len = (bytes[0] % 16) as usize * 4;
        if header_len < 20 {
            return Err(HeaderFault::HeaderLength);
        }
        let total_len = u16_at(bytes, 2) as usize;
        if total_len < header_len {
            return Err(HeaderFault::Length);
        }
        if bytes.len() < total_len {
            return Err(HeaderFault::Truncated);
        }
        let packet = &bytes[..total_len];
        let (header, payload) = packet.split_at(header_len);
        if header_sum(header) != 0xffff {
            return Err(HeaderFault::Checksum);
        }
        // MF and the fragment offset: all but the reserved bit and DF.
        if u16_at(bytes, 6) % 16384 != 0 {
            return Err(HeaderFault::Fragment);
        }
        if transport::is_malformed(bytes[9], payload) {
            return Err(HeaderFault::Transport);
        }
        Ok(View {
            packet,
            header,
            payload,
            decoded: Decoded::read(packet, payload),
        })
    }

    /// The source address in host byte order: the first octet is the most significant byte.
    pub fn source(&self) -> u32
        ensures { result ≡ source self.now.packet.now }
    {
        self.decoded.source
    }

    /// The destination address in host byte order.
    pub fn destination(&self) -> u32
        ensures { result ≡ destination self.now.packet.now }
    {
        self.decoded.destination
    }

    /// The time to live.
    pub fn ttl(&self) -> u8
        ensures { result ≡ ttl self.now.packet.now }
    {
        self.decoded.ttl
    }

    /// The protocol number (IANA).
    pub fn protocol(&self) -> u8
        ensures { result ≡ protocol self.now.packet.now }
    {
        self.decoded.protocol
    }

    /// The length of the packet in bytes, with its header.
    pub fn total_length(&self) -> u16
        ensures { result ≡ total_len self.now.packet.now }
    {
        self.packet.len() as u16
    }

    /// The transport header.
    pub fn transport(&self) -> Transport
        ensures { result ≡ transport_of self.now.packet.now }
    {
        self.decoded.transport
    }

    /// The packet's tuple; `None` for ICMP messages other than echo request and echo reply.
    pub fn tuple(&self) -> Option<Tuple>
        ensures { result ≡ tuple_of self.now.packet.now }
    {
        let (kind, from, to) = self.kind_and_ports()?;
        Some(Tuple {
            kind,
            source: Endpoint {
                address: self.source(),
                port: from,
            },
            destination: Endpoint {
                address: self.destination(),
                port: to,
            },
        })
    }

    /// The packet's kind, source port and destination port.
    fn kind_and_ports(&self) -> Option<(Kind, u16, u16)>
        ensures { result ≡ kind_and_ports (protocol self.now.packet.now) self.now.payload.now }
    {
        match self.decoded.transport {
            Transport::Tcp {
                source,
                destination,
                ..
            } => Some((Kind::Tcp, source, destination)),
            Transport::Udp {
                source,
                destination,
            } => Some((Kind::Udp, source, destination)),
            Transport::Icmp { .. } => tuple::query_kind_and_ports(self.payload),
            Transport::Other => Some((Kind::Other(self.decoded.protocol), 0, 0)),
        }
    }

    /// Whether the packet is an ICMP error: type 3, 4, 5, 11 or 12.
    pub fn is_error(&self) -> bool
        ensures { result ≡ is_error self.now.packet.now }
    {
        self.protocol() == transport::ICMP && tuple::is_error_type(self.payload[0])
    }

    /// The tuple of the datagram that an ICMP error quotes. `None` where the packet is no ICMP
    /// error, where the quoted datagram can't be translated (version 4, a header of at least 20
    /// bytes, fragment offset 0 and 8 bytes past the header are needed), and where it has no tuple.
    pub fn inner_tuple(&self) -> Option<Tuple>
        ensures { result ≡ inner_tuple_of self.now.packet.now }
    {
        if !self.is_error() {
            return None;
        }
        tuple::inner_tuple(&self.payload[8..])
    }
}
