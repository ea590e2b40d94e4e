//! The fields of a datagram that a change may replace.
ghost use Rattle.std.specs.Prelude.{◌≡◌, ◌+◌, ◌<◌, ◌≤◌, ℕ, drop, length, slice_index};
ghost use Rattle.ip_headers.specs.Header.{payload_at, header_len, protocol};
ghost use Rattle.rewrite.specs.steps.Fields.{keeps_endpoints, keeps_numbers, transport_fields_of};
ghost use Rattle.rewrite.specs.steps.Fields.{transport_words, changed_transport_fields, changed_fields, fields_at};
ghost use Rattle.rewrite.specs.steps.Fields.{fields_change, identifier_named, len_of, port_change, ports_named};
ghost use Rattle.rewrite.specs.steps.Fields.{tcp_checksum_of, with_fields, with_ttl_field, HasFields};

use crate::change::{Change, PortsOrIdentifier};
use crate::checksum::ChecksumDelta;
use byteorder::{BigEndian, ByteOrder};
use ip_headers::{PartsMut, Transport, View};

/// The fields of a datagram that a change may replace, and the checksums over them.
#[derive(Clone, Copy)]
pub(crate) struct Fields {
    pub source: u32,
    pub destination: u32,
    pub ttl: u8,
    /// The header checksum.
    pub checksum: u16,
    pub transport: TransportFields,
}

/// The fields of a datagram's payload.
#[derive(Clone, Copy)]
pub(crate) enum TransportFields {
    /// A quoted segment may end before its checksum.
    Tcp {
        from: u16,
        to: u16,
        checksum: Option<u16>,
    },
    Udp {
        from: u16,
        to: u16,
        checksum: u16,
    },
    /// ICMP echo request and echo reply.
    Echo {
        identifier: u16,
        checksum: u16,
    },
    /// Nothing that a change may replace: other ICMP messages too.
    Other,
}

impl Fields {
    /// The fields of a packet: its view has all decoded but the checksums.
    #[inline(always)]
    pub(crate) fn of(view: &View, packet: &[u8]) -> Fields
        requires same { packet.now ≡ view.now.packet.now }
        requires room { HasFields 0 view.now.packet.now }
        ensures fields { result ≡ fields_at 0 view.now.packet.now }
        ensures bytes { (i : ℕ) → slice_index packet.now i < 256 }
    {
        Fields {
            source: view.source(),
            destination: view.destination(),
            ttl: view.ttl(),
            checksum: BigEndian::read_u16(&packet[10..]),
            transport: TransportFields::of(view),
        }
    }

    /// Reads the fields of the datagram that begins at `start`.
    #[inline(always)]
    pub(crate) fn read(packet: &[u8], start: usize) -> Fields
        requires { HasFields start packet.now }
        ensures fields { result ≡ fields_at start packet.now }
        ensures bytes { (i : ℕ) → slice_index packet.now i < 256 }
    {
        // IHL counts 32-bit words.
        let payload = start + (packet[start] % 16) as usize * 4;
        Fields {
            source: BigEndian::read_u32(&packet[start + 12..]),
            destination: BigEndian::read_u32(&packet[start + 16..]),
            ttl: packet[start + 8],
            checksum: BigEndian::read_u16(&packet[start + 10..]),
            transport: TransportFields::read(packet[start + 9], &packet[payload..]),
        }
    }

    /// The fields after a change, with updated checksums.
    #[inline(always)]
    pub(crate) fn changed(&self, change: &Change) -> Fields
        ensures { result ≡ changed_fields change.now self.now }
    {
        let source = change.source.unwrap_or(self.source);
        let destination = change.destination.unwrap_or(self.destination);
        let ttl = change.ttl.unwrap_or(self.ttl);
        let addresses = ChecksumDelta::number(self.source, source).and(ChecksumDelta::number(
            self.destination,
            destination,
        ));
        // The TTL is the high byte of its word.
        let header = addresses.and(ChecksumDelta::word(self.ttl as u16 * 256, ttl as u16 * 256));
        Fields {
            source,
            destination,
            ttl,
            checksum: header.update(self.checksum),
            transport: self.transport.changed(change.numbers, addresses),
        }
    }

    /// Whether a change leaves addresses, ports and identifier as they are.
    #[inline(always)]
    pub(crate) fn keeps_endpoints(&self, change: &Change) -> bool
        ensures { result ≡ keeps_endpoints change.now self.now }
    {
        change.source.unwrap_or(self.source) == self.source
            && change.destination.unwrap_or(self.destination) == self.destination
            && self.transport.keeps_numbers(change.numbers)
    }

    /// Writes another TTL, or the same, into the datagram that begins at `start`, and updates the
    /// header checksum.
    #[inline(always)]
    pub(crate) fn write_ttl(&self, packet: &mut [u8], start: usize, ttl: Option<u8>)
        requires { start + 12 ≤ length packet.old }
        ensures { packet.new ≡ with_ttl_field start packet.old self.now ttl }
    {
        let ttl = ttl.unwrap_or(self.ttl);
        // The TTL is the high byte of its word.
        let word = ChecksumDelta::word(self.ttl as u16 * 256, ttl as u16 * 256);
        let mut parts = PartsMut::new(packet, start);
        parts.set_ttl(ttl);
        parts.set_header_checksum(word.update(self.checksum));
    }

    /// The changes of words between these fields and new ones.
    pub(crate) fn words_to(&self, new: &Fields) -> ChecksumDelta
        ensures { result ≡ fields_change self.now new.now }
    {
        let (first, second, checksum) = self.transport.words();
        let (new_first, new_second, new_checksum) = new.transport.words();
        // The TTL is the high byte of its word.
        ChecksumDelta::number(self.source, new.source)
            .and(ChecksumDelta::number(self.destination, new.destination))
            .and(ChecksumDelta::word(self.ttl as u16 * 256, new.ttl as u16 * 256))
            .and(ChecksumDelta::word(first, new_first))
            .and(ChecksumDelta::word(second, new_second))
            .and(ChecksumDelta::word(checksum, new_checksum))
            .and(ChecksumDelta::word(self.checksum, new.checksum))
    }

    /// Writes the fields into the datagram that begins at `start`.
    #[inline(always)]
    pub(crate) fn write(&self, packet: &mut [u8], start: usize)
        requires long { 20 ≤ header_len (drop start packet.old) }
        requires whole { payload_at start packet.old + len_of self.now.transport
            ≤ length packet.old }
        ensures { packet.new ≡ with_fields start packet.old self.now }
    {
        let mut parts = PartsMut::new(packet, start);
        parts.set_source(self.source);
        parts.set_destination(self.destination);
        parts.set_ttl(self.ttl);
        match self.transport {
            TransportFields::Tcp { from, to, checksum } => {
                parts.set_source_port(from);
                parts.set_destination_port(to);
                if let Some(checksum) = checksum {
                    parts.set_tcp_checksum(checksum);
                }
            }
            TransportFields::Udp { from, to, checksum } => {
                parts.set_source_port(from);
                parts.set_destination_port(to);
                parts.set_udp_checksum(checksum);
            }
            TransportFields::Echo {
                identifier,
                checksum,
            } => {
                parts.set_identifier(identifier);
                parts.set_icmp_checksum(checksum);
            }
            TransportFields::Other => {}
        }
        parts.set_header_checksum(self.checksum);
    }
}

impl TransportFields {
    /// The fields of a packet's payload.
    #[inline(always)]
    fn of(view: &View) -> TransportFields
        requires { len_of (transport_fields_of (protocol view.now.packet.now) view.now.payload.now)
            ≤ length view.now.payload.now }
        ensures { result
            ≡ transport_fields_of (protocol view.now.packet.now) view.now.payload.now }
    {
        match view.transport() {
            Transport::Tcp {
                source,
                destination,
                ..
            } => TransportFields::Tcp {
                from: source,
                to: destination,
                checksum: tcp_checksum(view.payload),
            },
            Transport::Udp {
                source,
                destination,
            } => TransportFields::Udp {
                from: source,
                to: destination,
                checksum: BigEndian::read_u16(&view.payload[6..]),
            },
            Transport::Icmp { .. } => TransportFields::read_icmp(view.payload),
            Transport::Other => TransportFields::Other,
        }
    }

    /// Reads the fields of a payload with this protocol number.
    #[inline(always)]
    fn read(protocol: u8, payload: &[u8]) -> TransportFields
        requires { len_of (transport_fields_of protocol payload.now) ≤ length payload.now }
        ensures { result ≡ transport_fields_of protocol payload.now }
    {
        match protocol {
            6 => TransportFields::Tcp {
                from: BigEndian::read_u16(payload),
                to: BigEndian::read_u16(&payload[2..]),
                checksum: tcp_checksum(payload),
            },
            17 => TransportFields::Udp {
                from: BigEndian::read_u16(payload),
                to: BigEndian::read_u16(&payload[2..]),
                checksum: BigEndian::read_u16(&payload[6..]),
            },
            1 => TransportFields::read_icmp(payload),
            _ => TransportFields::Other,
        }
    }

    /// Reads the fields of an ICMP message. Only echo request (8) and echo reply (0) have an
    /// identifier.
    #[inline(always)]
    fn read_icmp(message: &[u8]) -> TransportFields
        requires { len_of (transport_fields_of 1 message.now) ≤ length message.now }
        ensures { result ≡ transport_fields_of 1 message.now }
    {
        match message[0] {
            0 | 8 => TransportFields::Echo {
                identifier: BigEndian::read_u16(&message[4..]),
                checksum: BigEndian::read_u16(&message[2..]),
            },
            _ => TransportFields::Other,
        }
    }

    /// Whether these ports, or this identifier, are the ones that it has.
    #[inline(always)]
    fn keeps_numbers(&self, numbers: Option<PortsOrIdentifier>) -> bool
        ensures { result ≡ keeps_numbers numbers self.now }
    {
        match *self {
            TransportFields::Tcp { from, to, .. } => named_ports(numbers, from, to) == (from, to),
            TransportFields::Udp { from, to, .. } => named_ports(numbers, from, to) == (from, to),
            TransportFields::Echo { identifier, .. } => {
                named_identifier(numbers, identifier) == identifier
            }
            TransportFields::Other => true,
        }
    }

    /// The words of the fields, 0 where there are fewer than three.
    fn words(&self) -> (u16, u16, u16)
        ensures { result ≡ transport_words self.now }
    {
        match *self {
            TransportFields::Tcp { from, to, checksum } => (from, to, checksum.unwrap_or(0)),
            TransportFields::Udp { from, to, checksum } => (from, to, checksum),
            TransportFields::Echo {
                identifier,
                checksum,
            } => (identifier, 0, checksum),
            TransportFields::Other => (0, 0, 0),
        }
    }

    /// The fields after a change of ports or identifier and of the addresses, which TCP and UDP
    /// cover too, in the pseudo header.
    #[inline(always)]
    fn changed(
        &self,
        numbers: Option<PortsOrIdentifier>,
        addresses: ChecksumDelta,
    ) -> TransportFields
        requires old { addresses.old ≤ 262140 }
        requires new { addresses.new ≤ 262140 }
        ensures { result ≡ changed_transport_fields numbers addresses self.now }
    {
        match *self {
            TransportFields::Tcp { from, to, checksum } => {
                let ports = named_ports(numbers, from, to);
                let words = addresses.and(port_words((from, to), ports));
                TransportFields::Tcp {
                    from: ports.0,
                    to: ports.1,
                    checksum: checksum.map(|checksum| words.update(checksum)),
                }
            }
            TransportFields::Udp { from, to, checksum } => {
                let ports = named_ports(numbers, from, to);
                let words = addresses.and(port_words((from, to), ports));
                TransportFields::Udp {
                    from: ports.0,
                    to: ports.1,
                    checksum: words.update_udp(checksum),
                }
            }
            TransportFields::Echo {
                identifier,
                checksum,
            } => {
                let other = named_identifier(numbers, identifier);
                TransportFields::Echo {
                    identifier: other,
                    checksum: ChecksumDelta::word(identifier, other).update(checksum),
                }
            }
            TransportFields::Other => TransportFields::Other,
        }
    }
}

/// The checksum of a TCP segment, if the segment is long enough.
#[inline(always)]
fn tcp_checksum(segment: &[u8]) -> Option<u16>
    ensures { result ≡ tcp_checksum_of segment.now }
{
    if segment.len() < 18 {
        return None;
    }
    Some(BigEndian::read_u16(&segment[16..]))
}

/// The given ports, else these.
#[inline(always)]
fn named_ports(numbers: Option<PortsOrIdentifier>, from: u16, to: u16) -> (u16, u16)
    ensures { result ≡ ports_named numbers from to }
{
    match numbers {
        Some(PortsOrIdentifier::Ports(one, other)) => (one, other),
        _ => (from, to),
    }
}

/// The given identifier, else this one.
#[inline(always)]
fn named_identifier(numbers: Option<PortsOrIdentifier>, identifier: u16) -> u16
    ensures { result ≡ identifier_named numbers identifier }
{
    match numbers {
        Some(PortsOrIdentifier::Identifier(other)) => other,
        _ => identifier,
    }
}

/// The change of two ports.
#[inline(always)]
fn port_words(old: (u16, u16), new: (u16, u16)) -> ChecksumDelta
    ensures { result ≡ port_change old new }
{
    ChecksumDelta::word(old.0, new.0).and(ChecksumDelta::word(old.1, new.1))
}
