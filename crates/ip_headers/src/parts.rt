//! Writable fields of a packet.
ghost use Rattle.std.specs.Prelude.{◌≡◌, ◌+◌, ◌<◌, ◌≤◌, length, slice_set};
ghost use Rattle.ip_headers.specs.Bytes.{with_u32, with_u16};
ghost use Rattle.ip_headers.specs.Header.{payload_at};

use byteorder::{BigEndian, ByteOrder};

/// The fields of a datagram, borrowed for writing. A call changes the bytes of its field and no
/// others.
///
/// The datagram may begin at any offset of the bytes; at 0 it is the packet itself. No call updates
/// a checksum for the others.
#[derive(Drop)]
pub struct PartsMut<'a> {
    packet: &'a mut [u8],
    // The offsets of the datagram and of its payload.
    start: usize,
    payload: usize,
}

impl<'a> PartsMut<'a> {
    /// The fields of the datagram that begins at `start`. The offset of its payload is read from
    /// its IHL here, once.
    pub fn new(packet: &'a mut [u8], start: usize) -> PartsMut<'a>
        requires { start < length packet.old }
        ensures same_reference { result.packet.ghost_name ≡ packet.entry.ghost_name }
        ensures bytes { result.packet.now ≡ packet.old }
        ensures start { result.start ≡ start }
        ensures payload { result.payload ≡ payload_at start packet.old }
    {
        // IHL counts 32-bit words.
        let payload = start + (packet[start] % 16) as usize * 4;
        PartsMut {
            packet,
            start,
            payload,
        }
    }

    /// Writes the time to live.
    pub fn set_ttl(&mut self, ttl: u8)
        requires { self.old.start + 9 ≤ length self.old.packet.now }
        ensures same_reference { self.new.packet.ghost_name ≡ self.old.packet.ghost_name }
        ensures bytes { self.new.packet.now
            ≡ slice_set self.old.packet.now (self.old.start + 8) ttl }
        ensures start { self.new.start ≡ self.old.start }
        ensures payload { self.new.payload ≡ self.old.payload }
    {
        self.packet[self.start + 8] = ttl;
    }

    /// Writes the header checksum.
    pub fn set_header_checksum(&mut self, checksum: u16)
        requires { self.old.start + 12 ≤ length self.old.packet.now }
        ensures same_reference { self.new.packet.ghost_name ≡ self.old.packet.ghost_name }
        ensures bytes { self.new.packet.now
            ≡ with_u16 self.old.packet.now (self.old.start + 10) checksum }
        ensures start { self.new.start ≡ self.old.start }
        ensures payload { self.new.payload ≡ self.old.payload }
    {
        write_u16(self.packet, self.start + 10, checksum);
    }

    /// Writes the source address.
    pub fn set_source(&mut self, address: u32)
        requires { self.old.start + 16 ≤ length self.old.packet.now }
        ensures same_reference { self.new.packet.ghost_name ≡ self.old.packet.ghost_name }
        ensures bytes { self.new.packet.now
            ≡ with_u32 self.old.packet.now (self.old.start + 12) address }
        ensures start { self.new.start ≡ self.old.start }
        ensures payload { self.new.payload ≡ self.old.payload }
    {
        write_u32(self.packet, self.start + 12, address);
    }

    /// Writes the destination address.
    pub fn set_destination(&mut self, address: u32)
        requires { self.old.start + 20 ≤ length self.old.packet.now }
        ensures same_reference { self.new.packet.ghost_name ≡ self.old.packet.ghost_name }
        ensures bytes { self.new.packet.now
            ≡ with_u32 self.old.packet.now (self.old.start + 16) address }
        ensures start { self.new.start ≡ self.old.start }
        ensures payload { self.new.payload ≡ self.old.payload }
    {
        write_u32(self.packet, self.start + 16, address);
    }

    /// Writes the source port of TCP or UDP.
    pub fn set_source_port(&mut self, port: u16)
        requires { self.old.payload + 2 ≤ length self.old.packet.now }
        ensures same_reference { self.new.packet.ghost_name ≡ self.old.packet.ghost_name }
        ensures bytes { self.new.packet.now ≡ with_u16 self.old.packet.now self.old.payload port }
        ensures start { self.new.start ≡ self.old.start }
        ensures payload { self.new.payload ≡ self.old.payload }
    {
        write_u16(self.packet, self.payload, port);
    }

    /// Writes the destination port of TCP or UDP.
    pub fn set_destination_port(&mut self, port: u16)
        requires { self.old.payload + 4 ≤ length self.old.packet.now }
        ensures same_reference { self.new.packet.ghost_name ≡ self.old.packet.ghost_name }
        ensures bytes { self.new.packet.now
            ≡ with_u16 self.old.packet.now (self.old.payload + 2) port }
        ensures start { self.new.start ≡ self.old.start }
        ensures payload { self.new.payload ≡ self.old.payload }
    {
        write_u16(self.packet, self.payload + 2, port);
    }

    /// Writes the identifier of an ICMP query.
    pub fn set_identifier(&mut self, identifier: u16)
        requires { self.old.payload + 6 ≤ length self.old.packet.now }
        ensures same_reference { self.new.packet.ghost_name ≡ self.old.packet.ghost_name }
        ensures bytes { self.new.packet.now
            ≡ with_u16 self.old.packet.now (self.old.payload + 4) identifier }
        ensures start { self.new.start ≡ self.old.start }
        ensures payload { self.new.payload ≡ self.old.payload }
    {
        write_u16(self.packet, self.payload + 4, identifier);
    }

    /// Writes the checksum of a TCP segment.
    pub fn set_tcp_checksum(&mut self, checksum: u16)
        requires { self.old.payload + 18 ≤ length self.old.packet.now }
        ensures same_reference { self.new.packet.ghost_name ≡ self.old.packet.ghost_name }
        ensures bytes { self.new.packet.now
            ≡ with_u16 self.old.packet.now (self.old.payload + 16) checksum }
        ensures start { self.new.start ≡ self.old.start }
        ensures payload { self.new.payload ≡ self.old.payload }
    {
        write_u16(self.packet, self.payload + 16, checksum);
    }

    /// Writes the checksum of a UDP datagram.
    pub fn set_udp_checksum(&mut self, checksum: u16)
        requires { self.old.payload + 8 ≤ length self.old.packet.now }
        ensures same_reference { self.new.packet.ghost_name ≡ self.old.packet.ghost_name }
        ensures bytes { self.new.packet.now
            ≡ with_u16 self.old.packet.now (self.old.payload + 6) checksum }
        ensures start { self.new.start ≡ self.old.start }
        ensures payload { self.new.payload ≡ self.old.payload }
    {
        write_u16(self.packet, self.payload + 6, checksum);
    }

    /// Writes the checksum of an ICMP message.
    pub fn set_icmp_checksum(&mut self, checksum: u16)
        requires { self.old.payload + 4 ≤ length self.old.packet.now }
        ensures same_reference { self.new.packet.ghost_name ≡ self.old.packet.ghost_name }
        ensures bytes { self.new.packet.now
            ≡ with_u16 self.old.packet.now (self.old.payload + 2) checksum }
        ensures start { self.new.start ≡ self.old.start }
        ensures payload { self.new.payload ≡ self.old.payload }
    {
        write_u16(self.packet, self.payload + 2, checksum);
    }
}

// Writes 16 bits in network byte order.
fn write_u16(bytes: &mut [u8], offset: usize, word: u16)
    requires { offset + 2 ≤ length bytes.old }
    ensures { bytes.new ≡ with_u16 bytes.old offset word }
{
    BigEndian::write_u16(&mut bytes[offset..], word);
}

// Writes 32 bits in network byte order.
fn write_u32(bytes: &mut [u8], offset: usize, number: u32)
    requires { offset + 4 ≤ length bytes.old }
    ensures { bytes.new ≡ with_u32 bytes.old offset number }
{
    BigEndian::write_u32(&mut bytes[offset..], number);
}
