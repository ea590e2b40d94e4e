//! The headers before a packet in the capture that is written.
ghost use Rattle.std.specs.Prelude.{◌≡◌, ◌≤◌, ◌+◌, ◌++◌, length, take};
ghost use Rattle.pcap_io.specs.Sll2.{IsSent, sent, sll2_record};

use crate::format::{NANOSECONDS_IN_SECOND, RECORD_HEADER_BYTES};
use crate::sink::Leaving;
use byteorder::{BigEndian, ByteOrder, LittleEndian};

/// The length of an SLL2 header, in bytes.
const LINK_HEADER_BYTES: usize = 20;

/// The length of a record's header and an SLL2 header, in bytes.
pub const HEADERS_BYTES: usize = RECORD_HEADER_BYTES + LINK_HEADER_BYTES;

/// Protocol 0x0800 (IPv4), and two reserved bytes.
const PROTOCOL: u32 = 0x0800_0000;

/// ARPHRD_ETHER (1), packet type 4 (sent by this host), address length 0.
const SENT_BY_HOST: u32 = 0x0001_0400;

/// Puts a record's header and its link header, which precede the packet, at an offset.
#[inline(always)]
pub fn put_headers(bytes: &mut [u8], at: usize, leaving: &Leaving)
    requires sent { IsSent (sent leaving.now) }
    requires room { at + 36 ≤ length bytes.old }
    ensures bytes { take (at + 36) bytes.new ++ leaving.now.packet.now
        ≡ take at bytes.old ++ sll2_record (sent leaving.now) }
    ensures length { length bytes.new ≡ length bytes.old }
{
    let length = (LINK_HEADER_BYTES + leaving.packet.len()) as u32;
    let seconds = (leaving.moment / NANOSECONDS_IN_SECOND) as u32;
    let nanoseconds = (leaving.moment % NANOSECONDS_IN_SECOND) as u32;
    put_u32::<LittleEndian>(bytes, at, seconds);
    put_u32::<LittleEndian>(bytes, at + 4, nanoseconds);
    put_u32::<LittleEndian>(bytes, at + 8, length);
    put_u32::<LittleEndian>(bytes, at + 12, length);
    put_u32::<BigEndian>(bytes, at + 16, PROTOCOL);
    put_u32::<BigEndian>(bytes, at + 20, leaving.interface);
    put_u32::<BigEndian>(bytes, at + 24, SENT_BY_HOST);
    // No link-layer address.
    put_u32::<BigEndian>(bytes, at + 28, 0);
    put_u32::<BigEndian>(bytes, at + 32, 0);
}

/// Puts a number at an offset.
#[inline(always)]
fn put_u32<B: ByteOrder>(bytes: &mut [u8], at: usize, number: u32)
    requires { at + 4 ≤ length bytes.old }
    ensures bytes { take (at + 4) bytes.new ≡ take at bytes.old ++ B.bytes_of 4 number }
    ensures length { length bytes.new ≡ length bytes.old }
{
    B::write_u32(&mut bytes[at..], number);
}
