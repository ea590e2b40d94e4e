//! The file header: byte order, timestamp resolution and link type.
ghost use Rattle.std.specs.Prelude.{◌≡◌, ◌<◌, ◌≤◌, ◌+◌, ◌*◌, Some, None, length, IfErr, OnOk};
ghost use Rattle.pcap_io.specs.declared.fault.CaptureError.{CaptureError};
ghost use Rattle.pcap_io.specs.CaptureStates.{IsOfHeader};
ghost use Rattle.pcap_io.specs.Pcap as pcap;

use crate::fault::CaptureFault;
use byteorder::{BigEndian, ByteOrder, LittleEndian};

/// The length of the file header, in bytes.
pub const HEADER_BYTES: usize = 24;

/// The length of a record's header, in bytes.
pub const RECORD_HEADER_BYTES: usize = 16;

/// The magic number of a file with timestamps in microseconds.
const MICROSECOND_MAGIC: u32 = 0xa1b2_c3d4;

/// The magic number of a file with timestamps in nanoseconds.
const NANOSECOND_MAGIC: u32 = 0xa1b2_3c4d;

pub const NANOSECONDS_IN_SECOND: u64 = 1_000_000_000;

/// The byte order of the file's numbers.
#[derive(Clone, Copy)]
pub enum Endianness {
    Little,
    Big,
}

/// The unit of a timestamp's sub-second part.
#[derive(Clone, Copy)]
pub enum Resolution {
    Microseconds,
    Nanoseconds,
}

/// The link-layer header of all records (the LINKTYPE_ registry of draft-ietf-opsawg-pcaplinktype).
#[derive(Clone, Copy)]
pub enum LinkType {
    /// LINKTYPE_ETHERNET (1): an Ethernet frame.
    Ethernet,
    /// LINKTYPE_RAW (101): an IP packet without a link-layer header.
    Raw,
    /// LINKTYPE_LINUX_SLL2 (276): a Linux cooked header, which has the interface's index.
    Sll2,
}

/// How the records of a file are encoded.
#[derive(Clone, Copy)]
pub struct Format {
    pub endianness: Endianness,
    pub resolution: Resolution,
    pub link: LinkType,
}

impl Format {
    /// Decodes the file header.
    ///
    /// # Errors
    /// The first of `TornEnd`, `Magic`, `Version` and `LinkType` that applies.
    pub fn read(bytes: &[u8]) -> Result<Format, CaptureFault>
        ensures format { result ≡ pcap.format_of bytes.now }
        ensures long { OnOk result (pcap.HEADER_BYTES ≤ length bytes.now) }
        ensures kinds { IfErr result (λ fault. IsOfHeader (CaptureError.Refused fault)) }
    {
        if bytes.len() < HEADER_BYTES {
            return Err(CaptureFault::TornEnd);
        }
        let Some((endianness, resolution)) = read_encoding(bytes) else {
            return Err(CaptureFault::Magic);
        };
        if endianness.read_u16(bytes, 4) != 2 || endianness.read_u16(bytes, 6) != 4 {
            return Err(CaptureFault::Version);
        }
        let Some(link) = read_link_type(endianness, bytes) else {
            return Err(CaptureFault::LinkType);
        };
        Ok(Format {
            endianness,
            resolution,
            link,
        })
    }
}

/// Byte order and resolution, by the magic number.
fn read_encoding(bytes: &[u8]) -> Option<(Endianness, Resolution)>
    requires { 24 ≤ length bytes.now }
    ensures { result ≡ pcap.encoding_of bytes.now }
{
    if let Some(resolution) = resolution_of(LittleEndian::read_u32(bytes)) {
        return Some((Endianness::Little, resolution));
    }
    let resolution = resolution_of(BigEndian::read_u32(bytes))?;
    Some((Endianness::Big, resolution))
}

/// The resolution of a magic number, if it is one.
fn resolution_of(magic: u32) -> Option<Resolution>
    ensures { result ≡ pcap.resolution_of magic }
{
    match magic {
        MICROSECOND_MAGIC => Some(Resolution::Microseconds),
        NANOSECOND_MAGIC => Some(Resolution::Nanoseconds),
        _ => None,
    }
}

/// The link type, by the low 16 bits of its field: the high ones describe a frame check sequence.
fn read_link_type(endianness: Endianness, bytes: &[u8]) -> Option<LinkType>
    requires { 24 ≤ length bytes.now }
    ensures { result ≡ pcap.link_type_in endianness bytes.now }
{
    match endianness.read_u32(bytes, 20) % 65_536 {
        1 => Some(LinkType::Ethernet),
        101 => Some(LinkType::Raw),
        276 => Some(LinkType::Sll2),
        _ => None,
    }
}

impl Endianness {
    /// The 16-bit number at this offset.
    pub fn read_u16(self, bytes: &[u8], offset: usize) -> u16
        requires { offset + 2 ≤ length bytes.now }
        ensures { result ≡ pcap.number_in self offset 2 bytes.now }
    {
        match self {
            Endianness::Little => LittleEndian::read_u16(&bytes[offset..]),
            Endianness::Big => BigEndian::read_u16(&bytes[offset..]),
        }
    }

    /// The 32-bit number at this offset.
    #[inline(always)]
    pub fn read_u32(self, bytes: &[u8], offset: usize) -> u32
        requires { offset + 4 ≤ length bytes.now }
        ensures { result ≡ pcap.number_in self offset 4 bytes.now }
    {
        match self {
            Endianness::Little => LittleEndian::read_u32(&bytes[offset..]),
            Endianness::Big => BigEndian::read_u32(&bytes[offset..]),
        }
    }
}

impl Resolution {
    /// Units per second.
    #[inline(always)]
    pub fn per_second(self) -> u32
        ensures { result ≡ pcap.per_second self }
    {
        match self {
            Resolution::Microseconds => 1_000_000,
            Resolution::Nanoseconds => 1_000_000_000,
        }
    }

    /// The timestamp in nanoseconds. `fraction` counts units and is less than a second.
    #[inline(always)]
    pub fn moment(self, seconds: u32, fraction: u32) -> u64
        requires { fraction < pcap.per_second self }
        ensures value { result ≡ seconds * 1000000000 + fraction * pcap.nanoseconds self }
        ensures early { result < pcap.MOMENTS_END }
    {
        let nanoseconds = match self {
            Resolution::Microseconds => u64::from(fraction) * 1_000,
            Resolution::Nanoseconds => u64::from(fraction),
        };
        u64::from(seconds) * NANOSECONDS_IN_SECOND + nanoseconds
    }
}
