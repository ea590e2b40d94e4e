//! Counts the records of a capture that a run takes otherwise than the box did.
use box_file::Plant;
use byteorder::{BigEndian, ByteOrder};
use pcap_io::{LinkType, Record};
use std::alloc::{AllocError, Global};

/// The bytes of an IPv4 header without options (RFC 791, section 3.1).
const IPV4_HEADER_BYTES: usize = 20;

/// Where the source address is in it.
const SOURCE_OFFSET: usize = 12;

/// The EtherType of IPv6 (RFC 2464, section 3).
const ETHERTYPE_IPV6: u16 = 0x86dd;

/// The most interfaces that are counted apart.
const MOST_INTERFACES: usize = 64;

/// The records of an interface that the box file lacks.
#[derive(Clone, Copy)]
pub(crate) struct MissingInterface {
    pub index: u32,
    pub records: u64,
}

/// The counts of the records so far.
#[derive(Drop)]
pub(crate) struct Tally {
    pub records: u64,
    /// Packets that come in with an address of the box's own as their source.
    pub own_sources: u64,
    pub ipv6: u64,
    /// Records of interfaces that the box file lacks: all, and by interface in the order in which
    /// they were seen.
    pub of_missing: u64,
    pub missing: Vec<MissingInterface>,
}

impl Tally {
    pub(crate) fn new(alloc: Global) -> Tally {
        Tally {
            records: 0,
            own_sources: 0,
            ipv6: 0,
            of_missing: 0,
            missing: Vec::new(alloc),
        }
    }

    /// Counts a record.
    pub(crate) fn note(&mut self, record: &Record<'_>, network: &Plant) -> Result<(), AllocError> {
        self.records = self.records.saturating_add(1);
        if is_ipv6(record) {
            self.ipv6 = self.ipv6.saturating_add(1);
        }
        let Ok(link) = record.link() else {
            return Ok(());
        };
        if let Some(index) = link.interface
            && network.name(index).is_none()
        {
            return self.note_missing(index);
        }
        if let Some(source) = source_of(&record.bytes[link.packet..])
            && network.is_own(source)
        {
            self.own_sources = self.own_sources.saturating_add(1);
        }
        Ok(())
    }

    fn note_missing(&mut self, index: u32) -> Result<(), AllocError> {
        self.of_missing = self.of_missing.saturating_add(1);
        for missing in self.missing.iter_mut() {
            if missing.index == index {
                missing.records = missing.records.saturating_add(1);
                return Ok(());
            }
        }
        if self.missing.len() < MOST_INTERFACES {
            self.missing.push(MissingInterface { index, records: 1 })?;
        }
        Ok(())
    }
}

/// Whether a record has an IPv6 packet.
fn is_ipv6(record: &Record<'_>) -> bool {
    let bytes = record.bytes;
    let protocol = match record.link_type {
        LinkType::Ethernet => 12,
        LinkType::Sll2 => 0,
        LinkType::Raw => return !bytes.is_empty() && bytes[0] / 16 == 6,
    };
    bytes.len() >= protocol + 2 && BigEndian::read_u16(&bytes[protocol..]) == ETHERTYPE_IPV6
}

/// The source address of an IPv4 packet.
pub(crate) fn source_of(packet: &[u8]) -> Option<u32> {
    if packet.len() < IPV4_HEADER_BYTES || packet[0] / 16 != 4 {
        return None;
    }
    Some(BigEndian::read_u32(&packet[SOURCE_OFFSET..]))
}
