//! The lines about a capture.
use crate::tally::Tally;
use box_file::Plant;
use pcap_io::{Capture, Counted};
use std::alloc::{AllocError, Global};
use std::io::Read;

/// The most records that are read.
const MOST_RECORDS: u64 = 1_000_000;

/// The most interfaces that are listed.
const MOST_LISTED: usize = 5;

/// One line for each thing in a capture that a run takes otherwise than the box did: packets that
/// the box itself sent, interfaces that the box file lacks, IPv6. `path` begins each line.
///
/// At most 1,000,000 records are read. A capture that can't be read has no lines.
///
/// # Errors
/// `AllocError` for want of memory.
pub fn remarks<R: Read + Drop>(
    alloc: Global,
    path: &str,
    reader: R,
    network: &Plant,
) -> Result<String, AllocError> {
    let mut tally = Tally::new(alloc);
    tally.read(alloc, reader, network)?;
    let mut lines = String::new(alloc);
    tally.write_to(path, &mut lines)?;
    Ok(lines)
}

/// Begins a line about so many records.
fn begin(path: &str, count: u64, lines: &mut String) -> Result<(), AllocError> {
    let word = if count == 1 { "record" } else { "records" };
    write!(lines, "{path}: {count} {word} of ")
}

impl Tally {
    /// Counts the first records of a capture.
    fn read<R: Read + Drop>(
        &mut self,
        alloc: Global,
        reader: R,
        network: &Plant,
    ) -> Result<(), AllocError> {
        let mut reader = Counted::new(reader);
        let Ok(mut capture) = Capture::open(alloc, &mut reader) else {
            return Ok(());
        };
        self.read_records(&mut capture, &mut reader, network)
    }

    fn read_records<R: Read>(
        &mut self,
        capture: &mut Capture,
        reader: &mut Counted<R>,
        network: &Plant,
    ) -> Result<(), AllocError> {
        for _ in 0..MOST_RECORDS {
            let Ok(true) = capture.next(reader) else {
                break;
            };
            if let Some(record) = capture.record() {
                self.note(&record, network)?;
            }
        }
        Ok(())
    }

    /// Writes a line for each count that isn't 0.
    fn write_to(&self, path: &str, lines: &mut String) -> Result<(), AllocError> {
        if self.own_sources > 0 {
            begin(path, self.own_sources, lines)?;
            writeln!(
                lines,
                "{} from the box's own addresses: what it sent is replayed as if it came in; capture \
                 with tcpdump -Q in",
                self.records
            )?;
        }
        if self.of_missing > 0 {
            begin(path, self.of_missing, lines)?;
            self.write_interfaces(lines)?;
        }
        if self.ipv6 > 0 {
            begin(path, self.ipv6, lines)?;
            self.write_share(lines)?;
        }
        Ok(())
    }

    /// Writes the first interfaces that the box file lacks, each with its number of records.
    fn write_interfaces(&self, lines: &mut String) -> Result<(), AllocError> {
        let listed = self.missing.len().min(MOST_LISTED);
        let mut between = "interfaces that the box file lacks (";
        for missing in &self.missing[..listed] {
            write!(
                lines,
                "{between}index {}: {}",
                missing.index, missing.records
            )?;
            between = ", ";
        }
        if listed < self.missing.len() {
            lines.push_str(", ..")?;
        }
        lines.push_str("): dropped for `interface`\n")
    }

    /// Writes how much of all records is IPv6.
    fn write_share(&self, lines: &mut String) -> Result<(), AllocError> {
        let tenths = self.ipv6.saturating_mul(1000) / self.records.max(1);
        let whole = tenths / 10;
        let rest = tenths % 10;
        writeln!(lines, "IPv6, {whole}.{rest} % of all: no rule sees them")
    }
}
