//! Locates the fault of a capture.
use crate::header_advice::{HeaderAdvice, Noted, header_advice};
use pcap_io::{Capture, CaptureError, Counted};
use std::alloc::Global;
use std::fmt;
use std::io::Read;

/// The sizes of the file header and of a record's header (pcap-savefile(5)).
const HEADER_BYTES: u64 = 24;

const RECORD_HEADER_BYTES: u64 = 16;

/// Where reading a capture stops.
#[derive(Clone, Copy)]
pub enum CaptureLocation {
    /// The file's header, and what to do about it, where that is known.
    Header(Option<HeaderAdvice>),
    /// A record by its number, from 1, and the offset in bytes at which it begins, from 0.
    Record { number: u64, offset: u64 },
}

impl fmt::Display for CaptureLocation {
    fn fmt<W: fmt::Write>(&self, f: &mut fmt::Formatter<W>) -> fmt::Result {
        match self {
            CaptureLocation::Header(None) => f.write_str("the header of the file"),
            CaptureLocation::Header(Some(advice)) => {
                write!(f, "the header of the file\n{advice}")
            }
            CaptureLocation::Record { number, offset } => {
                write!(f, "record {number}, from byte {offset} on")
            }
        }
    }
}

/// Where a capture is refused, or ends inside a record. The capture is read up to there. None where
/// it is accepted, or a read fails.
///
/// The location is a heuristic: no contract says which one is reported.
pub fn capture_location<R: Read + Drop>(alloc: Global, reader: R) -> Option<CaptureLocation> {
    let mut reader = Counted::new(Noted::new(reader));
    match Capture::open(alloc, &mut reader) {
        Ok(capture) => record_location(capture, &mut reader),
        Err(CaptureError::Refused(fault)) => {
            let advice = header_advice(fault, &reader.into_inner());
            Some(CaptureLocation::Header(advice))
        }
        Err(_) => None,
    }
}

/// The record at which reading stops.
fn record_location<R: Read + Drop>(
    mut capture: Capture,
    reader: &mut Counted<R>,
) -> Option<CaptureLocation> {
    let mut offset = HEADER_BYTES;
    for before in 0..u64::MAX {
        match capture.next(reader) {
            Ok(true) => offset = offset.saturating_add(length_of(&capture)),
            Err(CaptureError::Refused(_)) => {
                return Some(CaptureLocation::Record {
                    number: before + 1,
                    offset,
                });
            }
            _ => return None,
        }
    }
    None
}

/// The size in the file of the record that was read last.
fn length_of(capture: &Capture) -> u64 {
    match capture.record() {
        Some(record) => RECORD_HEADER_BYTES.saturating_add(record.bytes.len() as u64),
        None => 0,
    }
}
