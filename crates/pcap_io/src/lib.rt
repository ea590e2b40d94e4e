//! Packet captures in the pcap file format (draft-ietf-opsawg-pcap), read and written over any
//! reader and writer, whose failed calls are counted.
#![tactic(auto)]

mod capture;
mod fault;
mod format;
mod laws;
mod link;
mod read_buffer;
mod record_headers;
mod sink;
mod write_buffer;

pub use capture::{Capture, Record};
pub use devices::{Counted, DeviceFailed, Failing, Failures, Slow, failure_shows, write_whole};
pub use fault::{CaptureError, CaptureFault};
pub use format::LinkType;
pub use laws::{header_alone, one_reading, some_reading};
pub use link::{Link, LinkCause};
pub use sink::{Leaving, Sink, SinkError};
