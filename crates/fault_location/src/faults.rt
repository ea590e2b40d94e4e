//! The faults of a ruleset, of a box file and of a capture.
use box_file::{BoxError, BoxFault, Plant};
use nft_parser::TextFault;
use pcap_io::CaptureFault;
use rule_check::CheckFault;
use std::alloc::{AllocError, Global};

/// A fault of what is read.
#[derive(Clone, Copy)]
pub enum Fault {
    /// Of the ruleset's text.
    Text(TextFault),
    /// Of the ruleset as a whole.
    Check(CheckFault),
    /// Of the box file.
    Box(BoxFault),
    /// Of the capture.
    Capture(CaptureFault),
}

impl Fault {
    /// The fault's code.
    pub fn code(self, alloc: Global) -> Result<String, AllocError> {
        match self {
            Fault::Text(fault) => fault.to_string(alloc),
            Fault::Check(fault) => fault.to_string(alloc),
            Fault::Box(fault) => fault.to_string(alloc),
            Fault::Capture(fault) => fault.to_string(alloc),
        }
    }
}

/// The paths of a ruleset and of a box file, as they are reported.
#[derive(Clone, Copy)]
pub struct SourcePaths<'a> {
    pub rules: &'a str,
    pub network: &'a str,
}

/// A ruleset and a box file, as they were read.
#[derive(Clone, Copy)]
pub struct Sources<'a> {
    pub paths: SourcePaths<'a>,
    pub rules: &'a [u8],
    pub network: &'a [u8],
}

/// A box, where its file is accepted.
pub fn read_box(alloc: Global, text: &[u8]) -> Result<Option<Plant>, AllocError> {
    match Plant::read(alloc, text) {
        Ok(network) => Ok(Some(network)),
        Err(BoxError::Refused(_)) => Ok(None),
        Err(BoxError::Memory) => Err(AllocError),
    }
}

/// The fault of a box file; none where it is accepted.
///
/// # Errors
/// `AllocError` for want of memory.
pub fn box_fault(alloc: Global, text: &[u8]) -> Result<Option<BoxFault>, AllocError> {
    match Plant::read(alloc, text) {
        Ok(_) => Ok(None),
        Err(BoxError::Refused(fault)) => Ok(Some(fault)),
        Err(BoxError::Memory) => Err(AllocError),
    }
}
