//! Errors of reading a capture.
use std::fmt;
use thiserror::Error;

/// Why the bytes of a capture are refused (draft-ietf-opsawg-pcap; the two limits are own).
#[derive(Clone, Copy, Debug, PartialEq, Eq, Error)]
pub enum CaptureFault {
    /// The bytes end inside the file header or inside a record.
    TornEnd,
    /// The magic number is unknown, in either byte order.
    Magic,
    /// The version isn't 2.4.
    Version,
    /// The link type isn't Ethernet, raw IP or SLL2.
    LinkType,
    /// A record's captured length is over 262,144, or its sub-second part is a second or more.
    Malformed,
    /// More bytes follow the 4,294,967,296th record.
    TooMany,
}

impl CaptureFault {
    ghost use Rattle.std.specs.Prelude.{◌≡◌};
    ghost use Rattle.pcap_io.specs.Codes.{code_of};

    /// Its code, as printed.
    pub fn code(self) -> &'static str
        ensures { result.now ≡ code_of self }
    {
        match self {
            Self::Magic => "P1",
            Self::Version => "P2",
            Self::LinkType => "P3",
            Self::Malformed => "P4",
            Self::TornEnd => "P5",
            Self::TooMany => "P7",
        }
    }
}

/// Writes the code.
impl fmt::Display for CaptureFault {
    ghost use Rattle.std.specs.Prelude.{Some};
    ghost use Rattle.pcap_io.specs.Codes.{code_of};

    ghost output = { λ fault. Some (code_of fault) };

    fn fmt<W: fmt::Write>(&self, f: &mut fmt::Formatter<W>) -> fmt::Result {
        f.write_str(self.code())
    }
}

/// Why opening or reading a capture failed.
#[derive(Clone, Copy, Debug, PartialEq, Error)]
pub enum CaptureError {
    /// Its bytes are refused.
    Refused(CaptureFault),
    /// A read failed.
    Device,
    /// An allocation failed.
    Memory,
}

impl CaptureError {
    ghost use Rattle.std.specs.Prelude.{◌≡◌};
    ghost use Rattle.pcap_io.specs.Codes.{word_of};

    /// Its code or word, as printed.
    pub fn code(self) -> &'static str
        ensures { result.now ≡ word_of self }
    {
        match self {
            Self::Refused(fault) => fault.code(),
            Self::Device => "P6",
            Self::Memory => "memory",
        }
    }
}

/// Writes the code or word.
impl fmt::Display for CaptureError {
    ghost use Rattle.std.specs.Prelude.{Some};
    ghost use Rattle.pcap_io.specs.Codes.{word_of};

    ghost output = { λ error. Some (word_of error) };

    fn fmt<W: fmt::Write>(&self, f: &mut fmt::Formatter<W>) -> fmt::Result {
        f.write_str(self.code())
    }
}
