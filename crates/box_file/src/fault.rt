//! Errors of box files.
use std::alloc::AllocError;
use std::fmt;
use thiserror::Error;

/// Why a box file is refused: the first of these that applies.
#[derive(Clone, Copy, Debug, PartialEq, Eq, Error)]
pub enum BoxFault {
    /// A line has none of the four forms, or there isn't exactly one default line.
    Form,
    /// An index has two names, a name has two indexes, or an address, a route's prefix or a kind of
    /// idle timeout is given twice.
    Repeated,
    /// A route or the default line uses an unknown interface name.
    UnknownName,
    /// Over 1,048,576 bytes, 64 interface lines or 1024 route lines.
    TooLarge,
    /// An idle timeout is below the minimum for its kind, or over 604,800 seconds.
    OutOfRange,
}

impl BoxFault {
    ghost use Rattle.std.specs.Prelude.{◌≡◌};
    ghost use Rattle.box_file.specs.Codes.{code_of};

    /// Its code, as printed.
    pub fn code(self) -> &'static str
        ensures { result.now ≡ code_of self }
    {
        match self {
            Self::Form => "B1",
            Self::Repeated => "B2",
            Self::UnknownName => "B3",
            Self::TooLarge => "B4",
            Self::OutOfRange => "B5",
        }
    }
}

/// Writes the code.
impl fmt::Display for BoxFault {
    ghost use Rattle.std.specs.Prelude.{Some};
    ghost use Rattle.box_file.specs.Codes.{code_of};

    ghost output = { λ fault. Some (code_of fault) };

    fn fmt<W: fmt::Write>(&self, f: &mut fmt::Formatter<W>) -> fmt::Result {
        f.write_str(self.code())
    }
}

/// Why `Plant::read` fails.
#[derive(Clone, Copy, Debug, Error)]
pub enum BoxError {
    /// The text is refused.
    Refused(BoxFault),
    /// Memory ran out.
    Memory,
}

impl BoxError {
    ghost use Rattle.std.specs.Prelude.{◌≡◌};
    ghost use Rattle.box_file.specs.Codes.{word_of};

    /// Its code, as printed; `memory` where memory ran out.
    pub fn code(self) -> &'static str
        ensures { result.now ≡ word_of self }
    {
        match self {
            Self::Refused(fault) => fault.code(),
            Self::Memory => "memory",
        }
    }
}

/// Writes the code, or `memory`.
impl fmt::Display for BoxError {
    ghost use Rattle.std.specs.Prelude.{Some};
    ghost use Rattle.box_file.specs.Codes.{word_of};

    ghost output = { λ fault. Some (word_of fault) };

    fn fmt<W: fmt::Write>(&self, f: &mut fmt::Formatter<W>) -> fmt::Result {
        f.write_str(self.code())
    }
}

impl From<AllocError> for BoxError {
    ghost use Rattle.std.specs.Prelude.{◌≡◌};
    ghost use Rattle.box_file.specs.declared.fault.BoxError.{BoxError};

    ghost from_gives = { λ _ e. e ≡ BoxError.Memory };

    fn from(_error: AllocError) -> BoxError {
        BoxError::Memory
    }
}
