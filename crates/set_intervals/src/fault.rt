//! The error type of `Intervals::build`.
use std::alloc::{AllocError, AllocFailed};
use std::fmt;
use thiserror::Error;

/// Why no table was built.
#[derive(Clone, Copy, Debug, PartialEq, Eq, Error)]
pub enum SetError {
    /// Two ranges with different values overlap.
    Clash,
    /// An allocation failed.
    Memory,
}

impl SetError {
    ghost use Rattle.std.specs.Prelude.{◌≡◌};
    ghost use Rattle.set_intervals.specs.Codes.{word_of};

    /// Its code, as printed; `memory` where memory ran out.
    pub fn code(self) -> &'static str
        ensures { result.now ≡ word_of self }
    {
        match self {
            Self::Clash => "I1",
            Self::Memory => "memory",
        }
    }
}

/// Writes the code, or `memory`.
impl fmt::Display for SetError {
    ghost use Rattle.std.specs.Prelude.{Some};
    ghost use Rattle.set_intervals.specs.Codes.{word_of};

    ghost output = { λ fault. Some (word_of fault) };

    fn fmt<W: fmt::Write>(&self, f: &mut fmt::Formatter<W>) -> fmt::Result {
        f.write_str(self.code())
    }
}

impl From<AllocError> for SetError {
    ghost use Rattle.std.specs.Prelude.{◌≡◌};
    ghost use Rattle.set_intervals.specs.declared.fault.SetError.{SetError};

    ghost from_gives = { λ _ e. e ≡ SetError.Memory };

    fn from(_error: AllocError) -> SetError {
        SetError::Memory
    }
}

impl<T: Drop> From<AllocFailed<T>> for SetError {
    ghost use Rattle.std.specs.Prelude.{◌≡◌};
    ghost use Rattle.set_intervals.specs.declared.fault.SetError.{SetError};

    ghost from_gives = { λ _ e. e ≡ SetError.Memory };

    fn from(_error: AllocFailed<T>) -> SetError {
        SetError::Memory
    }
}
