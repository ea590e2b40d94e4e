//! Why a set isn't made.
use std::alloc::{AllocError, AllocFailed};
use thiserror::Error;

/// Why a set isn't made.
#[derive(Clone, Copy, Debug, PartialEq, Eq, Error)]
pub enum SetError {
    /// There are as many nodes as the limit allows, and one more is needed.
    #[error("too large")]
    TooLarge,
    /// An allocation failed.
    #[error("memory")]
    Memory,
}

impl From<AllocError> for SetError {
    ghost use Rattle.std.specs.Prelude.{◌≡◌};
    ghost use Rattle.packet_sets.specs.declared.fault.SetError.{SetError};

    ghost from_gives = { λ _ e. e ≡ SetError.Memory };

    fn from(_error: AllocError) -> SetError {
        SetError::Memory
    }
}

impl<T: Drop> From<AllocFailed<T>> for SetError {
    ghost use Rattle.std.specs.Prelude.{◌≡◌};
    ghost use Rattle.packet_sets.specs.declared.fault.SetError.{SetError};

    ghost from_gives = { λ _ e. e ≡ SetError.Memory };

    fn from(_error: AllocFailed<T>) -> SetError {
        SetError::Memory
    }
}
