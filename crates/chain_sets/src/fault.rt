//! Why the ways through a chain aren't told.
use packet_sets::SetError;
use std::alloc::{AllocError, AllocFailed};
use thiserror::Error;

/// Why the ways through a chain aren't told.
#[derive(Clone, Copy, Debug, PartialEq, Eq, Error)]
pub enum WalkError {
    /// The sets need more nodes than the limit allows.
    #[error("too large")]
    TooLarge,
    /// An allocation failed.
    #[error("memory")]
    Memory,
    /// Jumps and gotos lie too many chains deep in one another.
    #[error("too deep")]
    TooDeep,
}

impl From<SetError> for WalkError {
    ghost use Rattle.std.specs.Prelude.{◌≡◌};
    ghost use Rattle.chain_sets.specs.Errors.{walk_error};

    ghost from_gives = { λ error e. e ≡ walk_error error };

    fn from(error: SetError) -> WalkError {
        match error {
            SetError::TooLarge => WalkError::TooLarge,
            SetError::Memory => WalkError::Memory,
        }
    }
}

impl From<AllocError> for WalkError {
    ghost use Rattle.std.specs.Prelude.{◌≡◌};
    ghost use Rattle.chain_sets.specs.declared.fault.WalkError.{WalkError};

    ghost from_gives = { λ _ e. e ≡ WalkError.Memory };

    fn from(_error: AllocError) -> WalkError {
        WalkError::Memory
    }
}

impl<T: Drop> From<AllocFailed<T>> for WalkError {
    ghost use Rattle.std.specs.Prelude.{◌≡◌};
    ghost use Rattle.chain_sets.specs.declared.fault.WalkError.{WalkError};

    ghost from_gives = { λ _ e. e ≡ WalkError.Memory };

    fn from(_error: AllocFailed<T>) -> WalkError {
        WalkError::Memory
    }
}
