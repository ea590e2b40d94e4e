//! Why it isn't told which rules can be met, or what two rulesets do differently.
use crate::diffing::RulesetRole;
use engine::{RulesFault, RunFault};
use std::alloc::AllocError;
use std::io;
use thiserror::Error;

/// Why it isn't told which rules can be met.
#[derive(Clone, Copy, Debug, Drop, Error)]
pub enum ReachFault {
    /// A text is rejected, a write failed, or an allocation.
    #[error("{0}")]
    Fault(RunFault),
    /// The answer is too large to compute.
    #[error("too large")]
    TooLarge,
}

impl From<RunFault> for ReachFault {
    ghost use Rattle.std.specs.Prelude.{◌≡◌};
    ghost use Rattle.program.specs.declared.fault.ReachFault.{ReachFault};

    ghost from_gives = { λ fault whole. whole ≡ ReachFault.Fault fault };

    fn from(fault: RunFault) -> ReachFault {
        ReachFault::Fault(fault)
    }
}

impl From<AllocError> for ReachFault {
    ghost use Rattle.std.specs.Prelude.{◌≡◌};
    ghost use Rattle.engine.specs.declared.fault.RunFault.{RunFault};
    ghost use Rattle.program.specs.declared.fault.ReachFault.{ReachFault};

    ghost from_gives = { λ _ fault. fault ≡ ReachFault.Fault RunFault.Memory };

    fn from(_error: AllocError) -> ReachFault {
        ReachFault::Fault(RunFault::Memory)
    }
}

/// A failed system call.
impl From<io::Error> for ReachFault {
    ghost use Rattle.std.specs.Prelude.{◌≡◌};
    ghost use Rattle.program.specs.Status.{fault_of_error};
    ghost use Rattle.program.specs.declared.fault.ReachFault.{ReachFault};

    ghost from_gives = { λ error fault. fault ≡ ReachFault.Fault (fault_of_error error) };

    fn from(error: io::Error) -> ReachFault {
        match error.kind() {
            io::ErrorKind::OutOfMemory => ReachFault::Fault(RunFault::Memory),
            _ => ReachFault::Fault(RunFault::Device),
        }
    }
}

/// Why it isn't told what two rulesets do differently.
#[derive(Clone, Copy, Debug, Drop, Error)]
pub enum DiffFault {
    /// One of the rulesets is rejected.
    #[error("{1} in {0}")]
    Rules(RulesetRole, RulesFault),
    /// The box file is rejected, a write failed, or an allocation.
    #[error("{0}")]
    Fault(RunFault),
    /// The answer is too large to compute.
    #[error("too large")]
    TooLarge,
}

/// A failed system call.
impl From<io::Error> for DiffFault {
    ghost use Rattle.std.specs.Prelude.{◌≡◌};
    ghost use Rattle.program.specs.Status.{fault_of_error};
    ghost use Rattle.program.specs.declared.fault.DiffFault.{DiffFault};

    ghost from_gives = { λ error fault. fault ≡ DiffFault.Fault (fault_of_error error) };

    fn from(error: io::Error) -> DiffFault {
        match error.kind() {
            io::ErrorKind::OutOfMemory => DiffFault::Fault(RunFault::Memory),
            _ => DiffFault::Fault(RunFault::Device),
        }
    }
}
