//! Errors of a run.
use box_file::{BoxError, BoxFault};
use nft_parser::{ParseError, TextFault};
use pcap_io::{CaptureError, CaptureFault, DeviceFailed, SinkError};
use rule_check::{CheckError, CheckFault};
use std::alloc::AllocError;
use std::fmt;
use thiserror::Error;

/// Why a ruleset is refused.
#[derive(Clone, Copy, Debug, Drop, Error)]
pub enum RulesFault {
    /// Its text doesn't parse.
    Text(TextFault),
    /// The parsed ruleset fails a check on the box.
    Check(CheckFault),
}

impl RulesFault {
    ghost use Rattle.std.specs.Prelude.{◌≡◌};
    ghost use Rattle.engine.specs.Words.{rules_code};

    /// Its code, as printed.
    pub fn code(self) -> &'static str
        ensures { result.now ≡ rules_code self }
    {
        match self {
            Self::Text(fault) => fault.code(),
            Self::Check(fault) => fault.code(),
        }
    }
}

/// Writes the code.
impl fmt::Display for RulesFault {
    ghost use Rattle.std.specs.Prelude.{Some};
    ghost use Rattle.engine.specs.Words.{rules_code};

    ghost output = { λ fault. Some (rules_code fault) };

    fn fmt<W: fmt::Write>(&self, f: &mut fmt::Formatter<W>) -> fmt::Result {
        f.write_str(self.code())
    }
}

/// Why a run failed.
#[derive(Clone, Copy, Debug, Drop, Error)]
pub enum RunFault {
    /// The ruleset is refused.
    Rules(RulesFault),
    /// The box file is refused.
    Box(BoxFault),
    /// The capture is refused.
    Capture(CaptureFault),
    /// A read or a write failed.
    Device,
    /// An allocation failed.
    Memory,
}

impl RunFault {
    ghost use Rattle.std.specs.Prelude.{◌≡◌};
    ghost use Rattle.engine.specs.Words.{word_of};

    /// The word for what is refused or failed, as printed before a code.
    pub fn word(self) -> &'static str
        ensures { result.now ≡ word_of self }
    {
        match self {
            Self::Rules(_) => "rules",
            Self::Box(_) => "box",
            Self::Capture(_) => "capture",
            Self::Device => "device",
            Self::Memory => "memory",
        }
    }
}

/// Writes the word, and the code where there is one.
impl fmt::Display for RunFault {
    ghost use Rattle.std.specs.Prelude.{Some};
    ghost use Rattle.engine.specs.Words.{printed};

    ghost output = { λ fault. Some (printed fault) };

    fn fmt<W: fmt::Write>(&self, f: &mut fmt::Formatter<W>) -> fmt::Result {
        let word = self.word();
        match self {
            Self::Rules(fault) => write!(f, "{word} {fault}"),
            Self::Box(fault) => write!(f, "{word} {fault}"),
            Self::Capture(fault) => write!(f, "{word} {fault}"),
            Self::Device | Self::Memory => f.write_str(word),
        }
    }
}

impl From<ParseError> for RunFault {
    ghost use Rattle.std.specs.Prelude.{◌≡◌};
    ghost use Rattle.engine.specs.steps.Faults.{of_parser};

    ghost from_gives = { λ error fault. fault ≡ of_parser error };

    fn from(error: ParseError) -> RunFault {
        match error {
            ParseError::Refused(fault) => RunFault::Rules(RulesFault::Text(fault)),
            ParseError::Memory => RunFault::Memory,
        }
    }
}

impl From<BoxError> for RunFault {
    ghost use Rattle.std.specs.Prelude.{◌≡◌};
    ghost use Rattle.engine.specs.steps.Faults.{of_box};

    ghost from_gives = { λ error fault. fault ≡ of_box error };

    fn from(error: BoxError) -> RunFault {
        match error {
            BoxError::Refused(fault) => RunFault::Box(fault),
            BoxError::Memory => RunFault::Memory,
        }
    }
}

impl From<CheckError> for RunFault {
    ghost use Rattle.std.specs.Prelude.{◌≡◌};
    ghost use Rattle.engine.specs.steps.Faults.{of_check};

    ghost from_gives = { λ error fault. fault ≡ of_check error };

    fn from(error: CheckError) -> RunFault {
        match error {
            CheckError::Refused(fault) => RunFault::Rules(RulesFault::Check(fault)),
            CheckError::Memory => RunFault::Memory,
        }
    }
}

impl From<CaptureError> for RunFault {
    ghost use Rattle.std.specs.Prelude.{◌≡◌};
    ghost use Rattle.engine.specs.steps.Faults.{of_capture};

    ghost from_gives = { λ error fault. fault ≡ of_capture error };

    fn from(error: CaptureError) -> RunFault {
        match error {
            CaptureError::Refused(fault) => RunFault::Capture(fault),
            CaptureError::Device => RunFault::Device,
            CaptureError::Memory => RunFault::Memory,
        }
    }
}

impl From<DeviceFailed> for RunFault {
    ghost use Rattle.std.specs.Prelude.{◌≡◌};
    ghost use Rattle.engine.specs.declared.fault.RunFault.{RunFault};

    ghost from_gives = { λ _ fault. fault ≡ RunFault.Device };

    fn from(_error: DeviceFailed) -> RunFault {
        RunFault::Device
    }
}

impl From<SinkError> for RunFault {
    ghost use Rattle.std.specs.Prelude.{◌≡◌};
    ghost use Rattle.engine.specs.steps.Faults.{of_sink};

    ghost from_gives = { λ error fault. fault ≡ of_sink error };

    fn from(error: SinkError) -> RunFault {
        match error {
            SinkError::Device => RunFault::Device,
            SinkError::Memory => RunFault::Memory,
        }
    }
}

impl From<AllocError> for RunFault {
    ghost use Rattle.std.specs.Prelude.{◌≡◌};
    ghost use Rattle.engine.specs.declared.fault.RunFault.{RunFault};

    ghost from_gives = { λ _ fault. fault ≡ RunFault.Memory };

    fn from(_error: AllocError) -> RunFault {
        RunFault::Memory
    }
}
