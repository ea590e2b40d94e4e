//! The status that the program ends with.
ghost use Rattle.std.specs.Prelude.{◌≡◌, MatchResult};
ghost use Rattle.program.specs.Status.{of_end, of_error, of_fault, of_words_error, has_line, code_of};

use crate::diffing::RulesetRole;
use crate::fault::{DiffFault, ReachFault};
use box_file::BoxFault;
use engine::{RulesFault, RunFault};
use pcap_io::CaptureFault;
use std::{fmt, io};

/// The status that the program ends with. See `code` for the exit statuses.
#[derive(Clone, Copy)]
pub enum Status {
    Success,
    Rules(RulesFault),
    /// One of the rulesets of a comparison is rejected.
    RulesIn(RulesetRole, RulesFault),
    /// The command line isn't understood; clap prints why.
    Usage,
    /// A word of the command line isn't UTF-8.
    NotUtf8,
    /// OUT is the same regular file as RULES, BOX, IN or, without `--report`, standard output.
    SameFile,
    /// FILE is the same regular file as RULES, BOX, IN or OUT.
    SameReport,
    /// The word after `explain` is no code.
    UnknownCode,
    Box(BoxFault),
    Capture(CaptureFault),
    Device,
    Memory,
    /// The run is complete, but the capture ends in the middle of a record.
    Torn,
    /// A rule can't be met; which one is printed.
    Unmet,
    /// The answer to which rules can be met, or to what two rulesets do differently, is too large to
    /// compute.
    TooLarge,
    /// Two rulesets differ; in what is printed.
    Differ,
}

impl Status {
    /// The status of a run: whether the capture is torn, or the fault.
    pub fn of(outcome: Result<bool, &RunFault>) -> Status
        ensures { MatchResult outcome.entry
            (λ torn. result ≡ of_end torn)
            (λ fault. result ≡ of_fault fault.now) }
    {
        match outcome {
            Ok(false) => Status::Success,
            Ok(true) => Status::Torn,
            Err(RunFault::Rules(fault)) => Status::Rules(*fault),
            Err(RunFault::Box(fault)) => Status::Box(*fault),
            Err(RunFault::Capture(fault)) => Status::Capture(*fault),
            Err(RunFault::Device) => Status::Device,
            Err(RunFault::Memory) => Status::Memory,
        }
    }

    /// The status of a failed system call.
    pub fn of_io(error: &io::Error) -> Status
        ensures { result ≡ of_error error.now }
    {
        match error.kind() {
            io::ErrorKind::OutOfMemory => Status::Memory,
            _ => Status::Device,
        }
    }

    /// The status where the words of the command line can't be read.
    pub fn of_words(error: &io::Error) -> Status
        ensures { result ≡ of_words_error error.now }
    {
        match error.kind() {
            io::ErrorKind::InvalidData => Status::NotUtf8,
            _ => Status::of_io(error),
        }
    }

    /// Whether the program prints a line for it on standard error.
    pub fn has_line(self) -> bool
        ensures { result ≡ has_line self }
    {
        !matches!(self, Status::Success | Status::Usage)
    }

    /// The exit status of the process.
    pub fn code(self) -> u8
        ensures { result ≡ code_of self }
    {
        match self {
            Status::Success => 0,
            Status::Rules(_) | Status::RulesIn(_, _) => 1,
            Status::Usage
            | Status::NotUtf8
            | Status::SameFile
            | Status::SameReport
            | Status::UnknownCode => 2,
            Status::Box(_) => 3,
            Status::Capture(_) => 4,
            Status::Device => 5,
            Status::Memory => 6,
            Status::Torn => 7,
            Status::Unmet => 8,
            Status::TooLarge => 9,
            Status::Differ => 10,
        }
    }
}

impl From<io::Error> for Status {
    ghost use Rattle.std.specs.Prelude.{◌≡◌};
    ghost use Rattle.program.specs.Status.{of_error};

    ghost from_gives = { λ error status. status ≡ of_error error };

    fn from(error: io::Error) -> Status {
        Status::of_io(&error)
    }
}

impl From<RunFault> for Status {
    ghost use Rattle.std.specs.Prelude.{◌≡◌};
    ghost use Rattle.program.specs.Status.{of_fault};

    ghost from_gives = { λ fault status. status ≡ of_fault fault };

    fn from(fault: RunFault) -> Status {
        Status::of(Err(&fault))
    }
}

impl From<ReachFault> for Status {
    ghost use Rattle.std.specs.Prelude.{◌≡◌};
    ghost use Rattle.program.specs.Status.{of_reach_fault};

    ghost from_gives = { λ fault status. status ≡ of_reach_fault fault };

    fn from(fault: ReachFault) -> Status {
        match fault {
            ReachFault::Fault(fault) => Status::of(Err(&fault)),
            ReachFault::TooLarge => Status::TooLarge,
        }
    }
}

impl From<DiffFault> for Status {
    ghost use Rattle.std.specs.Prelude.{◌≡◌};
    ghost use Rattle.program.specs.Status.{of_diff_fault};

    ghost from_gives = { λ fault status. status ≡ of_diff_fault fault };

    fn from(fault: DiffFault) -> Status {
        match fault {
            DiffFault::Rules(role, fault) => Status::RulesIn(role, fault),
            DiffFault::Fault(fault) => Status::of(Err(&fault)),
            DiffFault::TooLarge => Status::TooLarge,
        }
    }
}

/// The line for standard error, without its newline.
impl fmt::Display for Status {
    ghost use Rattle.std.specs.Prelude.{Some};
    ghost use Rattle.program.specs.Lines.{line_of};

    ghost output = { λ status. Some (line_of status) };

    fn fmt<W: fmt::Write>(&self, f: &mut fmt::Formatter<W>) -> fmt::Result {
        match self {
            Status::Success => f.write_str("nftrun: done"),
            Status::Rules(fault) => {
                let code = fault.code();
                write!(f, "nftrun: rules {code}")
            }
            Status::RulesIn(role, fault) => {
                let code = fault.code();
                write!(f, "nftrun: rules {code} in {role}")
            }
            Status::Usage => f.write_str("nftrun: usage"),
            Status::NotUtf8 => f.write_str("nftrun: usage: a word isn't UTF-8"),
            Status::SameFile => f.write_str(
                "nftrun: usage: OUT is the same file as RULES, BOX, IN or standard output",
            ),
            Status::SameReport => f.write_str(
                "nftrun: usage: FILE is the same file as RULES, BOX, IN or OUT",
            ),
            Status::UnknownCode => f.write_str(
                "nftrun: usage: CODE is one of E01 to E06, B1 to B5, N01 to N15, P1 to P5 and P7",
            ),
            Status::Box(fault) => {
                let code = fault.code();
                write!(f, "nftrun: box {code}")
            }
            Status::Capture(fault) => {
                let code = fault.code();
                write!(f, "nftrun: capture {code}")
            }
            Status::Device => f.write_str("nftrun: device"),
            Status::Memory => f.write_str("nftrun: memory"),
            Status::Torn => f.write_str("nftrun: capture torn"),
            Status::Unmet => f.write_str("nftrun: a rule can't be met"),
            Status::TooLarge => f.write_str("nftrun: too large"),
            Status::Differ => f.write_str("nftrun: the rulesets differ"),
        }
    }
}
