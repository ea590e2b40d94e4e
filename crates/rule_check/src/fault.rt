//! The faults for which a ruleset is refused.
use std::alloc::AllocError;
use std::fmt;
use thiserror::Error;

/// A fault of a parsed ruleset on a box. The one with the lowest number is reported.
#[derive(Clone, Copy, Debug, Drop, Error)]
pub enum CheckFault {
    /// Two tables of one family, two chains of a table, or two sets or maps of a table have the
    /// same name.
    DuplicateName,
    /// A jump or goto to a name that is no chain of the table.
    NoSuchChain,
    /// A name after `@` that is no set or map of the table.
    NoSuchSet,
    /// A cycle of jumps and gotos, those of verdict maps included.
    Cycle,
    /// A path from a chain with more than 16 jumps.
    TooDeep,
    /// Base chains that cost more than 65,536 together.
    TooCostly,
    /// A jump or goto to a base chain.
    BaseChainCalled,
    /// Types that don't match: of keys, data, operators, ranges or concatenations.
    TypeMismatch,
    /// A value that isn't of its type, or a number out of range.
    WrongValue,
    /// A NAT statement in a chain that is, or is reachable from, a base chain that may not have it.
    MisplacedNat,
    /// A chain of type nat on a hook or with a priority that it may not have.
    MisplacedNatChain,
    /// Overlapping elements of a map with different data.
    Contradiction,
    /// An interface that the box doesn't have.
    NoSuchInterface,
    /// A statement after one that ends the rule.
    StatementAfterVerdict,
    /// More than 16,384 rules, more than 65,536 elements, or a counter that starts over 2^62.
    TooLarge,
}

impl CheckFault {
    ghost use Rattle.std.specs.Prelude.{◌≡◌};
    ghost use Rattle.rule_check.specs.Codes.{code_of};

    /// Its code, as printed.
    pub fn code(self) -> &'static str
        ensures { result.now ≡ code_of self }
    {
        match self {
            Self::DuplicateName => "N01",
            Self::NoSuchChain => "N02",
            Self::NoSuchSet => "N03",
            Self::Cycle => "N04",
            Self::TooDeep => "N05",
            Self::TooCostly => "N06",
            Self::BaseChainCalled => "N07",
            Self::TypeMismatch => "N08",
            Self::WrongValue => "N09",
            Self::MisplacedNat => "N10",
            Self::MisplacedNatChain => "N11",
            Self::Contradiction => "N12",
            Self::NoSuchInterface => "N13",
            Self::StatementAfterVerdict => "N14",
            Self::TooLarge => "N15",
        }
    }
}

/// Writes the code.
impl fmt::Display for CheckFault {
    ghost use Rattle.std.specs.Prelude.{Some};
    ghost use Rattle.rule_check.specs.Codes.{code_of};

    ghost output = { λ fault. Some (code_of fault) };

    fn fmt<W: fmt::Write>(&self, f: &mut fmt::Formatter<W>) -> fmt::Result {
        f.write_str(self.code())
    }
}

/// Why `check` fails.
#[derive(Clone, Copy, Debug, Drop, Error)]
pub enum CheckError {
    /// The ruleset's fault with the lowest number.
    Refused(CheckFault),
    /// An allocation failed.
    Memory,
}

impl CheckError {
    ghost use Rattle.std.specs.Prelude.{◌≡◌};
    ghost use Rattle.rule_check.specs.Codes.{word_of};

    /// Its code, as printed; `memory` where memory ran out.
    pub fn code(self) -> &'static str
        ensures { result.now ≡ word_of self }
    {
        match self {
            Self::Refused(fault) => fault.code(),
            Self::Memory => "memory",
        }
    }
}

/// Writes the code, or `memory`.
impl fmt::Display for CheckError {
    ghost use Rattle.std.specs.Prelude.{Some};
    ghost use Rattle.rule_check.specs.Codes.{word_of};

    ghost output = { λ fault. Some (word_of fault) };

    fn fmt<W: fmt::Write>(&self, f: &mut fmt::Formatter<W>) -> fmt::Result {
        f.write_str(self.code())
    }
}

impl From<AllocError> for CheckError {
    ghost use Rattle.std.specs.Prelude.{◌≡◌};
    ghost use Rattle.rule_check.specs.declared.fault.CheckError.{CheckError};

    ghost from_gives = { λ _ e. e ≡ CheckError.Memory };

    fn from(_error: AllocError) -> CheckError {
        CheckError::Memory
    }
}
