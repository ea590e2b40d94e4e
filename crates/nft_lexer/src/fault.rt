//! Lexical errors.
use std::alloc::AllocError;
use std::fmt;
use thiserror::Error;

/// A lexical fault. In a text that isn't too long it is the first one, with its line counted from
/// 1.
#[derive(Clone, Copy, Debug, PartialEq, Error)]
pub enum LexFault {
    /// A byte that starts no token.
    Byte { line: u32 },
    /// A string that isn't closed on its line.
    OpenString { line: u32 },
    /// A number over 2^64 - 1, a decimal number with a leading zero, or an octet of an address that
    /// is over 255 or has a leading zero.
    Number { line: u32 },
    /// A text of more than 1,048,576 bytes.
    TooLong,
}

impl LexFault {
    ghost use Rattle.std.specs.Prelude.{◌≡◌};
    ghost use Rattle.nft_lexer.specs.Codes.{code_of};

    /// Its code, as printed.
    pub fn code(self) -> &'static str
        ensures { result.now ≡ code_of self }
    {
        match self {
            Self::Byte { .. } => "E01",
            Self::OpenString { .. } => "E02",
            Self::Number { .. } => "E03",
            Self::TooLong => "E04",
        }
    }
}

/// Writes the code.
impl fmt::Display for LexFault {
    ghost use Rattle.std.specs.Prelude.{Some};
    ghost use Rattle.nft_lexer.specs.Codes.{code_of};

    ghost output = { λ fault. Some (code_of fault) };

    fn fmt<W: fmt::Write>(&self, f: &mut fmt::Formatter<W>) -> fmt::Result {
        f.write_str(self.code())
    }
}

/// The error of `lex`.
#[derive(Clone, Copy, Debug, Error)]
pub enum LexError {
    /// The text has this fault.
    Refused(LexFault),
    /// An allocation was refused.
    Memory,
}

impl LexError {
    ghost use Rattle.std.specs.Prelude.{◌≡◌};
    ghost use Rattle.nft_lexer.specs.Codes.{word_of};

    /// Its code, as printed; `memory` where memory ran out.
    pub fn code(self) -> &'static str
        ensures { result.now ≡ word_of self }
    {
        match self {
            Self::Refused(fault) => fault.code(),
            Self::Memory => "memory",
        }
    }
}

/// Writes the code, or `memory`.
impl fmt::Display for LexError {
    ghost use Rattle.std.specs.Prelude.{Some};
    ghost use Rattle.nft_lexer.specs.Codes.{word_of};

    ghost output = { λ fault. Some (word_of fault) };

    fn fmt<W: fmt::Write>(&self, f: &mut fmt::Formatter<W>) -> fmt::Result {
        f.write_str(self.code())
    }
}

impl From<AllocError> for LexError {
    ghost use Rattle.std.specs.Prelude.{◌≡◌};
    ghost use Rattle.nft_lexer.specs.declared.fault.LexError.{LexError};

    ghost from_gives = { λ _ e. e ≡ LexError.Memory };

    fn from(_error: AllocError) -> LexError {
        LexError::Memory
    }
}
