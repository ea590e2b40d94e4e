//! Errors of the parser.
use nft_lexer::{LexError, LexFault};
use nft_tree::Memory;
use std::fmt;
use thiserror::Error;

/// The fault of a text that is no ruleset.
#[derive(Clone, Copy, Debug, PartialEq, Error)]
pub enum TextFault {
    /// The text has no tokenization.
    Lexical(LexFault),
    /// The tokens spell no ruleset.
    Syntax,
    /// The tokens spell no ruleset, and one of them is a word of nft(8) that isn't supported.
    Unsupported,
}

impl TextFault {
    ghost use Rattle.std.specs.Prelude.{◌≡◌};
    ghost use Rattle.nft_parser.specs.Codes.{code_of};

    /// Its code, as printed.
    pub fn code(self) -> &'static str
        ensures { result.now ≡ code_of self }
    {
        match self {
            Self::Lexical(fault) => fault.code(),
            Self::Syntax => "E05",
            Self::Unsupported => "E06",
        }
    }
}

/// Writes the code.
impl fmt::Display for TextFault {
    ghost use Rattle.std.specs.Prelude.{Some};
    ghost use Rattle.nft_parser.specs.Codes.{code_of};

    ghost output = { λ fault. Some (code_of fault) };

    fn fmt<W: fmt::Write>(&self, f: &mut fmt::Formatter<W>) -> fmt::Result {
        f.write_str(self.code())
    }
}

/// The error of `parse`.
#[derive(Clone, Copy, Debug, Error)]
pub enum ParseError {
    /// The text has this fault.
    Refused(TextFault),
    /// An allocation was refused.
    Memory,
}

impl ParseError {
    ghost use Rattle.std.specs.Prelude.{◌≡◌};
    ghost use Rattle.nft_parser.specs.Codes.{word_of};

    /// Its code, as printed; `memory` where memory ran out.
    pub fn code(self) -> &'static str
        ensures { result.now ≡ word_of self }
    {
        match self {
            Self::Refused(fault) => fault.code(),
            Self::Memory => "memory",
        }
    }
}

/// Writes the code, or `memory`.
impl fmt::Display for ParseError {
    ghost use Rattle.std.specs.Prelude.{Some};
    ghost use Rattle.nft_parser.specs.Codes.{word_of};

    ghost output = { λ fault. Some (word_of fault) };

    fn fmt<W: fmt::Write>(&self, f: &mut fmt::Formatter<W>) -> fmt::Result {
        f.write_str(self.code())
    }
}

impl From<Memory> for ParseError {
    ghost use Rattle.std.specs.Prelude.{◌≡◌};
    ghost use Rattle.nft_parser.specs.declared.fault.ParseError.{ParseError};

    ghost from_gives = { λ _ e. e ≡ ParseError.Memory };

    fn from(_error: Memory) -> ParseError {
        ParseError::Memory
    }
}

impl From<LexError> for ParseError {
    ghost use Rattle.std.specs.Prelude.{◌≡◌};
    ghost use Rattle.nft_parser.specs.steps.Faults.{of_lex_error};

    ghost from_gives = { λ error e. e ≡ of_lex_error error };

    fn from(error: LexError) -> ParseError {
        match error {
            LexError::Refused(fault) => ParseError::Refused(TextFault::Lexical(fault)),
            LexError::Memory => ParseError::Memory,
        }
    }
}
