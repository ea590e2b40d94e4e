//! The lexer: splits the text of a ruleset into tokens (nft(8), "Lexical conventions").
#![tactic(auto)]

mod fault;
mod laws;
mod lexeme;
mod lexing;
mod number;
mod token;

pub use fault::{LexError, LexFault};
pub use laws::{one_fault, one_tokenization, some_tokenization};
pub use lexing::{fault_start, lex};
pub use token::{Punctuator, Token, TokenKind};
