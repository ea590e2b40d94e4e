//! Words of a part of a ruleset.
use crate::part::{count_before, utf8};
use nft_lexer::{Token, TokenKind};
use std::alloc::{AllocError, Global};

/// The words, strings, numbers and marks of a part of a ruleset, as text; no newlines.
#[derive(Drop)]
pub struct Words<'a> {
    tokens: Vec<Token<'a>>,
}

impl<'a> Words<'a> {
    /// The words among some tokens.
    ///
    /// # Errors
    /// `AllocError` for want of memory.
    pub fn among(alloc: Global, tokens: &[Token<'a>]) -> Result<Words<'a>, AllocError> {
        let mut words = Vec::new(alloc);
        for token in tokens {
            if !matches!(token.kind, TokenKind::NewLine) {
                words.push(*token)?;
            }
        }
        Ok(Words { tokens: words })
    }

    /// The word of a number, from 0; empty where there is none.
    pub fn get(&self, number: usize) -> &'a str {
        match self.tokens.get(number) {
            Some(token) => utf8(token.text),
            None => "",
        }
    }

    /// The word so many places before a number; empty where there is none.
    pub fn before(&self, number: usize, places: usize) -> &'a str {
        match number.checked_sub(places) {
            Some(earlier) => self.get(earlier),
            None => "",
        }
    }

    pub fn len(&self) -> usize {
        self.tokens.len()
    }

    /// How many words begin before an offset.
    pub fn count_before(&self, offset: usize) -> usize {
        count_before(&self.tokens, offset)
    }

    /// The tokens of the words before a number.
    pub fn start(&self, number: usize) -> &[Token<'a>] {
        &self.tokens[..number.min(self.tokens.len())]
    }

    /// Whether a word is one of those before a number.
    pub fn has_before(&self, number: usize, wanted: &str) -> bool {
        (0..number).any(|at| self.get(at) == wanted)
    }

    /// Whether a word is one of all.
    pub fn has(&self, wanted: &str) -> bool {
        self.has_before(self.len(), wanted)
    }
}
