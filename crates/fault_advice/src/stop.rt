//! The place at which the grammar stops in a part of a ruleset, and what it allows there.
use fault_places::Words;
use nft_lexer::Token;
use std::alloc::{AllocError, Global};
use unread_parts::{Part, PartKind};

/// The longest start of a part that is tried with other words behind it, in tokens.
const MOST_TOKENS: usize = 1024;

/// The place at which the grammar stops in a part.
#[derive(Drop)]
pub struct Stop<'a> {
    pub alloc: Global,
    /// What is written around the place, up to the next blanks.
    pub run: &'a str,
    pub tokens: &'a [Token<'a>],
    pub part: Part,
    /// The token at the place.
    pub token: usize,
    pub words: Words<'a>,
    /// The number of the word at the place.
    pub at: usize,
    /// How many words the grammar allows: an unsupported word may stand behind others that it
    /// doesn't.
    pub allowed: usize,
}

impl<'a> Stop<'a> {
    /// The place at a token of a part.
    pub fn new(
        alloc: Global,
        run: &'a str,
        tokens: &'a [Token<'a>],
        part: Part,
        token: usize,
    ) -> Result<Stop<'a>, AllocError> {
        let refused = part.first_refused(alloc, tokens)?.min(token);
        Ok(Stop {
            alloc,
            run,
            tokens,
            part,
            token,
            words: Words::among(alloc, part.tokens_before(tokens, part.end))?,
            at: Words::among(alloc, part.tokens_before(tokens, token))?.len(),
            allowed: Words::among(alloc, part.tokens_before(tokens, refused))?.len(),
        })
    }

    /// The word at the place; empty at the end of the part.
    pub fn here(&self) -> &'a str {
        self.words.get(self.at)
    }

    /// The word so many places before it.
    pub fn before(&self, places: usize) -> &'a str {
        self.words.before(self.at, places)
    }

    pub fn is_in_rule(&self) -> bool {
        self.part.kind == PartKind::Rule
    }

    /// Whether the grammar allows a word, with another one behind it, at the place: in its part, or,
    /// where that begins here, in its chain.
    pub fn allows(&self, word: &str, next: &str) -> Result<bool, AllocError> {
        let text = format!(in self.alloc; " {word} {next}")?;
        let start = self.part.tokens_before(self.tokens, self.token);
        if self.is_allowed(self.part.kind, start, text.as_str())? {
            return Ok(true);
        }
        match self.part.item {
            Some(item) if self.is_in_rule() && self.at == 0 => {
                let chain = self.tokens.get(item..self.token).unwrap_or(&[]);
                self.is_allowed(PartKind::Item, chain, text.as_str())
            }
            _ => Ok(false),
        }
    }

    /// Whether some ending completes the start of a part with a text behind it.
    fn is_allowed(
        &self,
        kind: PartKind,
        start: &[Token<'a>],
        text: &str,
    ) -> Result<bool, AllocError> {
        Ok(start.len() <= MOST_TOKENS && kind.allows(self.alloc, start, text)?)
    }

    /// Those of some words that the grammar allows at the place, with another one behind them.
    pub fn allowed_of(
        &self,
        words: &[&'static str],
        next: &str,
    ) -> Result<Vec<&'static str>, AllocError> {
        let mut allowed = Vec::new(self.alloc);
        for word in words {
            if self.allows(word, next)? {
                allowed.push(*word)?;
            }
        }
        Ok(allowed)
    }

    /// Whether there is a word so many places before the place without which the part can be read.
    pub fn reads_without(&self, places: usize) -> Result<bool, AllocError> {
        let (alloc, part) = (self.alloc, self.part);
        let surplus = match self.token.checked_sub(places) {
            Some(surplus) if part.first <= surplus && surplus < part.end => surplus,
            _ => return Ok(false),
        };
        let before = part.tokens_before(self.tokens, surplus);
        let behind = self.tokens.get(surplus.saturating_add(1)..part.end);
        let without = [before, behind.unwrap_or(&[])].concat(alloc)?;
        if part.start < part.first {
            return part.kind.allows(alloc, &without, "");
        }
        part.kind.reads_with(alloc, &without, "")
    }
}
