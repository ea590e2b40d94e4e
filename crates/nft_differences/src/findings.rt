//! The warnings of a text, in its order, and where its rules are.
use crate::chains::BaseChain;
use crate::tokens::Tokens;
use fault_places::{Position, position_at, tokens_of};
use nft_lexer::{LexError, Token, lex};
use nft_rulesets::ruleset;
use node_spans::TokenRange;
use std::alloc::{AllocError, Global};

/// The most warnings that are written.
const MOST: usize = 1000;

/// What nft(8) 1.0.6 refuses of an accepted ruleset, or means otherwise: a sentence, without its end.
pub(crate) type Warning = &'static str;

/// What is found in a text.
#[derive(Drop)]
pub(crate) struct Findings<'a> {
    pub alloc: Global,
    pub tokens: Tokens<'a>,
    /// The base chains so far.
    pub chains: Vec<BaseChain>,
    /// The offsets at which the rules so far begin.
    pub rules: Vec<usize>,
    /// The warnings, each behind its offset; with room for the most from the start.
    found: Vec<(usize, Warning)>,
}

impl<'a> Findings<'a> {
    /// What is found in the text of a ruleset, which has these tokens.
    fn of(alloc: Global, text: &'a [u8], all: &'a [Token<'a>]) -> Result<Findings<'a>, AllocError> {
        let mut findings = Findings {
            alloc,
            tokens: Tokens { text, all },
            chains: Vec::new(alloc),
            rules: Vec::new(alloc),
            found: Vec::with_capacity(alloc, MOST)?,
        };
        if let Some(ruleset) = ruleset(alloc, all)? {
            findings.judge(&ruleset)?;
        }
        Ok(findings)
    }

    /// Adds a warning at a token.
    pub(crate) fn add(&mut self, index: usize, warning: Warning) {
        self.add_at(self.tokens.offset(index), warning);
    }

    /// Adds a warning at an offset.
    pub(crate) fn add_at(&mut self, offset: usize, warning: Warning) {
        if self.found.len() < self.found.capacity() {
            self.found.push_reserved((offset, warning));
        }
    }

    /// Adds a warning at the first token of a declaration, in its braces, that is this word.
    pub(crate) fn add_at_word(&mut self, declaration: TokenRange, word: &[u8], warning: Warning) {
        if let Some(index) = self.tokens.find(declaration, word) {
            self.add(index, warning);
        }
    }

    /// Writes one line for each warning, in the order of the text.
    fn write_to(&mut self, lines: &mut String, path: &str) -> Result<(), AllocError> {
        self.found.sort_by_key(|found| found.0)?;
        let text = self.tokens.text;
        for &(offset, warning) in &self.found {
            let Position { line, column, .. } = position_at(text, offset.min(text.len()));
            writeln!(lines, "{path}:{line}:{column}: warning: {warning}")?;
        }
        Ok(())
    }
}

/// One line for each thing in the text of an accepted ruleset that nft(8) 1.0.6 refuses, or that it
/// or Linux means otherwise: `PATH:LINE:COLUMN: warning: SENTENCE`, in the order of the text. At
/// most 1,000 are told. A text that can't be parsed has none.
///
/// # Errors
/// `AllocError` for want of memory.
pub fn warnings(alloc: Global, path: &str, text: &[u8]) -> Result<String, AllocError> {
    let mut lines = String::new(alloc);
    let tokens = match lex(alloc, text) {
        Ok(tokens) => tokens,
        Err(LexError::Refused(_)) => return Ok(lines),
        Err(LexError::Memory) => return Err(AllocError),
    };
    Findings::of(alloc, text, &tokens)?.write_to(&mut lines, path)?;
    Ok(lines)
}

/// The offset at which each rule of the text of an accepted ruleset begins, in the order of the text.
///
/// # Errors
/// `AllocError` for want of memory.
pub fn rule_offsets(alloc: Global, text: &[u8]) -> Result<Vec<usize>, AllocError> {
    let tokens = tokens_of(alloc, text)?;
    let findings = Findings::of(alloc, text, &tokens)?;
    Ok(findings.rules)
}
