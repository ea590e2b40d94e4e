//! The tokens of a ruleset's text, newlines among them.
use nft_lexer::Token;
use node_spans::TokenRange;
use std::ops::Range;

/// A text with its tokens.
#[derive(Clone, Copy)]
pub(crate) struct Tokens<'a> {
    pub text: &'a [u8],
    pub all: &'a [Token<'a>],
}

impl<'a> Tokens<'a> {
    /// The bytes of a token; none at the end.
    pub(crate) fn bytes(self, index: usize) -> &'a [u8] {
        match self.all.get(index) {
            Some(token) => token.text,
            None => &[],
        }
    }

    pub(crate) fn is(self, index: usize, bytes: &[u8]) -> bool {
        self.bytes(index) == bytes
    }

    /// Where a token begins; the end of the text at the end.
    pub(crate) fn offset(self, index: usize) -> usize {
        match self.all.get(index) {
            Some(token) => token.start,
            None => self.text.len(),
        }
    }

    /// The blanks and the comment between a token and the one before it.
    pub(crate) fn gap(self, index: usize) -> &'a [u8] {
        let before = index.saturating_sub(1);
        let start = self.offset(before).saturating_add(self.bytes(before).len());
        self.text.get(start..self.offset(index)).unwrap_or(&[])
    }

    /// The tokens of a declaration behind its opening brace.
    pub(crate) fn inside(self, declaration: TokenRange) -> Range<usize> {
        let open = (declaration.first..declaration.end).find(|index| self.is(*index, b"{"));
        open.unwrap_or(declaration.end).saturating_add(1)..declaration.end
    }

    /// The first token of a declaration, behind its opening brace, that is this word.
    pub(crate) fn find(self, declaration: TokenRange, word: &[u8]) -> Option<usize> {
        self.inside(declaration).find(|index| self.is(*index, word))
    }
}
