//! Parts of a text, as bytes and as tokens.
use nft_lexer::{LexError, Token, fault_start, lex};
use std::alloc::{AllocError, Global};

/// A part of a text: byte offsets, `end` exclusive.
#[derive(Clone, Copy)]
pub struct Span {
    pub start: usize,
    pub end: usize,
}

/// The bytes of a part; none where it doesn't lie within the text.
pub fn bytes_of(text: &[u8], part: Span) -> &[u8] {
    text.get(part.start..part.end).unwrap_or(&[])
}

/// Overwrites parts of the text with blanks, and keeps line ends, so that offsets stay. A part that
/// doesn't lie within the text is ignored.
pub fn mask(text: &mut [u8], parts: &[Span]) {
    for part in parts {
        if part.start <= part.end && part.end <= text.len() {
            blank(&mut text[part.start..part.end]);
        }
    }
}

fn blank(text: &mut [u8]) {
    for byte in text {
        if *byte != b'\n' {
            *byte = b' ';
        }
    }
}

/// A part as text; empty where it isn't UTF-8.
pub fn shown(text: &[u8], part: Span) -> &str {
    utf8(bytes_of(text, part))
}

/// Bytes as text; empty where they aren't UTF-8.
pub(crate) fn utf8(bytes: &[u8]) -> &str {
    str::from_utf8(bytes).unwrap_or("")
}

/// The part from an offset to the end of a text.
pub fn rest_from(text: &[u8], offset: usize) -> Span {
    Span {
        start: offset,
        end: text.len(),
    }
}

/// Whether an offset lies in a part.
pub fn holds(part: Span, offset: usize) -> bool {
    part.start <= offset && offset < part.end
}

/// Whether an offset lies in one of some parts.
pub fn is_in_one(parts: &[Span], offset: usize) -> bool {
    for part in parts {
        if holds(*part, offset) {
            return true;
        }
    }
    false
}

/// The bytes of a token.
pub fn span_of(token: &Token<'_>) -> Span {
    Span {
        start: token.start,
        end: token.start.saturating_add(token.text.len()),
    }
}

/// How many tokens begin before an offset.
pub fn count_before(tokens: &[Token<'_>], offset: usize) -> usize {
    for (count, token) in tokens.iter().enumerate() {
        if offset <= token.start {
            return count;
        }
    }
    tokens.len()
}

/// The tokens that begin in a part.
pub fn tokens_within<'a, 't>(tokens: &'a [Token<'t>], part: Span) -> &'a [Token<'t>] {
    let end = count_before(tokens, part.end).min(tokens.len());
    let first = count_before(tokens, part.start).min(end);
    &tokens[first..end]
}

/// The tokens of a text, up to what is none.
///
/// # Errors
/// `AllocError` for want of memory.
pub fn tokens_of(alloc: Global, text: &[u8]) -> Result<Vec<Token<'_>>, AllocError> {
    match lex(alloc, text) {
        Ok(tokens) => Ok(tokens),
        Err(LexError::Refused(_)) => tokens_before(alloc, text, fault_start(text)),
        Err(LexError::Memory) => Err(AllocError),
    }
}

/// The tokens before an offset; none where the text isn't one of tokens up to it.
fn tokens_before(alloc: Global, text: &[u8], offset: usize) -> Result<Vec<Token<'_>>, AllocError> {
    match lex(alloc, text.get(..offset).unwrap_or(&[])) {
        Ok(tokens) => Ok(tokens),
        Err(LexError::Refused(_)) => Ok(Vec::new(alloc)),
        Err(LexError::Memory) => Err(AllocError),
    }
}
