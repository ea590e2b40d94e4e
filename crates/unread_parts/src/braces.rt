//! Braces, and the tokens that end a line.
use nft_lexer::{Punctuator, Token, TokenKind};
use std::alloc::{AllocError, Global};
use token_reader::{after_end, is_rule_end};

/// Whether a token has this text, which is none of a string.
pub(crate) fn is(tokens: &[Token<'_>], at: usize, text: &[u8]) -> bool {
    match tokens.get(at) {
        Some(token) => token.text == text,
        None => false,
    }
}

/// How many braces are open behind a token, with so many before it; none for one that closes no brace.
fn open_behind(token: &Token<'_>, open: usize) -> Option<usize> {
    match token.kind {
        TokenKind::Punctuator(Punctuator::OpenBrace) => Some(open.saturating_add(1)),
        TokenKind::Punctuator(Punctuator::CloseBrace) => open.checked_sub(1),
        _ => Some(open),
    }
}

/// How many braces are open behind some tokens.
pub fn open_braces(tokens: &[Token<'_>]) -> usize {
    let mut open = 0;
    for token in tokens {
        open = open_behind(token, open).unwrap_or(0);
    }
    open
}

/// Whether each closing brace has an opening one, and none stays open.
pub fn braces_match(tokens: &[Token<'_>]) -> bool {
    open_braces(tokens) == 0 && closing_brace(tokens, 0, false) == tokens.len()
}

/// A brace that is left open, by its token.
#[derive(Clone, Copy)]
pub struct OpenBrace {
    pub brace: usize,
    /// The token at which it shows that it isn't closed.
    pub seen: usize,
}

/// A brace that is left open: the innermost one where a line begins a table, a chain, a set or a map
/// that can't be nested in it, or else the innermost one behind the last token.
///
/// # Errors
/// `AllocError` for want of memory.
pub fn unclosed_brace(
    alloc: Global,
    tokens: &[Token<'_>],
) -> Result<Option<OpenBrace>, AllocError> {
    let mut open = Vec::new(alloc);
    let mut seen = 0;
    for (at, token) in tokens.iter().enumerate() {
        if matches!(token.kind, TokenKind::NewLine) {
            continue;
        }
        seen = at;
        if begins_outside(tokens, at, open.len()) {
            break;
        }
        match token.kind {
            TokenKind::Punctuator(Punctuator::OpenBrace) => open.push(at)?,
            TokenKind::Punctuator(Punctuator::CloseBrace) => {
                let _ = open.pop();
            }
            _ => {}
        }
    }
    match open.pop() {
        Some(brace) => Ok(Some(OpenBrace { brace, seen })),
        None => Ok(None),
    }
}

/// Whether a line begins at a token with what can't be nested so deep: a table in any brace, or a
/// chain, a set or a map in two.
fn begins_outside(tokens: &[Token<'_>], at: usize, depth: usize) -> bool {
    let is_item = is(tokens, at, b"chain") || is(tokens, at, b"set") || is(tokens, at, b"map");
    let begins_line = at == 0 || is(tokens, at.saturating_sub(1), b"\n");
    (depth > 1 && is_item || depth > 0 && is(tokens, at, b"table"))
        && begins_line
        && brace_of_line(tokens, at).is_some()
}

/// The first opening brace of the line from a token on.
pub(crate) fn brace_of_line(tokens: &[Token<'_>], from: usize) -> Option<usize> {
    for at in from..tokens.len() {
        if is(tokens, at, b"{") {
            return Some(at);
        }
        if is_rule_end(tokens, at) {
            break;
        }
    }
    None
}

/// The first token from one on that is no newline, before the end.
pub(crate) fn after_newlines(tokens: &[Token<'_>], from: usize, end: usize) -> usize {
    for at in from..end {
        if !is(tokens, at, b"\n") {
            return at;
        }
    }
    end
}

/// The brace that closes the one before a token; the end of the line at it, if that ends before.
pub(crate) fn closing_brace(tokens: &[Token<'_>], first: usize, or_line: bool) -> usize {
    let mut open = 0;
    for at in first..tokens.len() {
        let ends_line = or_line && open == 0 && after_end(tokens, at).is_some();
        match open_behind(&tokens[at], open) {
            Some(left) if !ends_line => open = left,
            _ => return at,
        }
    }
    tokens.len()
}
