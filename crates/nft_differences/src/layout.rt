//! What nft(8) refuses of a text's layout: ends, newlines, blanks, names and comments.
use crate::findings::{Findings, Warning};
use crate::names::{RESERVED_NAME, is_reserved};
use crate::tokens::Tokens;
use nft_lexer::TokenKind;
use node_spans::TokenRange;

/// The most bytes of a comment, with its quotes, and of a name.
const MOST_OF_COMMENT: usize = 130;

const MOST_OF_NAME: usize = 255;

const MISSING_END: Warning = "nft wants a newline or `;` here";

impl Findings<'_> {
    /// Adds the warnings about single tokens, and about newlines in lists.
    pub(crate) fn judge_tokens(&mut self) {
        if let Some(offset) = carriage_return(self.tokens.text) {
            let warning = "nft refuses a carriage return outside comments and strings";
            self.add_at(offset, warning);
        }
        let mut depth = 0usize;
        for index in 0..self.tokens.all.len() {
            self.judge_token(index);
            match self.tokens.bytes(index) {
                b"{" => depth = depth.saturating_add(1),
                b"}" => depth = depth.saturating_sub(1),
                b"\n" if depth > 2 && !may_be_in_list(self.tokens, index) => {
                    let warning =
                        "nft refuses this newline: in a list one may stand behind `{`, and on either side of a comma";
                    self.add(index, warning);
                }
                _ => {}
            }
        }
    }

    /// Adds what is wrong with a token beside the next one.
    fn judge_token(&mut self, index: usize) {
        let tokens = self.tokens;
        let next = index.saturating_add(1);
        let Some(token) = tokens.all.get(next) else {
            return;
        };
        let there = token.text;
        let warning = match token.kind {
            TokenKind::String if tokens.is(index, b"comment") && there.len() > MOST_OF_COMMENT => {
                "nft refuses comments of more than 128 bytes"
            }
            TokenKind::String if tokens.is(index, b"prefix") && there.contains(&b'$') => {
                "nft reads a variable behind `$` in a log prefix, and refuses it"
            }
            _ if !tokens.gap(next).is_empty() => return,
            _ if tokens.is(index, b".") && continues_word(there) => {
                "nft refuses a `.` without a blank behind it"
            }
            TokenKind::Number(_) if tokens.is(index, b":") && is_class(tokens, index) => {
                "nft refuses a `:` between two numbers without a blank beside it"
            }
            TokenKind::Word
                if is_decimal(tokens.bytes(index))
                    && matches!(there, [b'd' | b'h' | b'm' | b's', ..]) => {
                "nft reads this number and the letter behind it as a time: write a blank between them"
            }
            _ => return,
        };
        let is_string = matches!(token.kind, TokenKind::String);
        self.add(if is_string { next } else { index }, warning);
    }

    /// Adds what is wrong with the name and the closing brace of a table, a chain, a set or a map.
    pub(crate) fn judge_braces(&mut self, range: TokenRange, is_chain: bool) {
        let name = self.tokens.inside(range).start.saturating_sub(2);
        if is_reserved(self.tokens.bytes(name)) {
            self.add(name, RESERVED_NAME);
        }
        if self.tokens.bytes(name).len() > MOST_OF_NAME {
            self.add(name, "nft refuses names of more than 255 bytes");
        }
        let close = range.end.saturating_sub(1);
        match self.tokens.bytes(close.saturating_sub(1)) {
            b"{" | b"\n" | b";" => {}
            b"}" | b"auto-merge" if !is_chain => {}
            _ => self.add(close, MISSING_END),
        }
        match self.tokens.bytes(range.end) {
            b"\n" | b";" | b"" => {}
            _ => self.add(range.end, MISSING_END),
        }
    }
}

/// The first carriage return outside strings and comments.
fn carriage_return(text: &[u8]) -> Option<usize> {
    // The mark that begins the string or the comment around a byte.
    let mut mark = None;
    for (offset, byte) in text.iter().enumerate() {
        match (*byte, mark) {
            (b'\n', _) | (b'"', Some(b'"')) => mark = None,
            (b'"' | b'#', None) => mark = Some(*byte),
            (b'\r', None) => return Some(offset),
            _ => {}
        }
    }
    None
}

/// Whether a newline may stand in a list where it does. Of newlines that follow one another the
/// first is judged.
fn may_be_in_list(tokens: Tokens<'_>, newline: usize) -> bool {
    let before = newline.saturating_sub(1);
    if tokens.is(before, b"\n") {
        return true;
    }
    for index in newline.saturating_add(1)..tokens.all.len() {
        match tokens.bytes(index) {
            // Behind a comment on a line of its own: none for nft.
            b"\n" if tokens.gap(index).contains(&b'#') => {}
            b"\n" => return false,
            b"}" | b"," => return true,
            _ => return matches!(tokens.bytes(before), b"{" | b","),
        }
    }
    false
}

/// Whether a colon and the numbers beside it, of at most four digits each, are one word for nft.
fn is_class(tokens: Tokens<'_>, colon: usize) -> bool {
    let before = tokens.bytes(colon.saturating_sub(1));
    let behind = tokens.bytes(colon.saturating_add(1));
    let longest = before.len().max(behind.len());
    let is_tight = tokens.gap(colon).is_empty();
    is_tight && is_decimal(before) && is_decimal(behind) && longest <= 4
}

fn is_decimal(bytes: &[u8]) -> bool {
    !bytes.is_empty() && bytes.iter().all(|byte| byte.is_ascii_digit())
}

/// Whether a token continues a word for nft.
fn continues_word(token: &[u8]) -> bool {
    let [first, ..] = token else { return false };
    first.is_ascii_alphanumeric() || matches!(first, b'_' | b'-' | b'.' | b'/')
}
