//! The table, the declaration and the rule around a place of a ruleset, also where that can't be
//! read: by braces and ends of lines.
use crate::part::utf8;
use nft_lexer::{Punctuator, Token, TokenKind};
use std::alloc::{AllocError, Global};

/// What begins around a place.
#[derive(Clone, Copy)]
struct Scan<'a> {
    tokens: &'a [Token<'a>],
    /// How many braces are open.
    depth: usize,
    /// The tokens with which the table, the declaration in it, and the line in that begin.
    begun: [Option<usize>; 3],
    /// How many rules of the chain begin.
    rules: usize,
    /// How many tokens are read.
    read: usize,
}

/// The table, by default of the family ip, the chain, the set or the map, and the rule around an
/// offset of the text of these tokens: `table ip filter, chain input, rule 3`; empty outside of
/// tables.
///
/// # Errors
/// `AllocError` for want of memory.
pub fn heads_around(
    alloc: Global,
    tokens: &[Token<'_>],
    offset: usize,
) -> Result<String, AllocError> {
    let mut line = String::new(alloc);
    Scan::up_to(tokens, offset).describe(&mut line)?;
    Ok(line)
}

/// The tokens around an offset of what stands in so many braces: in none a table, in one a
/// declaration, in two a rule; none where nothing does.
pub fn tokens_around<'a>(tokens: &'a [Token<'a>], offset: usize, depth: usize) -> &'a [Token<'a>] {
    let mut scan = Scan::up_to(tokens, offset);
    let Some(first) = scan.begun_in(depth) else {
        return &[];
    };
    for at in scan.read..tokens.len() {
        scan.read_token(at, &tokens[at], usize::MAX);
        if scan.begun_in(depth) != Some(first) {
            return &tokens[first.min(at)..at];
        }
    }
    &tokens[first.min(tokens.len())..]
}

impl<'a> Scan<'a> {
    /// Reads the tokens that don't begin behind an offset.
    fn up_to(tokens: &'a [Token<'a>], offset: usize) -> Scan<'a> {
        let mut scan = Scan {
            tokens,
            depth: 0,
            begun: [None; 3],
            rules: 0,
            read: 0,
        };
        for (at, token) in tokens.iter().enumerate() {
            if offset < token.start {
                break;
            }
            scan.read_token(at, token, offset);
        }
        scan
    }

    /// The token with which what stands in so many braces begins.
    fn begun_in(self, depth: usize) -> Option<usize> {
        match self.begun.get(depth) {
            Some(begun) => *begun,
            None => None,
        }
    }

    /// The word so many places behind a token; empty where no word stands there.
    fn word(self, first: usize, number: usize) -> &'a str {
        match self.tokens.get(first.saturating_add(number)) {
            Some(token) if matches!(token.kind, TokenKind::Word) => utf8(token.text),
            _ => "",
        }
    }

    /// Whether an opening brace stands so many places behind a token.
    fn has_brace(self, first: usize, number: usize) -> bool {
        match self.tokens.get(first.saturating_add(number)) {
            Some(token) => token.text == b"{".as_slice(),
            None => false,
        }
    }

    /// Reads a token that doesn't begin behind the offset.
    fn read_token(&mut self, at: usize, token: &Token<'_>, offset: usize) {
        self.read = at.saturating_add(1);
        match token.kind {
            TokenKind::NewLine | TokenKind::Punctuator(Punctuator::Semicolon) => self.end(),
            TokenKind::Punctuator(Punctuator::CloseBrace) => {
                self.end();
                self.depth = self.depth.saturating_sub(1);
                // The brace belongs to what it closes.
                if self.depth < 2 && token.start < offset {
                    self.end();
                }
            }
            _ => self.begin(at),
        }
        if let TokenKind::Punctuator(Punctuator::OpenBrace) = token.kind {
            self.depth = self.depth.saturating_add(1);
        }
    }

    /// Ends what is in so many braces as are open.
    fn end(&mut self) {
        if let Some(begun) = self.begun.get_mut(self.depth) {
            *begun = None;
        }
    }

    /// Begins with a token, if nothing has begun in so many braces.
    fn begin(&mut self, at: usize) {
        match self.begun.get_mut(self.depth) {
            Some(begun) if begun.is_none() => *begun = Some(at),
            _ => return,
        }
        match self.depth {
            1 => self.rules = 0,
            2 if self.is_in_rule() => self.rules = self.rules.saturating_add(1),
            _ => {}
        }
    }

    /// Whether the line that has begun is one of a chain, but for `type`, `policy` and `comment`.
    fn is_in_rule(self) -> bool {
        match self.begun {
            [_, Some(item), Some(line)] => {
                let is_note = matches!(self.word(line, 0), "type" | "policy" | "comment");
                self.word(item, 0) == "chain" && !is_note
            }
            _ => false,
        }
    }

    /// Writes the heads of what has begun.
    fn describe(self, line: &mut String) -> Result<(), AllocError> {
        let Some(table) = self.begun[0] else {
            return Ok(());
        };
        let (first, second) = (self.word(table, 1), self.word(table, 2));
        let brace = if second.is_empty() { 2 } else { 3 };
        if self.word(table, 0) != "table" || first.is_empty() || !self.has_brace(table, brace) {
            return Ok(());
        }
        match second {
            "" => write!(line, "table ip {first}")?,
            name => write!(line, "table {first} {name}")?,
        }
        self.describe_within(line)
    }

    /// Writes the heads of what has begun in a table.
    fn describe_within(self, line: &mut String) -> Result<(), AllocError> {
        if let Some(item) = self.begun[1]
            && !self.word(item, 0).is_empty()
            && !self.word(item, 1).is_empty()
        {
            write!(line, ", {} {}", self.word(item, 0), self.word(item, 1))?;
        }
        if self.is_in_rule() {
            write!(line, ", rule {}", self.rules)?;
        }
        Ok(())
    }
}
