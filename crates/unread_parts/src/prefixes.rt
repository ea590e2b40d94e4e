//! How far the grammar allows a part.
//!
//! Whether it allows the start of a part is found by reading that with some endings, so the grammar
//! isn't written down twice.
use crate::braces::{after_newlines, is, open_braces};
use crate::part::{Part, PartKind};
use nft_lexer::Token;
use nft_parser::joined;
use std::alloc::{AllocError, Global};

/// What a set or a map may lack before its closing brace: nothing, or its types.
static TYPES: [&str; 3] = ["", "\ntype mark", "\ntype mark : mark"];

/// What a part may lack, if it's one of those that have types.
pub(crate) fn missing_types(has_types: bool) -> &'static [&'static str] {
    if has_types { &TYPES } else { &TYPES[..1] }
}

/// Endings with a bar between two, one of which completes most starts that the grammar allows.
const ENDINGS: &str =
    "| 1| 1.2.3.4| syn| new| snat| x| \"a\"| accept| 1 }| x }| : 1| : accept| : accept }\
     | 1 : accept }| \"a\" : accept }| : 1 }| 1 : 1 }| accept }| @s| @m| vmap @m\
     | saddr 1.2.3.4| dport 1| type 1| mark 1| mark| saddr| dport| type| interval| map @m\
     | saddr map @m| dport map @m| mark map @m| saddr @s| dport @s| mark @s| set 1\
     | to 1.2.3.4| to : 1| packets 1 bytes 1| bytes 1| 1 bytes 1| syn == syn| == syn\
     | ) == syn| syn ) == syn| syn )| )| filter hook input priority 0| hook input priority 0\
     | input priority 0| priority 0| = { 1 }| mark : mark| {\n}| x {\n}| {\ntype mark\n}\
     | {\ntype mark : mark\n}";

/// How many more tokens are tried behind a start that no ending completes.
const LOOKAHEAD: usize = 6;

impl PartKind {
    /// Whether some ending completes the start of a part with a text behind it.
    ///
    /// # Errors
    /// `AllocError` for want of memory.
    pub fn allows(
        self,
        alloc: Global,
        start: &[Token<'_>],
        text: &str,
    ) -> Result<bool, AllocError> {
        match joined(alloc, start, text)? {
            Some(tokens) => Ok(self.completion(alloc, &tokens)?.is_some()),
            None => Ok(false),
        }
    }

    /// What completes the start of a part: the first of the endings that does, with what closes it.
    pub(crate) fn completion(
        self,
        alloc: Global,
        start: &[Token<'_>],
    ) -> Result<Option<String>, AllocError> {
        let open = open_braces(start);
        let has_types = self == PartKind::Item && !is(start, 0, b"chain");
        for types in missing_types(has_types) {
            let closing = closing(alloc, open, types)?;
            for ending in ENDINGS.split('|') {
                let behind = format!(in alloc; "{ending}{}", closing.as_str())?;
                if self.reads_with(alloc, start, behind.as_str())? {
                    return Ok(Some(behind));
                }
            }
        }
        Ok(None)
    }
}

/// So many closing braces, and before the last one what an item lacks.
pub(crate) fn closing(alloc: Global, open: usize, missing: &str) -> Result<String, AllocError> {
    let mut closing = String::new(alloc);
    for left in 0..open {
        if left + 1 == open {
            closing.push_str(missing)?;
        }
        closing.push_str("\n}")?;
    }
    Ok(closing)
}

impl Part {
    /// The first token that the grammar doesn't allow behind those before it; the end of the part
    /// where it allows all.
    ///
    /// # Errors
    /// `AllocError` for want of memory.
    pub fn first_refused(self, alloc: Global, tokens: &[Token<'_>]) -> Result<usize, AllocError> {
        let mut allowed = self.leap(alloc, tokens)?;
        for at in allowed..self.end {
            if allowed.saturating_add(LOOKAHEAD) <= at {
                break;
            }
            let end = at.saturating_add(1);
            if self.allows_up_to(alloc, tokens, end)? {
                allowed = end;
            }
        }
        Ok(after_newlines(tokens, allowed, self.end))
    }

    /// The end of a start that some ending completes, by leaps each half as long as the one before.
    fn leap(self, alloc: Global, tokens: &[Token<'_>]) -> Result<usize, AllocError> {
        let (mut allowed, mut leap) = (self.first, self.end.saturating_sub(self.first));
        for _ in 0..usize::BITS {
            let end = allowed.saturating_add(leap);
            if leap > 0 && end <= self.end && self.allows_up_to(alloc, tokens, end)? {
                allowed = end;
            }
            leap /= 2;
        }
        Ok(allowed)
    }

    /// Whether some ending completes the part up to a token.
    fn allows_up_to(
        self,
        alloc: Global,
        tokens: &[Token<'_>],
        end: usize,
    ) -> Result<bool, AllocError> {
        let start = self.tokens_before(tokens, end);
        Ok(self.kind.completion(alloc, start)?.is_some())
    }
}
