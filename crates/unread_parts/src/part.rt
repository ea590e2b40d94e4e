//! Parts of a ruleset that are read by themselves.
ghost use Rattle.std.specs.Prelude.{IfSome};
ghost use Rattle.nft_parser.specs.Beginnings.{IsUnsupportedAt};

use nft_lexer::Token;
use nft_parser::{joined, unsupported_word};
use nft_rulesets::{Elements, EndedRule, Pairs, TableItem, ruleset};
use std::alloc::{AllocError, Global};
use token_reader::{Production, skip_ends};

/// What a part of a ruleset is, and so the production that reads it.
#[derive(Clone, Copy, PartialEq)]
pub enum PartKind {
    /// Tables.
    Tables,
    /// A comment, a chain, a set or a map of a table.
    Item,
    /// A rule.
    Rule,
    /// An element of a set.
    Element,
    /// An element of a map.
    Pair,
}

/// A part of a ruleset that can't be read, by its tokens.
#[derive(Clone, Copy)]
pub struct Part {
    pub kind: PartKind,
    /// The first token of what is read: for a line of a chain, a set or a map that is no rule, that of
    /// the whole item.
    pub start: usize,
    /// The tokens that can't be read, `end` exclusive; of a line that is no rule with the brace behind
    /// it that closes the item.
    pub first: usize,
    pub end: usize,
    /// The token behind it, from which on the ruleset is read without it.
    pub next: usize,
    /// The first token of the item around it, if it's in one.
    pub item: Option<usize>,
}

impl PartKind {
    /// Whether it stands in a list, up to whose brace it is read.
    pub fn is_in_list(self) -> bool {
        matches!(self, PartKind::Element | PartKind::Pair)
    }

    /// Whether a part is read with this text behind it.
    ///
    /// # Errors
    /// `AllocError` for want of memory.
    pub fn reads_with(
        self,
        alloc: Global,
        part: &[Token<'_>],
        text: &str,
    ) -> Result<bool, AllocError> {
        let brace = if self.is_in_list() { "}" } else { "" };
        let behind = format!(in alloc; "{text}{brace}\n")?;
        let Some(tokens) = joined(alloc, part, behind.as_str())? else {
            return Ok(false);
        };
        let end = match self {
            PartKind::Tables => return Ok(ruleset(alloc, &tokens)?.is_some()),
            PartKind::Item => end_of::<TableItem>(alloc, &tokens, 0)?,
            PartKind::Rule => end_of::<EndedRule>(alloc, &tokens, 0)?,
            PartKind::Element => end_of::<Elements>(alloc, &tokens, 0)?,
            PartKind::Pair => end_of::<Pairs>(alloc, &tokens, 0)?,
        };
        match end {
            Some(end) => Ok(tokens.len() <= skip_ends(&tokens, end.saturating_add(brace.len()))),
            None => Ok(false),
        }
    }
}

/// The position after the part P at a token.
pub(crate) fn end_of<P: Production>(
    alloc: Global,
    tokens: &[Token<'_>],
    at: usize,
) -> Result<Option<usize>, AllocError> {
    match P::read(alloc, tokens, at)? {
        Some((_part, end)) => Ok(Some(end)),
        None => Ok(None),
    }
}

impl Part {
    /// The first of its tokens that is an unsupported word of nft(8).
    pub fn unsupported_word(self, tokens: &[Token<'_>]) -> Option<usize>
        ensures { IfSome result (IsUnsupportedAt tokens.now) }
    {
        unsupported_word(tokens, self.first, self.end)
    }

    /// The tokens that are read, up to one.
    pub fn tokens_before<'a, 't>(self, tokens: &'a [Token<'t>], end: usize) -> &'a [Token<'t>] {
        let end = end.min(self.end).min(tokens.len());
        &tokens[self.start.min(end)..end]
    }
}
