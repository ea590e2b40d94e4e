//! Walks through a ruleset by its levels.
use crate::braces::{after_newlines, brace_of_line, closing_brace, is};
use crate::part::{Part, PartKind, end_of};
use nft_lexer::Token;
use nft_rulesets::{
    AnyField, AnyTable, Elements, EndedRule, MapTypes, Pairs, SetTypes, TableItem, block_start,
    chain_start, elements_start, ruleset_start, table_start,
};
use std::alloc::{AllocError, Global};
use token_reader::{Production, skip_ends};

/// The parts of a ruleset that can't be read, in text order; all of it where each part can be.
///
/// # Errors
/// `AllocError` for want of memory.
pub fn unread_parts(alloc: Global, tokens: &[Token<'_>]) -> Result<Vec<Part>, AllocError> {
    let mut walk = Walk {
        alloc,
        tokens,
        found: Vec::new(alloc),
    };
    for &(first, end) in &walk.unread::<AnyTable>(ruleset_start(tokens), tokens.len())? {
        walk.read_table(first, end)?;
    }
    Ok(walk.found)
}

/// What was found so far.
#[derive(Drop)]
struct Walk<'a, 't> {
    alloc: Global,
    tokens: &'a [Token<'t>],
    found: Vec<Part>,
}

impl<'a, 't> Walk<'a, 't> {
    /// Whether a token is this word.
    fn is(&self, at: usize, word: &[u8]) -> bool {
        is(self.tokens, at, word)
    }

    fn add(&mut self, kind: PartKind, first: usize, end: usize) -> Result<(), AllocError> {
        self.found.push(Part {
            kind,
            start: first,
            first,
            end,
            next: end,
            item: None,
        })?;
        Ok(())
    }

    /// The blocks P between two tokens that can't be read, each by its first token and its end.
    fn unread<P: Production>(
        &self,
        start: usize,
        end: usize,
    ) -> Result<Vec<(usize, usize)>, AllocError> {
        let mut unread = Vec::new(self.alloc);
        let mut at = start;
        for _ in start..end {
            if end <= at {
                break;
            }
            let read = end_of::<P>(self.alloc, self.tokens, at)?;
            let after = read.unwrap_or(self.block_end(at));
            if read.is_none() {
                unread.push((at, after))?;
            }
            at = skip_ends(self.tokens, after);
        }
        Ok(unread)
    }

    /// Reads the items of a table that can't be read.
    fn read_table(&mut self, first: usize, end: usize) -> Result<(), AllocError> {
        let before = self.found.len();
        if let Some((_name, start)) = table_start(self.tokens, first) {
            for &(item, after) in &self.unread::<TableItem>(start, end.saturating_sub(1))? {
                self.read_item(item, after)?;
            }
        }
        if self.found.len() == before {
            self.add(PartKind::Tables, first, end)?;
        }
        Ok(())
    }

    /// Reads the lines of an item that can't be read.
    fn read_item(&mut self, item: usize, end: usize) -> Result<(), AllocError> {
        let before = self.found.len();
        let last = end.saturating_sub(1);
        if let Some((_start, at)) = chain_start(self.alloc, self.tokens, item)? {
            self.read_lines::<EndedRule>(item, at, last)?;
        } else if let Some((_name, at)) = block_start(self.tokens, item, b"set") {
            self.read_lines::<AnyField<SetTypes, Elements>>(item, at, last)?;
        } else if let Some((_name, at)) = block_start(self.tokens, item, b"map") {
            self.read_lines::<AnyField<MapTypes, Pairs>>(item, at, last)?;
        }
        if self.found.len() == before {
            self.add(PartKind::Item, item, end)?;
        }
        Ok(())
    }

    /// Reads the lines P of an item between two tokens.
    fn read_lines<P: Production>(
        &mut self,
        item: usize,
        start: usize,
        end: usize,
    ) -> Result<(), AllocError> {
        let mut at = start;
        for _ in start..end {
            if end <= at {
                break;
            }
            let mut after = closing_brace(self.tokens, at, true).min(end);
            if end_of::<P>(self.alloc, self.tokens, at)? != Some(after) {
                let next = self.after_policy(at, after).min(end);
                self.read_line(item, at, after, next)?;
                after = next;
            }
            at = skip_ends(self.tokens, after);
        }
        Ok(())
    }

    /// Adds a line of an item that can't be read, of a list the elements that can't be.
    fn read_line(
        &mut self,
        item: usize,
        first: usize,
        end: usize,
        next: usize,
    ) -> Result<(), AllocError> {
        let before = self.found.len();
        if let Some(start) = elements_start(self.tokens, first) {
            self.read_elements(item, start, end.saturating_sub(1))?;
        }
        if self.found.len() > before {
            return Ok(());
        }
        let is_head = self.is(first, b"type") || self.is(first, b"policy");
        let is_rule = self.is(item, b"chain") && !is_head && !self.is(first, b"comment");
        let (kind, start, end) = if is_rule {
            (PartKind::Rule, first, end)
        } else {
            // With the brace behind it.
            let brace = self.is(end, b"}") as usize;
            (PartKind::Item, item, end.saturating_add(brace))
        };
        self.found.push(Part {
            kind,
            start,
            first,
            end,
            next,
            item: Some(item),
        })?;
        Ok(())
    }

    /// The end of a line; behind a chain's type that of the policy, which can't stand without it.
    fn after_policy(&self, first: usize, end: usize) -> usize {
        let next = skip_ends(self.tokens, end);
        if self.is(first, b"type") && self.is(next, b"policy") {
            return closing_brace(self.tokens, next, true);
        }
        end
    }

    /// Adds the elements of a list that can't be read, each with the comma behind it.
    fn read_elements(&mut self, item: usize, start: usize, end: usize) -> Result<(), AllocError> {
        let kind = if self.is(item, b"map") {
            PartKind::Pair
        } else {
            PartKind::Element
        };
        let mut from = start;
        for behind in start..end.saturating_add(1) {
            if behind < end && !self.is(behind, b",") {
                continue;
            }
            let first = after_newlines(self.tokens, from, behind);
            let element = self.tokens.get(first..behind).unwrap_or(&[]);
            from = behind.saturating_add(1);
            if !element.is_empty() && !kind.reads_with(self.alloc, element, "")? {
                self.add(kind, first, from.min(end))?;
            }
        }
        Ok(())
    }

    /// The position behind the braces that open in the line at a token, or else its end; behind a brace
    /// that closes nothing.
    fn block_end(&self, first: usize) -> usize {
        let end = match brace_of_line(self.tokens, first) {
            Some(brace) => {
                closing_brace(self.tokens, brace.saturating_add(1), false).saturating_add(1)
            }
            None => closing_brace(self.tokens, first, true),
        };
        end.max(first.saturating_add(1)).min(self.tokens.len())
    }
}
