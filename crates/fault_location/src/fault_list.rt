//! Lists all faults of a ruleset and its box file: a part with a fault is taken out, and the rest is
//! read again.
use crate::box_place::faulty_line;
use crate::faults::{Fault, Sources, box_fault, read_box};
use crate::node_place::fault_word;
use crate::node_search::faulty_nodes;
use crate::text_place::{SyntaxPlace, lexical_place, syntax_place};
use box_file::Plant;
use fault_nodes::Node;
use fault_places::{
    Position, Span, bytes_of, heads_around, holds, is_in_one, mask, position_at, span_of, tokens_of,
};
use fault_spans::node_range;
use nft_lexer::{LexError, LexFault, Punctuator, Token, TokenKind, lex};
use nft_parser::TextFault;
use nft_rulesets::{has_unsupported, ruleset};
use nft_tree::Ruleset;
use node_spans::TokenRange;
use rule_check::CheckFault;
use std::alloc::{AllocError, Global};
use token_reader::after_punctuator;
use unread_parts::{Part, PartKind, braces_match, unread_parts};

/// The most faults that are listed, per text.
pub const MOST: usize = 100;

/// A fault that was found.
#[derive(Clone, Copy)]
struct FoundFault {
    offset: usize,
    /// None where it follows from a declaration that was taken out, and isn't listed.
    fault: Option<Fault>,
}

/// One line for each fault, in the order of the text: the ruleset's and then the box file's, at
/// most a hundred of either, with a last line where there may be more.
///
/// # Errors
/// `AllocError` for want of memory.
pub fn all_faults(alloc: Global, sources: Sources<'_>) -> Result<String, AllocError> {
    let mut lines = String::new(alloc);
    let mut rules = FaultList::new(alloc, sources.paths.rules, sources.rules);
    rules.put_rules(sources.network, &mut lines)?;
    let mut network = FaultList::new(alloc, sources.paths.network, sources.network);
    network.put_box(&mut lines)?;
    Ok(lines)
}

/// A text and its faults.
#[derive(Drop)]
struct FaultList<'a> {
    alloc: Global,
    path: &'a str,
    text: &'a [u8],
    found: Vec<FoundFault>,
    /// The names of declarations that were taken out: uses of them aren't faults.
    removed: Vec<Vec<u8>>,
    /// Whether a fault of what is left has no known place, so nothing more is found.
    is_stuck: bool,
    /// Whether something was taken out that isn't judged.
    is_partial: bool,
}

impl<'a> FaultList<'a> {
    fn new(alloc: Global, path: &'a str, text: &'a [u8]) -> FaultList<'a> {
        FaultList {
            alloc,
            path,
            text,
            found: Vec::new(alloc),
            removed: Vec::new(alloc),
            is_stuck: false,
            is_partial: false,
        }
    }

    /// Whether more faults may be listed.
    fn is_open(&self) -> bool {
        self.found.len() < MOST && !self.is_stuck
    }

    fn add(&mut self, offset: usize, fault: Option<Fault>) -> Result<(), AllocError> {
        self.found.push(FoundFault { offset, fault })?;
        Ok(())
    }

    /// Writes the faults of a box file.
    fn put_box(&mut self, lines: &mut String) -> Result<(), AllocError> {
        self.remove_box_lines(&mut self.text.to_vec(self.alloc)?)?;
        self.write_to(lines, &tokens_of(self.alloc, self.text)?)
    }

    /// Removes the lines of a box file that have a fault.
    fn remove_box_lines(&mut self, left: &mut Vec<u8>) -> Result<(), AllocError> {
        for _ in 0..MOST {
            let Some(fault) = box_fault(self.alloc, left)? else {
                return Ok(());
            };
            let Some(line) = faulty_line(self.alloc, left, fault)? else {
                self.is_stuck = true;
                return Ok(());
            };
            mask(left, &[line]);
            self.add(line.start, Some(Fault::Box(fault)))?;
        }
        Ok(())
    }

    /// Writes the faults of a ruleset. What has one is taken out, until the rest can be read and is
    /// accepted, or can't be judged.
    fn put_rules(&mut self, network: &[u8], lines: &mut String) -> Result<(), AllocError> {
        let network = read_box(self.alloc, network)?;
        self.is_partial = network.is_none();
        let mut left = self.text.to_vec(self.alloc)?;
        for _ in 0..MOST {
            let fault = match lex(self.alloc, &left) {
                Ok(tokens) => {
                    self.list_rules(&tokens, network.as_ref())?;
                    return self.write_to(lines, &tokens);
                }
                Err(LexError::Refused(fault)) => fault,
                Err(LexError::Memory) => return Err(AllocError),
            };
            self.mark_byte(&mut left, fault)?;
            if self.is_stuck {
                break;
            }
        }
        self.write_to(lines, &tokens_of(self.alloc, &left)?)
    }

    /// Puts a mark in place of what is no token, with which the part around it can't be read, unless
    /// that is of more lines than this one.
    fn mark_byte(&mut self, left: &mut [u8], fault: LexFault) -> Result<(), AllocError> {
        let Some(offset) = lexical_place(left, fault) else {
            self.is_stuck = true;
            return Ok(());
        };
        self.add(offset, Some(Fault::Text(TextFault::Lexical(fault))))?;
        let part = faulty_bytes(left, offset);
        mask(left, &[part]);
        if !is_of_block(left, offset)
            && let Some(byte) = left.get_mut(offset)
        {
            *byte = b'=';
        }
        Ok(())
    }

    /// Lists the faults of a ruleset of these tokens.
    fn list_rules(
        &mut self,
        tokens: &[Token<'_>],
        network: Option<&Plant>,
    ) -> Result<(), AllocError> {
        let mut left = tokens.to_vec(self.alloc)?;
        for round in 0..tokens.len() {
            if !self.is_open() {
                break;
            }
            let gone = self.list_tokens(&left, network, round > 0)?;
            if gone.is_empty() {
                break;
            }
            left.retain(|token| !is_in_one(&gone, token.start));
        }
        Ok(())
    }

    /// Lists the parts of a ruleset that can't be read, or else the nodes that are refused, and gives
    /// the bytes that are taken out for them.
    fn list_tokens(
        &mut self,
        tokens: &[Token<'_>],
        network: Option<&Plant>,
        is_again: bool,
    ) -> Result<Vec<Span>, AllocError> {
        let Some(tree) = ruleset(self.alloc, tokens)? else {
            return self.list_unread(tokens, is_again);
        };
        match network {
            Some(network) => self.list_refused(tokens, &tree, network),
            None => Ok(Vec::new(self.alloc)),
        }
    }

    /// Lists parts that can't be read, but for those in which, or, where they are read again, in whose
    /// items, a fault is listed already. Where braces don't match, they aren't known, and the text's
    /// one fault is listed.
    fn list_unread(
        &mut self,
        tokens: &[Token<'_>],
        is_again: bool,
    ) -> Result<Vec<Span>, AllocError> {
        let mut gone = Vec::new(self.alloc);
        if !braces_match(tokens) {
            self.is_stuck = true;
            self.list_place(tokens)?;
            return Ok(gone);
        }
        for part in &unread_parts(self.alloc, tokens)? {
            let first = match part.item {
                Some(item) if is_again => item,
                _ => part.first,
            };
            if self.is_open() && !self.has_found_in(between(tokens, first, part.end)) {
                self.list_part(tokens, *part)?;
            }
            if part.item.is_none() && matches!(part.kind, PartKind::Tables | PartKind::Item) {
                self.note_removed(tokens.get(part.first..part.end).unwrap_or(&[]))?;
            }
            gone.push(between(tokens, part.first, part.next))?;
        }
        Ok(gone)
    }

    /// Lists the fault of a ruleset whose parts aren't known, without the tokens of those that are listed.
    fn list_place(&mut self, tokens: &[Token<'_>]) -> Result<(), AllocError> {
        let fault = if has_unsupported(tokens) {
            TextFault::Unsupported
        } else {
            TextFault::Syntax
        };
        let mut left = Vec::new(self.alloc);
        for token in tokens {
            if !self.has_found_in(span_of(token)) {
                left.push(*token)?;
            }
        }
        match syntax_place(self.alloc, &left, fault)? {
            Some(place) => self.add(place.offset(&left), Some(Fault::Text(fault))),
            None => Ok(()),
        }
    }

    /// Lists the fault of a part.
    fn list_part(&mut self, tokens: &[Token<'_>], part: Part) -> Result<(), AllocError> {
        let (at, fault) = match part.unsupported_word(tokens) {
            Some(word) => (word, TextFault::Unsupported),
            None => (part.first_refused(self.alloc, tokens)?, TextFault::Syntax),
        };
        let place = SyntaxPlace::Part { at, part };
        self.add(place.offset(tokens), Some(Fault::Text(fault)))
    }

    /// Whether a fault was found in some bytes.
    fn has_found_in(&self, bytes: Span) -> bool {
        let mut all = self.found.iter();
        all.any(|found| holds(bytes, found.offset))
    }

    /// Notes the name of a declaration that is taken out, and whether rules or elements are lost.
    fn note_removed(&mut self, tokens: &[Token<'_>]) -> Result<(), AllocError> {
        self.is_partial = self.is_partial || has_parts(tokens);
        if let Some(name) = tokens.get(1) {
            self.removed.push(name.text.to_vec(self.alloc)?)?;
        }
        Ok(())
    }

    /// Lists nodes of a ruleset that are refused.
    fn list_refused(
        &mut self,
        tokens: &[Token<'_>],
        tree: &Ruleset,
        network: &Plant,
    ) -> Result<Vec<Span>, AllocError> {
        let mut gone = Vec::new(self.alloc);
        for found in &faulty_nodes(self.alloc, tree, network)? {
            if self.is_open()
                && !self.is_listed(found.fault)
                && let Some(range) = node_range(self.alloc, tokens, found.node)?
            {
                let its_tokens = tokens.get(range.first..range.end).unwrap_or(&[]);
                let word = fault_word(self.alloc, tree, network, *found, its_tokens)?;
                self.add_refused(found.fault, word)?;
                gone.push(self.removed_for(found.node, tokens, range, word)?)?;
            }
        }
        Ok(gone)
    }

    /// Whether a fault is one of the ruleset as a whole that no rule has alone, and is listed already.
    fn is_listed(&self, fault: CheckFault) -> bool {
        let is_wide = matches!(
            fault,
            CheckFault::TooDeep | CheckFault::TooCostly | CheckFault::TooLarge
        );
        let mut all = self.found.iter();
        is_wide
            && all.any(|found| {
                matches!(found.fault, Some(Fault::Check(listed)) if listed as u8 == fault as u8)
            })
    }

    /// Lists the fault of a node at a word, unless it follows from a declaration that was taken out.
    fn add_refused(&mut self, fault: CheckFault, word: Span) -> Result<(), AllocError> {
        let name = bytes_of(self.text, word);
        let is_name = matches!(fault, CheckFault::NoSuchChain | CheckFault::NoSuchSet);
        let mut removed = self.removed.iter();
        if is_name && removed.any(|removed| removed.as_slice() == name) {
            self.is_partial = true;
            return self.add(word.start, None);
        }
        self.add(word.start, Some(Fault::Check(fault)))
    }

    /// The bytes that are taken out for a node: of a chain with a wrong head the word, without which
    /// the head can't be read; else its tokens, with the comma behind an element.
    fn removed_for(
        &mut self,
        node: Node,
        tokens: &[Token<'_>],
        range: TokenRange,
        word: Span,
    ) -> Result<Span, AllocError> {
        let TokenRange { first, end } = range;
        if let Node::Table { .. } | Node::Item { .. } = node {
            if start_of(tokens, first) < word.start {
                return Ok(word);
            }
            self.note_removed(tokens.get(first..end).unwrap_or(&[]))?;
        }
        let comma = after_punctuator(tokens, end, Punctuator::Comma);
        Ok(between(tokens, first, comma.unwrap_or(end)))
    }

    /// Writes a line for each fault, in the order of the text, where these tokens are those around
    /// them, and a last line where there may be more.
    fn write_to(&mut self, lines: &mut String, tokens: &[Token<'_>]) -> Result<(), AllocError> {
        self.found.sort_by_key(|found| found.offset)?;
        for found in &self.found {
            let around = heads_around(self.alloc, tokens, found.offset)?;
            if let Some(fault) = found.fault {
                self.write_fault(lines, fault, found.offset, around.as_str())?;
            }
        }
        let path = self.path;
        if self.is_stuck || self.is_partial {
            return writeln!(lines, "{path}: not all of it could be judged");
        }
        if self.found.len() >= MOST {
            writeln!(lines, "{path}: there may be more faults than these {MOST}")?;
        }
        Ok(())
    }

    /// Writes where a fault is, its code, what is around it, if that's known, and what it means.
    fn write_fault(
        &self,
        lines: &mut String,
        fault: Fault,
        offset: usize,
        around: &str,
    ) -> Result<(), AllocError> {
        if offset > self.text.len() {
            return Ok(());
        }
        let (path, at) = (self.path, position_at(self.text, offset));
        let code = fault.code(self.alloc)?;
        let code = code.as_str();
        write!(lines, "{path}:{}:{}: {code}", at.line, at.column)?;
        if !around.is_empty() {
            write!(lines, " ({around})")?;
        }
        match explanations::explain(code) {
            Some(known) => writeln!(lines, ": {}", known.sentence),
            None => lines.push('\n'),
        }
    }
}

/// Whether the line at an offset opens or closes a brace, and so belongs to more lines.
fn is_of_block(text: &[u8], offset: usize) -> bool {
    if offset > text.len() {
        return false;
    }
    let Position { start, end, .. } = position_at(text, offset);
    let line = bytes_of(text, Span { start, end });
    line.contains(&b'{') != line.contains(&b'}')
}

/// What is no token: the bytes up to a blank, of a string up to the line's end.
fn faulty_bytes(text: &[u8], offset: usize) -> Span {
    let rest = text.get(offset..).unwrap_or(&[]);
    let is_string = rest.starts_with(b"\"");
    let length = rest
        .iter()
        .position(|byte| *byte == b'\n' || (!is_string && matches!(*byte, b' ' | b'\t' | b';')))
        .unwrap_or(rest.len());
    Span {
        start: offset,
        end: offset.saturating_add(length.max(1)),
    }
}

/// The bytes from a token up to another one.
fn between(tokens: &[Token<'_>], first: usize, end: usize) -> Span {
    Span {
        start: start_of(tokens, first),
        end: start_of(tokens, end),
    }
}

/// Where a token begins; behind each text where there is none.
fn start_of(tokens: &[Token<'_>], at: usize) -> usize {
    match tokens.get(at) {
        Some(token) => token.start,
        None => usize::MAX,
    }
}

/// Whether a table or a chain has anything behind its opening brace, or a set or a map elements.
fn has_parts(tokens: &[Token<'_>]) -> bool {
    let Some(kind) = tokens.first() else {
        return false;
    };
    let inner = tokens.get(3..tokens.len().saturating_sub(1));
    let mut inner = inner.unwrap_or(&[]).iter();
    match str::from_utf8(kind.text) {
        Ok("table" | "chain") => inner.any(|token| !matches!(token.kind, TokenKind::NewLine)),
        Ok("set" | "map") => inner.any(|token| token.text == b"elements".as_slice()),
        _ => false,
    }
}
