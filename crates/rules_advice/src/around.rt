//! What is around a fault of a ruleset.
use crate::names::{Kind, item_named};
use advice::lists;
use fault_nodes::Node;
use fault_places::{Words, tokens_around};
use nft_lexer::Token;
use nft_tree::{Item, Ruleset, Table};
use std::alloc::{AllocError, Global};

/// In how many braces rules stand.
const IN_RULE: usize = 2;

/// A text, its tokens, and the ruleset that they spell.
#[derive(Clone, Copy)]
pub struct Source<'a> {
    pub text: &'a [u8],
    pub tokens: &'a [Token<'a>],
    pub tree: &'a Ruleset,
}

/// A fault at a word of a ruleset, and what is around it.
#[derive(Drop)]
pub struct Around<'a> {
    pub tree: &'a Ruleset,
    pub table: &'a Table,
    /// The chain, the set or the map, if it is in one.
    pub item: Option<&'a Item>,
    pub is_in_rule: bool,
    /// The words of the rule or the declaration.
    pub words: Words<'a>,
    /// The number of the word at it.
    pub at: usize,
}

impl<'a> Around<'a> {
    /// What is around an offset in a node; `None` where there is no such node.
    pub fn new(
        alloc: Global,
        source: Source<'a>,
        node: Node,
        offset: usize,
    ) -> Result<Option<Around<'a>>, AllocError> {
        let Source { tokens, tree, .. } = source;
        let (depth, table, item) = place_of(node);
        let Some(table) = tree.tables.get(table) else {
            return Ok(None);
        };
        let words = Words::among(alloc, tokens_around(tokens, offset, depth))?;
        Ok(Some(Around {
            tree,
            table,
            item: table.items.get(item.unwrap_or(usize::MAX)),
            is_in_rule: depth == IN_RULE,
            at: words.count_before(offset),
            words,
        }))
    }

    /// The word at the place.
    pub fn here(&self) -> &'a str {
        self.words.get(self.at)
    }

    /// The word so many places before it.
    pub fn before(&self, places: usize) -> &'a str {
        self.words.before(self.at, places)
    }

    /// The number of the last word before it that is one of these, with a blank between two.
    pub fn last_of(&self, words: &str) -> Option<usize> {
        for places in 1..self.at.saturating_add(1) {
            if lists(words, self.before(places)) {
                return self.at.checked_sub(places);
            }
        }
        None
    }

    /// The set or map that a rule names at the place, or else the declaration that it is in outside
    /// of rules.
    pub fn set(&self) -> Option<&'a Item> {
        if self.before(1) == "@" {
            let number = item_named(self.table, Kind::Set, self.here())?;
            return self.table.items.get(number);
        }
        if self.is_in_rule { None } else { self.item }
    }
}

/// In how many braces the rule around a node stands, or else the declaration; and the numbers of its
/// table and of its item.
fn place_of(node: Node) -> (usize, usize, Option<usize>) {
    match node {
        Node::Table { table } => (0, table, None),
        Node::Item { table, item } | Node::Element { table, item, .. } => (1, table, Some(item)),
        Node::Rule { table, item, .. }
        | Node::Statement { table, item, .. }
        | Node::AnonymousElement { table, item, .. } => (IN_RULE, table, Some(item)),
    }
}
