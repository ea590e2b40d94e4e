//! What to do about a name that stands twice.
use crate::around::Source;
use crate::names::{declared, item_named};
use advice::{Gap, with_words};
use fault_nodes::Node;
use fault_places::position_at;
use fault_spans::node_range;
use nft_tree::{Ruleset, Table};
use std::alloc::{AllocError, Global};

/// Writes on which line the name of a node stands before.
pub fn put_duplicate(
    alloc: Global,
    source: Source<'_>,
    node: Node,
    lines: &mut String,
) -> Result<(), AllocError> {
    if let Some(other) = namesake(source.tree, node)
        && let Some(range) = node_range(alloc, source.tokens, other)?
        && let Some(token) = source.tokens.get(range.first)
        && token.start <= source.text.len()
    {
        let line = Gap::Number(position_at(source.text, token.start).line as u64);
        let sentence = "Line {} has that name: give this one a name of its own.";
        return with_words(sentence, line).put(alloc, lines);
    }
    Ok(())
}

/// The first node with the name of this one.
fn namesake(tree: &Ruleset, node: Node) -> Option<Node> {
    match node {
        Node::Table { table } => same_table(tree, tree.tables.get(table)?),
        Node::Item { table, item } => {
            let own = tree.tables.get(table)?;
            let (kind, name) = declared(own.items.get(item)?)?;
            let item = item_named(own, kind, name)?;
            Some(Node::Item { table, item })
        }
        _ => None,
    }
}

/// The first table with the family and the name of another one.
fn same_table(tree: &Ruleset, own: &Table) -> Option<Node> {
    for (table, other) in tree.tables.iter().enumerate() {
        if other.family == own.family && other.name == own.name {
            return Some(Node::Table { table });
        }
    }
    None
}
