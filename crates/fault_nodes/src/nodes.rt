//! Nodes of a ruleset by their places.
use rule_check::CheckFault;

/// A node of a ruleset. Each index counts from 0 in text order, `item` among all items of its
/// table, comments included.
#[derive(Clone, Copy)]
pub enum Node {
    /// A table, as far as its own name.
    Table {
        table: usize,
    },
    /// A chain, set, map or comment of a table, without its rules or elements.
    Item {
        table: usize,
        item: usize,
    },
    /// A rule, without its statements.
    Rule {
        table: usize,
        item: usize,
        rule: usize,
    },
    /// A statement, without the elements of its anonymous set or map.
    Statement {
        table: usize,
        item: usize,
        rule: usize,
        statement: usize,
    },
    /// An element of a named set or map.
    Element {
        table: usize,
        item: usize,
        element: usize,
    },
    /// An element of the anonymous set or map in a statement.
    AnonymousElement {
        table: usize,
        item: usize,
        rule: usize,
        statement: usize,
        element: usize,
    },
}

/// A fault, and the node with which a ruleset gets it.
#[derive(Clone, Copy)]
pub struct FaultyNode {
    pub fault: CheckFault,
    pub node: Node,
    /// How many declarations and parts are read before the node.
    pub position: usize,
}
