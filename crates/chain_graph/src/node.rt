//! Nodes and edges of the call graph.

/// A jump or goto verdict to a chain, or a statement's lookup in a verdict map.
#[derive(Clone, Copy)]
pub struct Edge {
    /// The index of the target.
    pub to: usize,
    /// Whether it is a jump, which pushes a return position. A goto doesn't, nor does a lookup.
    pub is_jump: bool,
}

/// A node of the call graph. A named map is a node of its own, so that its elements are stored once
/// however many statements look them up.
#[derive(Drop)]
pub enum Node {
    /// A chain: for each statement its edges.
    Chain(Vec<Vec<Edge>>),
    /// A verdict map: the edges of its elements.
    Map(Vec<Edge>),
}
