//! The depth of each node: the most jumps on a path from it.
ghost use Rattle.std.specs.Prelude.{◌≡◌, ◌<◌, ◌+◌, ℕ, All, length, map, slice_index, IfOk, flat_map};
ghost use Rattle.chain_graph.specs.Graph.{calls_in, identity};
ghost use Rattle.chain_graph.specs.Nodes.{call_of, statements_of, node_of, graph_of, targets_of, InRange};
ghost use Rattle.chain_graph.specs.Order.{IsTopologicalOrder};
ghost use Rattle.chain_graph.specs.Measures.{saturated, IsDepth};
ghost use Rattle.chain_graph.specs.steps.Passes.{deepest, jump_of, IsWithin};

use crate::node::{Edge, Node};
use std::alloc::{AllocError, Global};

/// The depth of a call, saturated.
fn call_depth(depths: &[u64], call: &Edge) -> u64
    requires { call.now.to < length depths.now }
    ensures { result ≡ saturated (slice_index depths.now call.now.to + jump_of (call_of call.now)) }
{
    let depth = depths[call.to];
    if call.is_jump {
        depth.saturating_add(1)
    } else {
        depth
    }
}

/// The greatest depth among the calls.
fn deepest_call(depths: &[u64], calls: &[Edge]) -> u64
    requires { All (λ e. e.to < length depths.now) calls.now }
    ensures { result ≡ deepest (λ c. slice_index depths.now c) (map call_of calls.now) }
{
    let mut most = 0;
    for call in calls {
        most = most.max(call_depth(depths, call));
    }
    most
}

/// The depth of a chain, saturated.
fn chain_depth(depths: &[u64], statements: &[Vec<Edge>]) -> u64
    requires { All (λ s. All (λ e. e.to < length depths.now) s.items) statements.now }
    ensures { result ≡ deepest (λ c. slice_index depths.now c)
        (flat_map identity (statements_of statements.now)) }
{
    let mut most = 0;
    for calls in statements {
        most = most.max(deepest_call(depths, calls));
    }
    most
}

/// The depth of a node, saturated.
fn node_depth(depths: &[u64], node: &Node) -> u64
    requires { IsWithin (length depths.now) node.now }
    ensures { result ≡ deepest (λ c. slice_index depths.now c) (calls_in (node_of node.now)) }
{
    match node {
        Node::Chain(statements) => chain_depth(depths, statements),
        Node::Map(calls) => deepest_call(depths, calls),
    }
}

/// The depth of each node by index, saturated.
pub fn node_depths(alloc: Global, nodes: &[Node], order: &[usize]) -> Result<Vec<u64>, AllocError>
    requires range { InRange (graph_of nodes.now) (length nodes.now) }
    requires order { IsTopologicalOrder (targets_of (graph_of nodes.now)) order.now }
    ensures long { IfOk result (λ depths. length depths.items ≡ length nodes.now) }
    ensures depths { IfOk result (λ depths. (c : ℕ) → c < length nodes.now
        → IsDepth (graph_of nodes.now) c (slice_index depths.items c)) }
{
    let mut depths = vec![in alloc; 0u64; nodes.len()]?;
    for &node in order {
        let depth = node_depth(&depths, &nodes[node]);
        depths[node] = depth;
    }
    Ok(depths)
}
