//! The cost of each node: the greatest number of statements that one packet can meet from there.
//! Sums saturate at `u64::MAX`, since costs can grow exponentially with the number of chains.
ghost use Rattle.std.specs.Prelude.{◌≡◌, ◌<◌, ℕ, All, length, map, slice_index, IfOk};
ghost use Rattle.chain_graph.specs.Graph.{chain_cost, greatest, node_cost};
ghost use Rattle.chain_graph.specs.Nodes.{call_of, statements_of, node_of, graph_of, targets_of, InRange};
ghost use Rattle.chain_graph.specs.Order.{IsTopologicalOrder};
ghost use Rattle.chain_graph.specs.Measures.{saturated, IsCost};
ghost use Rattle.chain_graph.specs.steps.Passes.{IsWithin};

use crate::node::{Edge, Node};
use std::alloc::{AllocError, Global};

/// The greatest cost among the calls' targets.
fn greatest(costs: &[u64], calls: &[Edge]) -> u64
    requires { All (λ e. e.to < length costs.now) calls.now }
    ensures { result ≡ greatest (λ c. slice_index costs.now c) (map call_of calls.now) }
{
    let mut most = 0;
    for call in calls {
        most = most.max(costs[call.to]);
    }
    most
}

/// The cost of a chain, saturated.
fn chain_cost(costs: &[u64], statements: &[Vec<Edge>]) -> u64
    requires { All (λ s. All (λ e. e.to < length costs.now) s.items) statements.now }
    ensures { result
        ≡ saturated (chain_cost (λ c. slice_index costs.now c) (statements_of statements.now)) }
{
    let mut sum = 0u64;
    for calls in statements {
        sum = sum.saturating_add(1).saturating_add(greatest(costs, calls));
    }
    sum
}

/// The cost of a node, saturated.
fn node_cost(costs: &[u64], node: &Node) -> u64
    requires { IsWithin (length costs.now) node.now }
    ensures { result ≡ saturated (node_cost (λ c. slice_index costs.now c) (node_of node.now)) }
{
    match node {
        Node::Chain(statements) => chain_cost(costs, statements),
        Node::Map(calls) => greatest(costs, calls),
    }
}

/// The cost of each node by index, saturated.
pub fn node_costs(alloc: Global, nodes: &[Node], order: &[usize]) -> Result<Vec<u64>, AllocError>
    requires range { InRange (graph_of nodes.now) (length nodes.now) }
    requires order { IsTopologicalOrder (targets_of (graph_of nodes.now)) order.now }
    ensures long { IfOk result (λ costs. length costs.items ≡ length nodes.now) }
    ensures costs { IfOk result (λ costs. (cost : ℕ → ℕ) → IsCost (graph_of nodes.now) cost
        → (c : ℕ) → c < length nodes.now → slice_index costs.items c ≡ saturated (cost c)) }
{
    let mut costs = vec![in alloc; 0u64; nodes.len()]?;
    for &node in order {
        let cost = node_cost(&costs, &nodes[node]);
        costs[node] = cost;
    }
    Ok(costs)
}
