//! The targets of each node, without the kind of call.
ghost use Rattle.std.specs.Prelude.{◌≡◌, ◌++◌, map, IfOk, OnOk, flat_map};
ghost use Rattle.chain_graph.specs.Graph.{calls_in, identity};
ghost use Rattle.chain_graph.specs.Nodes.{call_of, statements_of, node_of, graph_of, targets_of};
ghost use Rattle.chain_graph.specs.steps.Targets.{rows_of};

use crate::node::{Edge, Node};
use std::alloc::{AllocError, Global};

fn add_targets(targets: &mut Vec<usize>, calls: &[Edge]) -> Result<(), AllocError>
    ensures { OnOk result (targets.new.items
        ≡ targets.old.items ++ map (λ e. e.to) (map call_of calls.now)) }
{
    for call in calls {
        targets.push(call.to)?;
    }
    Ok(())
}

fn add_chain_targets(targets: &mut Vec<usize>, statements: &[Vec<Edge>]) -> Result<(), AllocError>
    ensures { OnOk result (targets.new.items
        ≡ targets.old.items ++ map (λ e. e.to) (flat_map identity (statements_of statements.now))) }
{
    for calls in statements {
        add_targets(targets, calls)?;
    }
    Ok(())
}

fn node_targets(alloc: Global, node: &Node) -> Result<Vec<usize>, AllocError>
    ensures { IfOk result (λ targets. targets.items
        ≡ map (λ e. e.to) (calls_in (node_of node.now))) }
{
    let mut targets = Vec::new(alloc);
    match node {
        Node::Chain(statements) => add_chain_targets(&mut targets, statements)?,
        Node::Map(calls) => add_targets(&mut targets, calls)?,
    }
    Ok(targets)
}

/// The targets of each node, by index.
pub fn all_targets(alloc: Global, nodes: &[Node]) -> Result<Vec<Vec<usize>>, AllocError>
    ensures { IfOk result (λ all. rows_of all.items ≡ targets_of (graph_of nodes.now)) }
{
    let mut all = Vec::with_capacity(alloc, nodes.len())?;
    for node in nodes {
        all.push(node_targets(alloc, node)?)?;
    }
    Ok(all)
}
