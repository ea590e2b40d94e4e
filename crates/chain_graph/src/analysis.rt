//! The analysis of an acyclic graph: topological order, costs and depths.
ghost use Rattle.std.specs.Prelude.{length, IfOk, MatchOption};
ghost use Rattle.chain_graph.specs.Graph.{HasCycle};
ghost use Rattle.chain_graph.specs.Nodes.{graph_of, InRange, Calls};
ghost use Rattle.chain_graph.specs.Measures.{IsAnalysisOf};

use crate::costs::node_costs;
use crate::depths::node_depths;
use crate::node::Node;
use crate::search::{SortResult, topological_sort};
use crate::targets::all_targets;
use std::alloc::{AllocError, Global};

/// The analysis of a graph without cycles, by index of its nodes.
#[derive(Drop)]
pub struct GraphAnalysis {
    /// A topological order: each node once, after all its targets.
    pub order: Vec<usize>,
    /// The cost of each node, saturated at `u64::MAX`: of a chain, for each statement 1 and the
    /// greatest cost among its targets; of a map, the greatest cost among its targets.
    pub costs: Vec<u64>,
    /// The most jumps on a path from each node.
    pub depths: Vec<u64>,
}

/// Analyzes the graph of chains and maps; `None` if it has a cycle.
///
/// # Errors
///
/// If an allocation fails.
pub fn analyze(alloc: Global, nodes: &[Node]) -> Result<Option<GraphAnalysis>, AllocError>
    requires range { InRange (graph_of nodes.now) (length nodes.now) }
    ensures { IfOk result (λ analysis. MatchOption analysis (HasCycle (Calls (graph_of nodes.now)))
        (λ j. IsAnalysisOf (graph_of nodes.now) j)) }
{
    let sorted = topological_sort(alloc, &all_targets(alloc, nodes)?)?;
    match sorted {
        SortResult::Cycle => Ok(None),
        SortResult::Order(order) => {
            let costs = node_costs(alloc, nodes, &order)?;
            let depths = node_depths(alloc, nodes, &order)?;
            Ok(Some(GraphAnalysis {
                order,
                costs,
                depths,
            }))
        }
    }
}
