//! Which nodes reach a marked one.
ghost use Rattle.std.specs.Prelude.{◌≡◌, ◌<◌, ℕ, All, length, map, get_or, false, IfOk, IsTrue, ◌↔◌, ◌||◌, flat_map};
ghost use Rattle.chain_graph.specs.Graph.{calls_in, identity};
ghost use Rattle.chain_graph.specs.Nodes.{call_of, statements_of, node_of, graph_of, targets_of, InRange};
ghost use Rattle.chain_graph.specs.Order.{IsTopologicalOrder};
ghost use Rattle.chain_graph.specs.Measures.{ReachesMarked};
ghost use Rattle.chain_graph.specs.steps.Passes.{some_call, IsWithin};

use crate::node::{Edge, Node};
use std::alloc::{AllocError, Global};

/// Whether the target of one of the calls is reaching.
fn some_call_reaches(reaching: &[bool], calls: &[Edge]) -> bool
    requires { All (λ e. e.to < length reaching.now) calls.now }
    ensures { result ≡ some_call (λ c. get_or reaching.now c false) (map call_of calls.now) }
{
    for call in calls {
        if reaching[call.to] {
            return true;
        }
    }
    false
}

/// Whether the target of one of a chain's calls is reaching.
fn some_statement_reaches(reaching: &[bool], statements: &[Vec<Edge>]) -> bool
    requires { All (λ s. All (λ e. e.to < length reaching.now) s.items) statements.now }
    ensures { result ≡ some_call (λ c. get_or reaching.now c false)
        (flat_map identity (statements_of statements.now)) }
{
    for calls in statements {
        if some_call_reaches(reaching, calls) {
            return true;
        }
    }
    false
}

/// Whether the target of one of a node's calls is reaching.
fn some_call_of_node_reaches(reaching: &[bool], node: &Node) -> bool
    requires { IsWithin (length reaching.now) node.now }
    ensures { result ≡ some_call (λ c. get_or reaching.now c false) (calls_in (node_of node.now)) }
{
    match node {
        Node::Chain(statements) => some_statement_reaches(reaching, statements),
        Node::Map(calls) => some_call_reaches(reaching, calls),
    }
}

/// Whether a node is marked or the target of one of its calls is reaching.
fn node_reaches(is_marked: bool, reaching: &[bool], node: &Node) -> bool
    requires { IsWithin (length reaching.now) node.now }
    ensures { result ≡ is_marked
        || some_call (λ c. get_or reaching.now c false) (calls_in (node_of node.now)) }
{
    is_marked || some_call_of_node_reaches(reaching, node)
}

/// For each node, whether a path from it (of any length, also 0) ends in a marked node.
///
/// `order` is a topological order of the nodes, as `analyze` returns it.
///
/// # Errors
///
/// If an allocation fails.
pub fn reaches_marked(
    alloc: Global,
    nodes: &[Node],
    order: &[usize],
    marked: &[bool],
) -> Result<Vec<bool>, AllocError>
    requires range { InRange (graph_of nodes.now) (length nodes.now) }
    requires order { IsTopologicalOrder (targets_of (graph_of nodes.now)) order.now }
    requires marked { length marked.now ≡ length nodes.now }
    ensures long { IfOk result (λ reaching. length reaching.items ≡ length nodes.now) }
    ensures reaching { IfOk result (λ reaching. (c : ℕ) → c < length nodes.now
        → IsTrue (get_or reaching.items c false)
        ↔ ReachesMarked (graph_of nodes.now) marked.now c) }
{
    let mut reaching = vec![in alloc; false; nodes.len()]?;
    for &node in order {
        let is_reaching = node_reaches(marked[node], &reaching, &nodes[node]);
        reaching[node] = is_reaching;
    }
    Ok(reaching)
}
