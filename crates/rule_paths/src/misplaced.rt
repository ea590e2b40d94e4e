//! NAT statements in, or reachable from, base chains that may not have them.
ghost use Rattle.std.specs.Prelude.{◌≡◌, ◌↔◌, ◌≤◌, IsTrue, length, map, IfOk};
ghost use Rattle.nft_tree.specs.TreeViews.{chain_tree};
ghost use Rattle.chain_graph.specs.Nodes.{graph_of, targets_of};
ghost use Rattle.chain_graph.specs.Order.{IsTopologicalOrder};
ghost use Rattle.rule_paths.specs.steps.Index.{may_not_translate, may_translate, IsTableGraph, ReachesMisplaced};
ghost use Rattle.rule_paths.specs.steps.Tables.{MisplacesAs};

use crate::marks::{NatKind, marks};
use chain_graph::{Node, reaches_marked};
use nft_tree::{Chain, ChainKind, Head, Hook};
use rule_names::TableNames;
use std::alloc::{AllocError, Global};

/// Whether a base chain with this head may have NAT statements of this kind.
fn may_translate(head: &Head, kind: NatKind) -> bool
    ensures { result ≡ may_translate kind head.now.kind head.now.hook }
{
    match (head.kind, kind, head.hook) {
        (ChainKind::Nat, NatKind::Source, Hook::Postrouting) => true,
        (ChainKind::Nat, NatKind::Destination, Hook::Prerouting | Hook::Output) => true,
        _ => false,
    }
}

/// Whether the chain is a base chain that may not have NAT statements of this kind.
fn may_not_translate(chain: &Chain, kind: NatKind) -> bool
    ensures { result ≡ may_not_translate kind (chain_tree chain.now).head }
{
    match &chain.head {
        None => false,
        Some(head) => !may_translate(head, kind),
    }
}

/// Whether a base chain that may not have such NAT statements reaches one.
fn reaches_misplaced(chains: &[&Chain], reaching: &[bool], kind: NatKind) -> bool
    requires { length chains.now ≤ length reaching.now }
    ensures { IsTrue result ↔ ReachesMisplaced kind
        (map (λ c. chain_tree c.now) chains.now) reaching.now }
{
    for (index, chain) in chains.iter().enumerate() {
        if reaching[index] && may_not_translate(chain, kind) {
            return true;
        }
    }
    false
}

/// Whether a base chain that may not have NAT statements of this kind has or reaches one.
pub(crate) fn misplaces(
    alloc: Global,
    names: &TableNames,
    nodes: &[Node],
    order: &[usize],
    kind: NatKind,
) -> Result<bool, AllocError>
    requires graph { IsTableGraph names.now (graph_of nodes.now) }
    requires order { IsTopologicalOrder (targets_of (graph_of nodes.now)) order.now }
    ensures { IfOk result (λ found. IsTrue found ↔ MisplacesAs kind names.now) }
{
    let chains = names.chains();
    let marks = marks(alloc, names, nodes.len(), kind)?;
    let reaching = reaches_marked(alloc, nodes, order, &marks)?;
    Ok(reaches_misplaced(chains, &reaching, kind))
}
