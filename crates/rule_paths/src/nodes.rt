//! Building the call graph of a table.
ghost use Rattle.std.specs.Prelude.{◌≡◌, ◌++◌, map, IfOk, Some};
ghost use Rattle.std.specs.Option.{option_map};
ghost use Rattle.nft_tree.specs.TreeViews.{chain_tree, map_tree, pair_tree, rule_tree, statement, verdict_tree};
ghost use Rattle.chain_graph.specs.Nodes.{call_of, graph_of, node_of as node_tree, statements_of};
ghost use Rattle.rule_paths.specs.Paths.{a_chain, pair_calls, statement_calls, verdict_calls};
ghost use Rattle.rule_paths.specs.steps.Index.{call_if, chain_at, index_of, map_at, numbered_call, IsTableGraph};

use crate::numbers::{chain_number, map_number};
use chain_graph::{Edge, Node};
use nft_tree::{Chain, Data, MapDecl, MapRef, Pair, Rule, Stmt, Verdict};
use rule_names::TableNames;
use std::alloc::{AllocError, Global};

/// The edge of a jump or goto to the chain with that name.
fn chain_edge(names: &TableNames, name: &[u8], is_jump: bool) -> Edge
    ensures to { result.to ≡ index_of names.now (a_chain name.now) }
    ensures is_jump { result.is_jump ≡ is_jump }
{
    Edge {
        to: chain_number(names, name),
        is_jump,
    }
}

/// The edge of a jump or goto verdict; `None` for any other verdict.
fn verdict_edge(names: &TableNames, verdict: &Verdict) -> Option<Edge>
    ensures { call_if (option_map call_of result)
        ≡ map (numbered_call (index_of names.now)) (verdict_calls (verdict_tree verdict.now)) }
{
    match verdict {
        Verdict::Jump(name) => Some(chain_edge(names, name, true)),
        Verdict::Goto(name) => Some(chain_edge(names, name, false)),
        Verdict::Accept | Verdict::Drop | Verdict::Continue | Verdict::Return => None,
    }
}

/// The edges of the verdicts in these map elements.
fn pair_edges(alloc: Global, names: &TableNames, pairs: &[Pair]) -> Result<Vec<Edge>, AllocError>
    ensures { IfOk result (λ edges. map call_of edges.items
        ≡ map (numbered_call (index_of names.now)) (pair_calls (map pair_tree pairs.now))) }
{
    let mut edges = Vec::new(alloc);
    for pair in pairs {
        if let Data::Verdict(verdict) = &pair.value {
            if let Some(edge) = verdict_edge(names, verdict) {
                edges.push(edge)?;
            }
        }
    }
    Ok(edges)
}

/// A vector of the edge, or an empty one.
fn one_or_none(alloc: Global, edge: Option<Edge>) -> Result<Vec<Edge>, AllocError>
    ensures { IfOk result (λ edges. map call_of edges.items ≡ call_if (option_map call_of edge)) }
{
    let mut edges = Vec::new(alloc);
    if let Some(edge) = edge {
        edges.push(edge)?;
    }
    Ok(edges)
}

/// The edges of a statement.
fn statement_edges(alloc: Global, names: &TableNames, stmt: &Stmt) -> Result<Vec<Edge>, AllocError>
    ensures { IfOk result (λ edges. map call_of edges.items
        ≡ map (numbered_call (index_of names.now)) (statement_calls (statement stmt.now))) }
{
    match stmt {
        Stmt::Verdict(verdict) => one_or_none(alloc, verdict_edge(names, verdict)),
        Stmt::VerdictMap(_, MapRef::Named(name)) => {
            let to_map = Edge {
                to: map_number(names, name),
                is_jump: false,
            };
            one_or_none(alloc, Some(to_map))
        }
        Stmt::VerdictMap(_, MapRef::Anonymous(pairs)) => pair_edges(alloc, names, pairs),
        Stmt::Match(_)
        | Stmt::Counter(_)
        | Stmt::Log(_)
        | Stmt::NoTrack
        | Stmt::SetMark(_, _)
        | Stmt::Nat(_) => Ok(Vec::new(alloc)),
    }
}

/// Adds the edges of each statement of a rule.
fn add_rule(
    alloc: Global,
    names: &TableNames,
    statements: &mut Vec<Vec<Edge>>,
    rule: &Rule,
) -> Result<(), AllocError>
    ensures { IfOk result (λ _. statements_of statements.new.items
        ≡ statements_of statements.old.items
        ++ map (map (numbered_call (index_of names.now)))
        (map statement_calls (rule_tree rule.now).statements)) }
{
    for stmt in &rule.statements {
        statements.push(statement_edges(alloc, names, stmt)?)?;
    }
    Ok(())
}

fn chain_node(alloc: Global, names: &TableNames, chain: &Chain) -> Result<Node, AllocError>
    ensures { IfOk result (λ node. node_tree node ≡ chain_at names.now (chain_tree chain.now)) }
{
    let mut statements = Vec::new(alloc);
    for rule in &chain.rules {
        add_rule(alloc, names, &mut statements, rule)?;
    }
    Ok(Node::Chain(statements))
}

fn map_node(alloc: Global, names: &TableNames, map: &MapDecl) -> Result<Node, AllocError>
    ensures { IfOk result (λ node. node_tree node ≡ map_at names.now (map_tree map.now)) }
{
    match &map.elements {
        None => Ok(Node::Map(Vec::new(alloc))),
        Some(pairs) => Ok(Node::Map(pair_edges(alloc, names, pairs)?)),
    }
}

fn add_chains(
    alloc: Global,
    names: &TableNames,
    chains: &[&Chain],
    nodes: &mut Vec<Node>,
) -> Result<(), AllocError>
    ensures { IfOk result (λ _. graph_of nodes.new.items ≡ graph_of nodes.old.items
        ++ map (chain_at names.now) (map (λ c. chain_tree c.now) chains.now)) }
{
    for chain in chains {
        nodes.push(chain_node(alloc, names, chain)?)?;
    }
    Ok(())
}

fn add_maps(
    alloc: Global,
    names: &TableNames,
    maps: &[&MapDecl],
    nodes: &mut Vec<Node>,
) -> Result<(), AllocError>
    ensures { IfOk result (λ _. graph_of nodes.new.items ≡ graph_of nodes.old.items
        ++ map (map_at names.now) (map (λ m. map_tree m.now) maps.now)) }
{
    for map in maps {
        nodes.push(map_node(alloc, names, map)?)?;
    }
    Ok(())
}

/// The call graph of the table: its chains, its maps, and one empty node each for unknown names.
pub(crate) fn table_nodes(alloc: Global, names: &TableNames) -> Result<Vec<Node>, AllocError>
    ensures { IfOk result (λ nodes. IsTableGraph names.now (graph_of nodes.items)) }
{
    let mut nodes = Vec::new(alloc);
    add_chains(alloc, names, names.chains(), &mut nodes)?;
    add_maps(alloc, names, names.maps(), &mut nodes)?;
    nodes.push(Node::Chain(Vec::new(alloc)))?;
    nodes.push(Node::Map(Vec::new(alloc)))?;
    Ok(nodes)
}
