//! The analysis of the jumps and gotos of one table.
ghost use Rattle.std.specs.Prelude.{◌≡◌, ℕ, length, nat_lt, take, IfOk, MatchOption};
ghost use Rattle.std.specs.List.{list_any};
ghost use Rattle.nft_tree.specs.TreeViews.{chain_tree};
ghost use Rattle.nft_tree.specs.TableItems.{chains_of};
ghost use Rattle.chain_graph.specs.Graph.{HasCycle};
ghost use Rattle.chain_graph.specs.Nodes.{graph_of};
ghost use Rattle.chain_graph.specs.Measures.{saturated, IsAnalysisOf};
ghost use Rattle.rule_paths.specs.Paths.{Caller, AreCosts, CallsOf, MAX_JUMPS, table_cost};
ghost use Rattle.rule_paths.specs.Findings.{AreChainCosts};
ghost use Rattle.rule_paths.specs.steps.Index.{with_base, IsTableGraph};
ghost use Rattle.rule_paths.specs.steps.Tables.{AreTableFindings};

use crate::marks::NatKind;
use crate::misplaced::misplaces;
use crate::nodes::table_nodes;
use chain_graph::{GraphAnalysis, Node, analyze};
use nft_tree::Chain;
use rule_names::TableNames;
use std::alloc::{AllocError, Global};

/// The most jumps that a path may have (NFT_JUMP_STACK_SIZE).
const MAX_JUMPS: u64 = 16;

/// The analysis of a table whose jumps and gotos have no cycle.
#[derive(Drop)]
pub(crate) struct TableFindings {
    /// Whether a path from a chain has more than 16 jumps.
    pub(crate) is_too_deep: bool,
    /// Whether a NAT statement is in, or reachable from, a base chain that may not have it.
    pub(crate) misplaces_nat: bool,
    /// The cost of all base chains, saturated.
    pub(crate) base_cost: u64,
    /// The cost of each chain, saturated.
    pub(crate) costs: Vec<u64>,
    /// The most jumps on a path from each chain.
    pub(crate) depths: Vec<u64>,
}

fn is_too_deep(depths: &[u64]) -> bool
    ensures { result ≡ list_any (λ depth. nat_lt MAX_JUMPS depth) depths.now }
{
    depths.iter().any(|depth| *depth > MAX_JUMPS)
}

/// The sum with the chain added, if it is a base chain.
fn add_base(sum: u64, chain: &Chain, cost: u64) -> u64
    ensures { result ≡ with_base sum cost (chain_tree chain.now).head }
{
    match chain.head {
        None => sum,
        Some(_) => sum.saturating_add(1).saturating_add(cost),
    }
}

/// The cost of all base chains, saturated.
fn base_cost(names: &TableNames, costs: &[u64]) -> u64
    requires { AreChainCosts names.now costs.now }
    ensures { (cost : Caller → ℕ) → AreCosts names.now cost
        → result ≡ saturated (table_cost cost names.now) }
{
    let mut sum = 0u64;
    for (index, chain) in names.chains().iter().enumerate() {
        sum = add_base(sum, chain, costs[index]);
    }
    sum
}

/// The first entries, which are those of the chains.
fn of_chains(names: &TableNames, mut numbers: Vec<u64>) -> Vec<u64>
    ensures { result.items ≡ take (length (chains_of names.now)) numbers.items }
{
    numbers.truncate(names.chains().len());
    numbers
}

/// The findings about a table, by the analysis of its graph.
fn findings(
    alloc: Global,
    names: &TableNames,
    nodes: &[Node],
    analysis: GraphAnalysis,
) -> Result<TableFindings, AllocError>
    requires graph { IsTableGraph names.now (graph_of nodes.now) }
    requires analysis { IsAnalysisOf (graph_of nodes.now) analysis }
    ensures { IfOk result (λ found. AreTableFindings names.now found) }
{
    let is_source = misplaces(alloc, names, nodes, &analysis.order, NatKind::Source)?;
    let is_destination = misplaces(alloc, names, nodes, &analysis.order, NatKind::Destination)?;
    let GraphAnalysis {
        order: _,
        costs,
        depths,
    } = analysis;
    let costs = of_chains(names, costs);
    let depths = of_chains(names, depths);
    let is_too_deep = is_too_deep(&depths);
    let base_cost = base_cost(names, &costs);
    Ok(TableFindings {
        is_too_deep,
        misplaces_nat: is_source | is_destination,
        base_cost,
        costs,
        depths,
    })
}

/// Analyzes the jumps and gotos of a table; `None` if they have a cycle.
pub(crate) fn analyze_table(
    alloc: Global,
    names: &TableNames,
) -> Result<Option<TableFindings>, AllocError>
    ensures { IfOk result (λ answer. MatchOption answer (HasCycle (CallsOf names.now))
        (λ found. AreTableFindings names.now found)) }
{
    let nodes = table_nodes(alloc, names)?;
    let Some(analysis) = analyze(alloc, &nodes)? else {
        return Ok(None);
    };
    Ok(Some(findings(alloc, names, &nodes, analysis)?))
}
