//! The analysis of all jumps and gotos of a ruleset.
ghost use Rattle.std.specs.Prelude.{IfOk, MatchOption};
ghost use Rattle.rule_paths.specs.Paths.{Cycles};
ghost use Rattle.rule_paths.specs.Findings.{AreFindings};

use crate::table::analyze_table;
use rule_names::TableNames;
use std::alloc::{AllocError, Global};

/// The most that the base chains of a ruleset may cost together.
const MAX_COST: u64 = 65_536;

/// The analysis of a ruleset whose jumps and gotos have no cycle.
#[derive(Drop)]
pub struct Findings {
    /// Whether a path from a chain has more than 16 jumps (N05).
    pub is_too_deep: bool,
    /// Whether the base chains cost more than 65,536 together (N06).
    pub is_too_costly: bool,
    /// Whether a NAT statement is in, or reachable from, a base chain that may not have it (N10).
    pub misplaces_nat: bool,
    /// The cost of each chain by table and chain, saturated at `u64::MAX`.
    pub costs: Vec<Vec<u64>>,
    /// The most jumps on a path from each chain, by table and chain.
    pub depths: Vec<Vec<u64>>,
}

/// Analyzes the jumps and gotos of a ruleset; `None` if they have a cycle (N04).
///
/// # Errors
///
/// If an allocation fails.
pub fn analyze(alloc: Global, names: &[TableNames]) -> Result<Option<Findings>, AllocError>
    ensures { IfOk result (λ answer. MatchOption answer (Cycles names.now)
        (λ found. AreFindings names.now found)) }
{
    let mut costs = Vec::with_capacity(alloc, names.len())?;
    let mut depths = Vec::with_capacity(alloc, names.len())?;
    let mut is_too_deep = false;
    let mut misplaces_nat = false;
    let mut cost = 0u64;
    for table in names {
        let Some(found) = analyze_table(alloc, table)? else {
            return Ok(None);
        };
        is_too_deep |= found.is_too_deep;
        misplaces_nat |= found.misplaces_nat;
        cost = cost.saturating_add(found.base_cost);
        costs.push(found.costs)?;
        depths.push(found.depths)?;
    }
    Ok(Some(Findings {
        is_too_deep,
        is_too_costly: cost > MAX_COST,
        misplaces_nat,
        costs,
        depths,
    }))
}
