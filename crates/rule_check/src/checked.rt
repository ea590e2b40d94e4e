//! Rulesets that passed all checks.
ghost use Rattle.std.specs.Prelude.{◌≡◌, ◌<◌, ◌≤◌, ℕ, List, [], None, IfOk, IfErr, IfSome, get_or, map, slice_get, slice_index};
ghost use Rattle.nft_tree.specs.Tree.{ChainTree, HeadTree, TableTree};
ghost use Rattle.nft_tree.specs.TreeViews.{tables_of};
ghost use Rattle.nft_tree.specs.TableItems.{chains_of};
ghost use Rattle.rule_paths.specs.Paths.{MAX_COST, MAX_JUMPS};
ghost use Rattle.rule_names.specs.Indexed.{names_in};
ghost use Rattle.rule_paths.specs.Findings.{AreChainCosts, AreFindings, numbers_at};
ghost use Rattle.rule_check.specs.Checked.{AreRulesetCosts, AreRulesetDepths, CheckedTree, IsCheckRefusal, ruleset_sum};
ghost use Rattle.rule_check.specs.WellFormed.{LeastFault, WellFormed};

use crate::analysis::analyze;
use crate::fault::{CheckError, CheckFault};
use box_file::Plant;
use nft_tree::Ruleset;
use rule_names::{RulesetNames, TableNames};
use rule_paths::Findings;
use std::alloc::{AllocError, Global};
use std::marker::Model;

/// A ruleset that passed all checks, with the box that it was checked for. `check` is the only way
/// to make one. It keeps its names and the costs of its chains.
pub struct Checked {
    tree: Ruleset,
    network: Plant,
    names: RulesetNames,
    /// By table and chain.
    costs: Vec<Vec<u64>>,
}

// Written out, so that dropping one is a call.
impl Drop for Checked {
    fn drop(self) {
        let Checked {
            tree: _,
            network: _,
            names: _,
            costs: _,
        } = self;
    }
}

impl Model for Checked {
    ghost use Rattle.nft_tree.specs.TreeViews.{tables_of};
    ghost use Rattle.rule_check.specs.Checked.{CheckedTree, IsChecked};

    ghost Value = { CheckedTree };

    ghost view = { λ c. record { rules = tables_of c.tree; network = c.network } };

    ghost invariant = { λ c. IsChecked (tables_of c.tree) c.network c.names c.costs.items };
}

/// Checks a ruleset for a box (nft(8), and the limits of this profile). The arguments are dropped
/// on `Err`.
///
/// # Errors
///
/// `Refused` with the fault of the lowest number if the ruleset has any, `Memory` if an allocation
/// fails.
pub fn check(alloc: Global, tree: Ruleset, network: Plant) -> Result<Checked, CheckError>
    ensures same { IfOk result (λ checked. checked
        ≡ record { rules = tables_of tree; network = network }) }
    ensures fine { IfOk result (λ checked. WellFormed (tables_of tree) network) }
    ensures refused { IfErr result (λ error. IsCheckRefusal (tables_of tree) network error) }
{
    let (names, found) = judge(alloc, &tree, &network)?;
    Ok(Checked {
        tree,
        network,
        names,
        costs: found.costs,
    })
}

/// The names of a well-formed ruleset and the analysis of its jumps.
fn judge(
    alloc: Global,
    tree: &Ruleset,
    network: &Plant,
) -> Result<(RulesetNames, Findings), CheckError>
    ensures names { IfOk result (λ x. x.0 ≡ map names_in (tables_of tree.now)) }
    ensures found { IfOk result (λ x. AreFindings (tables_of tree.now) x.1) }
    ensures fine { IfOk result (λ _. WellFormed (tables_of tree.now) network.now) }
    ensures refused { IfErr result (λ error. IsCheckRefusal (tables_of tree.now) network.now error) }
{
    let Some(names) = RulesetNames::of(alloc, tree)? else {
        return Err(CheckError::Refused(CheckFault::DuplicateName));
    };
    let found = analyze(alloc, &names.tables(alloc, tree)?, tree, network)?;
    Ok((names, found))
}

/// The fault with the lowest number that a ruleset has on a box; `None` if it is well formed.
///
/// # Errors
///
/// If an allocation fails.
pub fn least_fault(
    alloc: Global,
    tree: &Ruleset,
    network: &Plant,
) -> Result<Option<CheckFault>, AllocError>
    ensures fine { IfOk result (λ o. o ≡ None → WellFormed (tables_of tree.now) network.now) }
    ensures refused { IfOk result (λ o.
        IfSome o (λ fault. LeastFault fault (tables_of tree.now) network.now)) }
{
    match judge(alloc, tree, network) {
        Ok(_) => Ok(None),
        Err(CheckError::Refused(fault)) => Ok(Some(fault)),
        Err(CheckError::Memory) => Err(AllocError),
    }
}

impl Checked {
    pub fn tree(&self) -> &Ruleset
        ensures { tables_of result.now ≡ self.now.rules }
    {
        &self.tree
    }

    /// The box that it was checked for.
    pub fn plant(&self) -> &Plant
        ensures { result.now ≡ self.now.network }
    {
        &self.network
    }

    /// The tables, with lookup of their chains, sets and maps by name.
    ///
    /// # Errors
    ///
    /// If an allocation fails.
    pub fn names<'t>(&'t self, alloc: Global) -> Result<Vec<TableNames<'t>>, AllocError>
        ensures { IfOk result (λ names. names.items ≡ self.now.rules) }
    {
        self.names.tables(alloc, &self.tree)
    }

    /// The costs of a table's chains, in text order: for each statement 1 and the greatest cost
    /// among its targets, saturated at 2^64 - 1. A base chain costs less than 65,536. Empty if
    /// there is no such table.
    pub fn costs(&self, table: usize) -> &[u64]
        ensures costs { (t : TableTree) → slice_get self.now.rules table ≡ Some t
            → AreChainCosts t result.now }
        ensures base { (t : TableTree) (j : ℕ) (c : ChainTree) (head : HeadTree)
            → slice_get self.now.rules table ≡ Some t → slice_get (chains_of t) j ≡ Some c
            → c.head ≡ Some head → slice_index result.now j < MAX_COST }
        // Any lists of all costs, as those of `known_bounds`, have these for the table.
        ensures same { (costs : List (List ℕ)) → AreRulesetCosts self.now.rules costs
            → result.now ≡ get_or costs table [] }
        ensures none { slice_get self.now.rules table ≡ None → result.now ≡ [] }
    {
        row(&self.costs, table)
    }

    /// A lemma, which does nothing: a checked ruleset is well formed, its cost equations have a
    /// solution, all base chains plus 1 for each cost at most 65,536 together, and no path from a
    /// chain has more than 16 jumps.
    pub fn known_bounds(&self)
        ensures fine { WellFormed self.now.rules self.now.network }
        ensures some { (costs : List (List ℕ)) × AreRulesetCosts self.now.rules costs }
        ensures total { (costs : List (List ℕ)) → AreRulesetCosts self.now.rules costs
            → ruleset_sum self.now.rules costs ≤ MAX_COST }
        ensures deep { (depths : List (List ℕ)) × AreRulesetDepths self.now.rules depths
            × ((i j : ℕ) → slice_index (get_or depths i []) j ≤ MAX_JUMPS) }
    {
        let _ = &self.costs;
    }
}

/// The row of a table, empty if there is no such table.
fn row(rows: &[Vec<u64>], table: usize) -> &[u64]
    ensures { result.now ≡ numbers_at rows.now table }
{
    match rows.get(table) {
        Some(numbers) => numbers,
        None => &[],
    }
}
