//! The checks, in order of their faults' numbers.
ghost use Rattle.std.specs.Prelude.{◌≡◌, IfOk, IfErr};
ghost use Rattle.nft_tree.specs.TreeViews.{tables_of};
ghost use Rattle.box_file.specs.Box.{PlantTree};
ghost use Rattle.rule_names.specs.Names.{DuplicateName};
ghost use Rattle.rule_paths.specs.Findings.{AreFindings};
ghost use Rattle.rule_check.specs.Checked.{IsCheckRefusal};
ghost use Rattle.rule_check.specs.WellFormed.{WellFormed};
ghost use Rattle.rule_check.specs.steps.FaultRanges.{IsLeastFaultIn};

use crate::fault::{CheckError, CheckFault};
use crate::heads::has_misplaced_chain;
use crate::limits::too_large;
use crate::terminal_statements::has_unreachable_statement;
use box_file::Plant;
use nft_tree::Ruleset;
use rule_names::{TableNames, jumps_to_base_chain, jumps_to_unknown_chain, refers_to_unknown_set};
use rule_paths::Findings;
use rule_types::has_type_mismatch;
use rule_values::{has_contradiction, has_wrong_value, names_unknown_interface};
use std::alloc::{AllocError, Global};

/// The analysis of a well-formed ruleset's jumps, or the fault with the lowest number of a ruleset
/// without duplicate names: N02 to N15.
pub(crate) fn analyze(
    alloc: Global,
    names: &[TableNames],
    tree: &Ruleset,
    network: &Plant,
) -> Result<Findings, CheckError>
    requires names { names.now ≡ tables_of tree.now }
    requires apart { DuplicateName (tables_of tree.now) → ⊥ }
    ensures fine { IfOk result (λ found. WellFormed (tables_of tree.now) network.now) }
    ensures found { IfOk result (λ found. AreFindings (tables_of tree.now) found) }
    ensures refused { IfErr result (λ error. IsCheckRefusal (tables_of tree.now) network.now error) }
{
    if let Some(fault) = fault_of_names(names) {
        return Err(CheckError::Refused(fault));
    }
    let Some(found) = rule_paths::analyze(alloc, names)? else {
        return Err(CheckError::Refused(CheckFault::Cycle));
    };
    match fault_of_rules(alloc, names, &found, tree, network)? {
        Some(fault) => Err(CheckError::Refused(fault)),
        None => Ok(found),
    }
}

/// N02, N03.
fn fault_of_names(names: &[TableNames]) -> Option<CheckFault>
    ensures { (network : PlantTree) → IsLeastFaultIn 2 4 names.now network result }
{
    if jumps_to_unknown_chain(names) {
        return Some(CheckFault::NoSuchChain);
    }
    if refers_to_unknown_set(names) {
        return Some(CheckFault::NoSuchSet);
    }
    None
}

/// N05 to N15.
fn fault_of_rules(
    alloc: Global,
    names: &[TableNames],
    found: &Findings,
    tree: &Ruleset,
    network: &Plant,
) -> Result<Option<CheckFault>, AllocError>
    requires names { names.now ≡ tables_of tree.now }
    requires found { AreFindings (tables_of tree.now) found.now }
    ensures { IfOk result (λ fault. IsLeastFaultIn 5 16 (tables_of tree.now) network.now fault) }
{
    if let Some(fault) = fault_of_chains(names, found, tree, network) {
        return Ok(Some(fault));
    }
    if has_contradiction(alloc, network, tree)? {
        return Ok(Some(CheckFault::Contradiction));
    }
    Ok(last_fault(tree, network))
}

/// N05 to N11.
fn fault_of_chains(
    names: &[TableNames],
    found: &Findings,
    tree: &Ruleset,
    network: &Plant,
) -> Option<CheckFault>
    requires names { names.now ≡ tables_of tree.now }
    requires found { AreFindings (tables_of tree.now) found.now }
    ensures { IsLeastFaultIn 5 12 (tables_of tree.now) network.now result }
{
    if found.is_too_deep {
        return Some(CheckFault::TooDeep);
    }
    if found.is_too_costly {
        return Some(CheckFault::TooCostly);
    }
    if jumps_to_base_chain(names) {
        return Some(CheckFault::BaseChainCalled);
    }
    if has_type_mismatch(names) {
        return Some(CheckFault::TypeMismatch);
    }
    if has_wrong_value(network, tree) {
        return Some(CheckFault::WrongValue);
    }
    if found.misplaces_nat {
        return Some(CheckFault::MisplacedNat);
    }
    if has_misplaced_chain(tree) {
        return Some(CheckFault::MisplacedNatChain);
    }
    None
}

/// N13 to N15.
fn last_fault(tree: &Ruleset, network: &Plant) -> Option<CheckFault>
    ensures { IsLeastFaultIn 13 16 (tables_of tree.now) network.now result }
{
    if names_unknown_interface(network, tree) {
        return Some(CheckFault::NoSuchInterface);
    }
    if has_unreachable_statement(tree) {
        return Some(CheckFault::StatementAfterVerdict);
    }
    if too_large(tree) {
        return Some(CheckFault::TooLarge);
    }
    None
}
