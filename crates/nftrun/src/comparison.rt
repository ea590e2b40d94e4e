//! What two rulesets do differently on a box.
ghost use Rattle.std.specs.Prelude.{◌≡◌, IfErr, IfOk, IfSome};
ghost use Rattle.chain_sets.specs.declared.fault.WalkError.{WalkError};
ghost use Rattle.nftrun.specs.steps.Analyses.{IsChecked};
ghost use Rattle.nftrun.specs.steps.Comparisons as comparisons;
ghost use Rattle.nftrun.specs.steps.Comparisons.{AreAccepted, IsRefused, RefusedIn};

use crate::analysis::{NODES, checked};
use chain_sets::WalkError;
use diff_report::{DiffReport, report_of};
use engine::RunFault;
use program::{DiffFault, DiffInputs, RulesetRole};
use rule_check::Checked;
use std::alloc::Global;

/// Checks the rulesets on a box, OLD first, and tells what OLD and NEW do differently with packets
/// that FILTER accepts, or without it with all packets.
pub(crate) fn compare(alloc: Global, inputs: DiffInputs<'_>) -> Result<DiffReport, DiffFault>
    ensures told { IfOk result (λ _. AreAccepted inputs.entry) }
    ensures refused { IfErr result (λ fault. IsRefused inputs.entry fault) }
{
    let network = inputs.network;
    let old = checked_in(alloc, RulesetRole::Old, inputs.old, network)?;
    let new = checked_in(alloc, RulesetRole::New, inputs.new, network)?;
    let Some(text) = inputs.assumed else {
        return tell(alloc, &old, &new, None);
    };
    let filter = checked_in(alloc, RulesetRole::Filter, text, network)?;
    tell(alloc, &old, &new, Some(&filter))
}

/// Checks one of the rulesets on the box.
fn checked_in(
    alloc: Global,
    role: RulesetRole,
    rules: &[u8],
    network: &[u8],
) -> Result<Checked, DiffFault>
    ensures fine { IfOk result (λ checked. IsChecked rules.now network.now checked) }
    ensures refused { IfErr result (λ fault. RefusedIn role rules.now network.now fault) }
{
    match checked(alloc, rules, network) {
        Ok(checked) => Ok(checked),
        Err(fault) => Err(fault_in(role, fault)),
    }
}

/// Tells what checked rulesets do differently.
fn tell(
    alloc: Global,
    old: &Checked,
    new: &Checked,
    filter: Option<&Checked>,
) -> Result<DiffReport, DiffFault>
    requires same_box { new.now.network ≡ old.now.network }
    requires assumed_box { IfSome filter (λ f. f.now.network ≡ old.now.network) }
    ensures { IfErr result (λ fault. (error : WalkError) × (fault ≡ comparisons.fault_of error)) }
{
    match report_of(alloc, old, new, filter, NODES) {
        Ok(report) => Ok(report),
        Err(error) => Err(fault_of(error)),
    }
}

fn fault_in(role: RulesetRole, fault: RunFault) -> DiffFault
    ensures { result ≡ comparisons.fault_in role fault }
{
    match fault {
        RunFault::Rules(fault) => DiffFault::Rules(role, fault),
        _ => DiffFault::Fault(fault),
    }
}

fn fault_of(error: WalkError) -> DiffFault
    ensures { result ≡ comparisons.fault_of error }
{
    match error {
        WalkError::TooLarge | WalkError::TooDeep => DiffFault::TooLarge,
        WalkError::Memory => DiffFault::Fault(RunFault::Memory),
    }
}
