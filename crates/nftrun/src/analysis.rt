//! What can be met of a ruleset on a box.
ghost use Rattle.std.specs.Prelude.{◌≡◌, IfErr, IfOk};
ghost use Rattle.engine.specs.Judged.{JudgeRefuses};
ghost use Rattle.nftrun.specs.steps.Analyses.{IsChecked, Tells, Unanswered, fault_of};

use box_file::Plant;
use engine::RunFault;
use nft_parser::parse;
use program::ReachFault;
use reach_report::{ReachReport, report_of};
use rule_check::{Checked, check};
use rule_reach::ReachError;
use std::alloc::Global;

/// The limit of sets of packets: as many nodes have their diagrams at most.
pub(crate) const NODES: u32 = 1 << 23;

/// Checks a ruleset on a box, and tells what can be met of it; with `sets` also by which packets.
pub(crate) fn analyze(
    alloc: Global,
    rules: &[u8],
    network: &[u8],
    sets: bool,
) -> Result<ReachReport, ReachFault>
    ensures told { IfOk result (Tells rules.now network.now sets) }
    ensures refused { IfErr result (λ fault. Unanswered rules.now network.now fault) }
{
    let checked = checked(alloc, rules, network)?;
    match report_of(alloc, rules, &checked, NODES, sets) {
        Ok(report) => Ok(report),
        Err(error) => Err(fault_of(error)),
    }
}

/// Reads both texts and checks the ruleset on the box.
pub(crate) fn checked(alloc: Global, rules: &[u8], network: &[u8]) -> Result<Checked, RunFault>
    ensures fine { IfOk result (λ checked. IsChecked rules.now network.now checked) }
    ensures refused { IfErr result (λ fault. JudgeRefuses rules.now network.now fault) }
{
    let ruleset = parse(alloc, rules)?;
    let network = Plant::read(alloc, network)?;
    Ok(check(alloc, ruleset, network)?)
}

fn fault_of(error: ReachError) -> ReachFault
    ensures { result ≡ fault_of error }
{
    match error {
        ReachError::TooLarge | ReachError::TooDeep => ReachFault::TooLarge,
        ReachError::Memory => ReachFault::Fault(RunFault::Memory),
    }
}
