//! Reads the ruleset and the box file.
ghost use Rattle.std.specs.Prelude.{IfOk, IfErr};
ghost use Rattle.engine.specs.Judged.{JudgeRefuses};
ghost use Rattle.engine.specs.steps.Inputs.{IsChecked};

use crate::fault::RunFault;
use box_file::Plant;
use nft_parser::parse;
use rule_check::{Checked, check};
use std::alloc::Global;

/// Reads both texts and checks the ruleset on the box.
pub(crate) fn checked(alloc: Global, rules: &[u8], network: &[u8]) -> Result<Checked, RunFault>
    ensures fine { IfOk result (λ checked. IsChecked rules.now network.now checked) }
    ensures refused { IfErr result (λ fault. JudgeRefuses rules.now network.now fault) }
{
    let ruleset = parse(alloc, rules)?;
    let network = Plant::read(alloc, network)?;
    Ok(check(alloc, ruleset, network)?)
}
