//! `nftrun reach`.
ghost use Rattle.program.specs.Calls.{MakesCalls};
ghost use Rattle.program.specs.Reaching.{Reaches};
ghost use Rattle.program.specs.steps.AnswerStatus.{reach_status};

use crate::host::Host;
use crate::status::Status;
use command_line::ReachTask;

/// Prints of each rule of the ruleset RULES whether some packet can meet it on the box BOX, and of
/// each base chain whether its policy can apply; with `--sets` also which packets reach and meet
/// each rule.
///
/// Both files are read whole, RULES first. Where one can't be read, the ruleset is rejected, or the
/// answer is too large to compute, nothing is printed to standard output. Where a rule can't be met
/// the answer is printed all the same.
pub fn reach<H: Host>(host: &mut H, task: &ReachTask<'_>) -> Status
    // These are all calls, in order, and the status is that of the one that failed, or of the answer.
    ensures { MakesCalls H.happens host.old host.new (λ calls. Reaches task.now calls result) }
{
    match try_reach(host, task) {
        Ok(true) => Status::Success,
        Ok(false) => Status::Unmet,
        Err(status) => status,
    }
}

/// Returns whether each rule can be met.
fn try_reach<H: Host>(host: &mut H, task: &ReachTask<'_>) -> Result<bool, Status>
    ensures { MakesCalls H.happens host.old host.new (λ calls.
        Reaches task.now calls (reach_status result)) }
{
    let rules = host.read(task.texts.rules)?;
    let network = host.read(task.texts.network)?;
    Ok(host.reach(rules, &network, task.sets)?)
}
