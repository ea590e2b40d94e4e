//! `nftrun check`.
ghost use Rattle.program.specs.Calls.{MakesCalls};
ghost use Rattle.program.specs.Examining.{Examines};
ghost use Rattle.program.specs.steps.AnswerStatus.{check_status};

use crate::host::Host;
use crate::status::Status;
use command_line::CheckPaths;

/// Checks the ruleset RULES for the box BOX, and prints one line where it is accepted.
///
/// Both files are read whole, RULES first. Where one can't be read, or the ruleset is rejected,
/// nothing is printed to standard output.
pub fn examine<H: Host>(host: &mut H, texts: &CheckPaths<'_>) -> Status
    // These are all calls, in order, and the status is that of the one that failed, or success.
    ensures { MakesCalls H.happens host.old host.new (λ calls. Examines texts.now calls result) }
{
    match try_examine(host, texts) {
        Ok(()) => Status::Success,
        Err(status) => status,
    }
}

fn try_examine<H: Host>(host: &mut H, texts: &CheckPaths<'_>) -> Result<(), Status>
    ensures { MakesCalls H.happens host.old host.new (λ calls.
        Examines texts.now calls (check_status result)) }
{
    let rules = host.read(texts.rules)?;
    let network = host.read(texts.network)?;
    let counts = host.judge(rules, &network)?;
    host.print_accepted(counts)?;
    Ok(())
}
