//! `nftrun diff`.
ghost use Rattle.std.specs.Prelude.{◌≡◌};
ghost use Rattle.command_line.specs.CommandLine.{name_of_file};
ghost use Rattle.program.specs.Calls.{MakesCalls};
ghost use Rattle.program.specs.Diffing.{Diffs, ReadsFilter, Tells, text_of};
ghost use Rattle.program.specs.steps.AnswerStatus.{diff_status};

use crate::host::Host;
use crate::status::Status;
use command_line::DiffTask;
use std::fmt;

/// The texts of a comparison.
#[derive(Clone, Copy)]
pub struct DiffInputs<'a> {
    /// The text of the ruleset OLD.
    pub old: &'a [u8],
    /// The text of the ruleset NEW.
    pub new: &'a [u8],
    /// The text of the box file.
    pub network: &'a [u8],
    /// The text of the ruleset FILTER, where there is one.
    pub assumed: Option<&'a [u8]>,
}

/// A ruleset of a comparison, as the usage names its file.
#[derive(Clone, Copy, Debug, Drop)]
pub enum RulesetRole {
    /// OLD.
    Old,
    /// NEW.
    New,
    /// FILTER.
    Filter,
}

/// Writes the file's name in the usage.
impl fmt::Display for RulesetRole {
    ghost use Rattle.std.specs.Prelude.{Some};
    ghost use Rattle.program.specs.Lines.{role_name};

    ghost output = { λ role. Some (role_name role) };

    fn fmt<W: fmt::Write>(&self, f: &mut fmt::Formatter<W>) -> fmt::Result {
        f.write_str(match self {
            RulesetRole::Old => "OLD",
            RulesetRole::New => "NEW",
            RulesetRole::Filter => "FILTER",
        })
    }
}

/// Prints what the rulesets OLD and NEW do differently with packets on the box BOX; with `--assume`
/// only with those that the filter chain of the ruleset FILTER accepts.
///
/// All files are read whole: OLD, NEW, BOX and then FILTER. Where one can't be read, a ruleset is
/// rejected, or the answer is too large to compute, nothing is printed to standard output. Where the
/// rulesets differ the answer is printed all the same.
pub fn diff<H: Host>(host: &mut H, task: &DiffTask<'_>) -> Status
    // These are all calls, in order, and the status is that of the one that failed, or of the answer.
    ensures { MakesCalls H.happens host.old host.new (λ calls. Diffs task.now calls result) }
{
    match try_diff(host, task) {
        Ok(true) => Status::Success,
        Ok(false) => Status::Differ,
        Err(status) => status,
    }
}

/// Returns whether the rulesets do the same.
fn try_diff<H: Host>(host: &mut H, task: &DiffTask<'_>) -> Result<bool, Status>
    ensures { MakesCalls H.happens host.old host.new (λ calls.
        Diffs task.now calls (diff_status result)) }
{
    let old = host.read(task.paths.old)?;
    let new = host.read(task.paths.new)?;
    let network = host.read(task.paths.network)?;
    compare(host, &old, &new, &network, task.assumed)
}

/// Reads FILTER, if there is one, and compares.
fn compare<H: Host>(
    host: &mut H,
    old: &[u8],
    new: &[u8],
    network: &[u8],
    path: Option<&str>,
) -> Result<bool, Status>
    ensures { MakesCalls H.happens host.old host.new (λ calls. ReadsFilter (name_of_file path.entry)
        (Tells old.now new.now network.now) calls (diff_status result)) }
{
    let Some(path) = path else {
        return tell(host, old, new, network, None);
    };
    let filter = host.read(path)?;
    tell(host, old, new, network, Some(&filter))
}

fn tell<H: Host>(
    host: &mut H,
    old: &[u8],
    new: &[u8],
    network: &[u8],
    assumed: Option<&[u8]>,
) -> Result<bool, Status>
    ensures { MakesCalls H.happens host.old host.new (λ calls.
        Tells old.now new.now network.now (text_of assumed.entry) calls (diff_status result)) }
{
    let inputs = DiffInputs {
        old,
        new,
        network,
        assumed,
    };
    Ok(host.diff(inputs)?)
}
