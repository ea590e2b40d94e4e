//! `nftrun run`.
ghost use Rattle.std.specs.Prelude.{◌≡◌, Result, map};
ghost use Rattle.std.specs.IoError.{error_kind};
ghost use Rattle.std.specs.declared.io.Error.{Error};
ghost use Rattle.command_line.specs.CommandLine.{name_of_file};
ghost use Rattle.program.specs.Calls.{MakesCalls, identify};
ghost use Rattle.program.specs.Replaying.{ChecksOutputPath, ChecksReportPath, Creates, CreatesReport, Opens, Replays};
ghost use Rattle.program.specs.Replaying.{compared, others_of, unless_not_found};
ghost use Rattle.program.specs.Status.{of_error};
ghost use Rattle.program.specs.declared.status.Status.TheVariants.{SameFile};
ghost use Rattle.program.specs.steps.AnswerStatus.{replay_status};

use crate::host::{Host, RunFiles};
use crate::identity::FileIdentity;
use crate::status::Status;
use command_line::ReplayTask;
use progress::RunInputs;
use std::io;

/// The file that standard output goes to, by Linux's name (proc(5)).
const STANDARD_OUTPUT: &str = "/dev/stdout";

/// Replays the capture IN through the ruleset RULES on the box BOX, and writes OUT, and the report
/// to FILE or standard output.
///
/// RULES and BOX are read whole and IN is opened. OUT must not be the same regular file as one of
/// them or, without FILE, as standard output; FILE must not be one of them or OUT. Random keys are
/// drawn for hash tables. OUT and FILE are created last: a fault before that leaves them unchanged.
pub fn replay<H: Host>(host: &mut H, task: &ReplayTask<'_>) -> Status
    // These are all calls, in order, and the status is that of the one that failed, or the run's.
    ensures { MakesCalls H.happens host.old host.new (λ calls. Replays task.now calls result) }
{
    match try_replay(host, task) {
        Ok(torn) => Status::of(Ok(torn)),
        Err(status) => status,
    }
}

fn try_replay<H: Host>(host: &mut H, task: &ReplayTask<'_>) -> Result<bool, Status>
    ensures { MakesCalls H.happens host.old host.new (λ calls.
        Replays task.now calls (replay_status result)) }
{
    let paths = &task.paths;
    let rules = host.read(paths.rules)?;
    let network = host.read(paths.network)?;
    replay_texts(host, task, &rules, &network)
}

/// Opens IN, and replays it if OUT and FILE may be written.
fn replay_texts<H: Host>(
    host: &mut H,
    task: &ReplayTask<'_>,
    rules: &[u8],
    network: &[u8],
) -> Result<bool, Status>
    ensures { MakesCalls H.happens host.old host.new (λ calls.
        Opens task.now rules.now network.now calls (replay_status result)) }
{
    let input = host.open(task.paths.input)?;
    check_output(host, task)?;
    check_report(host, task)?;
    let hasher = host.draw_keys()?;
    let inputs = RunInputs {
        hasher,
        rules,
        network,
        trace: task.trace,
    };
    play(host, task, inputs, input)
}

/// Creates OUT and, if there is one, FILE, and runs.
fn play<H: Host>(
    host: &mut H,
    task: &ReplayTask<'_>,
    inputs: RunInputs<'_>,
    input: H::Input,
) -> Result<bool, Status>
    ensures { MakesCalls H.happens host.old host.new (λ calls.
        Creates task.now inputs.entry input calls (replay_status result)) }
{
    let output = host.create(task.paths.output)?;
    let report = create_report(host, task)?;
    let mut files = RunFiles {
        input,
        output,
        report,
    };
    Ok(host.run(inputs, &mut files)?)
}

/// Writing OUT must not overwrite what is read, nor the report.
fn check_output<H: Host>(host: &mut H, task: &ReplayTask<'_>) -> Result<(), Status>
    ensures { MakesCalls H.happens host.old host.new (λ calls.
        ChecksOutputPath SameFile task.now.paths.output.now
        (others_of (name_of_file task.now.report) task.now.paths) calls result) }
{
    let paths = &task.paths;
    let inputs = [paths.rules, paths.network, paths.input];
    match task.report {
        Some(_) => check_output_path(host, Status::SameFile, paths.output, &inputs),
        None => {
            let others = [paths.rules, paths.network, paths.input, STANDARD_OUTPUT];
            check_output_path(host, Status::SameFile, paths.output, &others)
        }
    }
}

/// Writing the report must not overwrite what is read, nor OUT.
fn check_report<H: Host>(host: &mut H, task: &ReplayTask<'_>) -> Result<(), Status>
    ensures { MakesCalls H.happens host.old host.new (λ calls.
        ChecksReportPath (name_of_file task.now.report) task.now.paths calls result) }
{
    let Some(file) = task.report else {
        return Ok(());
    };
    let paths = &task.paths;
    let others = [paths.rules, paths.network, paths.input, paths.output];
    check_output_path(host, Status::SameReport, file, &others)
}

/// Creates the file for the report, if there is one. OUT exists by now, so FILE is compared with it
/// again.
fn create_report<H: Host>(host: &mut H, task: &ReplayTask<'_>) -> Result<Option<H::Output>, Status>
    ensures { MakesCalls H.happens host.old host.new (λ calls.
        CreatesReport (name_of_file task.now.report) task.now.paths calls result) }
{
    let Some(file) = task.report else {
        return Ok(None);
    };
    check_output_path(host, Status::SameReport, file, &[task.paths.output])?;
    Ok(Some(host.create(file)?))
}

/// Fails with the status `same` if a file to write is the same regular file as one of the others.
fn check_output_path<H: Host>(
    host: &mut H,
    same: Status,
    path: &str,
    others: &[&str],
) -> Result<(), Status>
    ensures { MakesCalls H.happens host.old host.new (λ calls.
        ChecksOutputPath same path.now (map (λ other. other.now) others.entry.now) calls result) }
{
    let file = match host.identify(path) {
        Ok(file) => file,
        Err(error) => return ignore_not_found(&error),
    };
    for other in others {
        compare(host, same, file, other)?;
    }
    Ok(())
}

fn compare<H: Host>(
    host: &mut H,
    same: Status,
    file: FileIdentity,
    path: &str,
) -> Result<(), Status>
    ensures { (answer : Result FileIdentity Error)
        × H.happens host.old (identify path.now answer) host.new
        × (result ≡ compared same file answer) }
{
    match host.identify(path) {
        Ok(other) if file.is_same_file(other) => Err(same),
        Ok(_) => Ok(()),
        Err(error) => ignore_not_found(&error),
    }
}

fn ignore_not_found(error: &io::Error) -> Result<(), Status>
    ensures { result ≡ unless_not_found (error_kind error.now) (of_error error.now) }
{
    match error.kind() {
        io::ErrorKind::NotFound => Ok(()),
        _ => Err(Status::of_io(error)),
    }
}
