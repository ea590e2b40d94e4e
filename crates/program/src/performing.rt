//! The program as a whole.
ghost use Rattle.std.specs.Prelude.{◌≡◌, ◌++◌, IfOk, map, string_bytes};
ghost use Rattle.program.specs.Status.{code_of};
ghost use Rattle.program.specs.steps.Finishing.{ParsesRunsAndPrints};
ghost use Rattle.clap.specs.Values.{kind_of};
ghost use Rattle.program.specs.Calls.{HappenInOrder, MakesCalls};
ghost use Rattle.program.specs.Performing.{Explains, Performs, RunsTask, Shows, all_faults_calls, asks_all};
ghost use Rattle.program.specs.Performing.{detail_calls, explanation_calls, is_replayed, is_success, meaning_calls};
ghost use Rattle.program.specs.Performing.{nft_calls, remark_calls, status_line_calls, usage_status};

use crate::diffing::diff;
use crate::examining::examine;
use crate::host::Host;
use crate::reaching::reach;
use crate::replaying::replay;
use crate::status::Status;
use clap::Error;
use clap::error::ErrorKind;
use command_line::Task;
use std::alloc::{AllocError, Global};

/// Runs the task of the command line, prints the line of a status that has one, then its
/// explanation with `--explain` or on a terminal, all faults with `--all` and what nft(8) refuses
/// with `--nft`, and returns the exit status.
pub fn perform<H: Host>(alloc: Global, host: &mut H) -> u8
    // These are all calls, in order: the status's line and the explanations after it come last.
    ensures { MakesCalls H.happens host.old host.new (λ calls. Performs calls result) }
{
    let words = match host.words() {
        Ok(words) => words,
        Err(error) => return end(host, Status::of_words(&error)),
    };
    let terminal = host.errors_to_terminal();
    match slices_of(alloc, &words) {
        Ok(slices) => parse_and_run(alloc, host, &slices, terminal),
        Err(_) => end(host, Status::Memory),
    }
}

fn slices_of<'a>(alloc: Global, words: &'a [String]) -> Result<Vec<&'a str>, AllocError>
    ensures { IfOk result (λ slices.
        map (λ slice. slice.now) slices.items ≡ map string_bytes words.entry.now) }
{
    let mut slices = Vec::new(alloc);
    for word in words {
        slices.push(word.as_str())?;
    }
    Ok(slices)
}

/// Prints the line of a status that has one, and returns its exit status.
fn end<H: Host>(host: &mut H, status: Status) -> u8
    ensures { HappenInOrder H.happens host.old (status_line_calls status) host.new
        × (result ≡ code_of status) }
{
    if status.has_line() {
        host.print_status(status);
    }
    status.code()
}

fn parse_and_run<H: Host>(alloc: Global, host: &mut H, words: &[&str], terminal: bool) -> u8
    ensures { MakesCalls H.happens host.old host.new (λ calls.
        ParsesRunsAndPrints terminal (map (λ w. w.now) words.entry.now) calls result) }
{
    match command_line::task(alloc, words) {
        Ok(task) => {
            let status = run_task(host, &task);
            let code = end(host, status);
            add_details(host, terminal, status, &task);
            code
        }
        Err(error) => {
            let status = explain(host, &error);
            end(host, status)
        }
    }
}

/// Runs a task.
fn run_task<H: Host>(host: &mut H, task: &Task<'_>) -> Status
    ensures { MakesCalls H.happens host.old host.new (λ calls. RunsTask task.now calls result) }
{
    match task {
        Task::Run(task) => replay(host, task),
        Task::Check(task) => examine(host, &task.texts),
        Task::Reach(task) => reach(host, task),
        Task::Diff(task) => diff(host, task),
        Task::Explain(code) => show(host, code),
    }
}

/// Prints what comes after the line of a status.
fn add_details<H: Host>(host: &mut H, terminal: bool, status: Status, task: &Task<'_>)
    ensures { HappenInOrder H.happens
        host.old (detail_calls terminal task.now status) host.new }
{
    explain_if_asked(host, terminal, status, task);
    list_faults(host, status, task);
    warn_of_nft(host, status, task);
}

/// Prints what a status that has a line means, and what of a capture that was replayed may mislead,
/// where faults are explained.
fn explain_if_asked<H: Host>(host: &mut H, terminal: bool, status: Status, task: &Task<'_>)
    ensures { HappenInOrder H.happens
        host.old (explanation_calls terminal task.now status) host.new }
{
    if task.is_explained(terminal) {
        explain_all(host, status, task);
    }
}

fn explain_all<H: Host>(host: &mut H, status: Status, task: &Task<'_>)
    ensures { HappenInOrder H.happens
        host.old (meaning_calls task.now status ++ remark_calls task.now status) host.new }
{
    explain_status(host, status, task);
    remark_on_capture(host, status, task);
}

/// Prints what a status that has a line means.
fn explain_status<H: Host>(host: &mut H, status: Status, task: &Task<'_>)
    ensures { HappenInOrder H.happens host.old (meaning_calls task.now status) host.new }
{
    if status.has_line() {
        host.explain_status(status, task);
    }
}

fn remark_on_capture<H: Host>(host: &mut H, status: Status, task: &Task<'_>)
    ensures { HappenInOrder H.happens host.old (remark_calls task.now status) host.new }
{
    match task {
        Task::Run(run) => {
            if is_replayed(status) {
                host.remark_on_capture(&run.paths);
            }
        }
        Task::Check(_) | Task::Reach(_) | Task::Diff(_) | Task::Explain(_) => {}
    }
}

/// Whether the capture of a run was replayed to its end.
fn is_replayed(status: Status) -> bool
    ensures { result ≡ is_replayed status }
{
    matches!(status, Status::Success | Status::Torn)
}

/// Prints what nft(8) refuses of a ruleset that was accepted, with `--nft`.
fn warn_of_nft<H: Host>(host: &mut H, status: Status, task: &Task<'_>)
    ensures { HappenInOrder H.happens host.old (nft_calls task.now status) host.new }
{
    match task {
        Task::Check(check) => {
            if check.nft && is_success(status) {
                host.warn_of_nft(&check.texts);
            }
        }
        Task::Run(_) | Task::Reach(_) | Task::Diff(_) | Task::Explain(_) => {}
    }
}

fn is_success(status: Status) -> bool
    ensures { result ≡ is_success status }
{
    matches!(status, Status::Success)
}

/// Prints all faults, with `--all`.
fn list_faults<H: Host>(host: &mut H, status: Status, task: &Task<'_>)
    ensures { HappenInOrder H.happens host.old (all_faults_calls task.now status) host.new }
{
    if asks_all(task) && status.has_line() {
        host.list_faults(task);
    }
}

/// Whether the task is a check with `--all`.
fn asks_all(task: &Task<'_>) -> bool
    ensures { result ≡ asks_all task.now }
{
    match task {
        Task::Check(task) => task.all,
        _ => false,
    }
}

/// Prints what a code means.
fn show<H: Host>(host: &mut H, code: &str) -> Status
    ensures { MakesCalls H.happens host.old host.new (λ calls. Shows code.now calls result) }
{
    let Some(explanation) = explanations::explain(code) else {
        return Status::UnknownCode;
    };
    match host.show(&explanation) {
        Ok(()) => Status::Success,
        Err(error) => Status::of_io(&error),
    }
}

/// Prints clap's message: the usage, or the help that was requested.
fn explain<H: Host>(host: &mut H, error: &Error) -> Status
    ensures { MakesCalls H.happens host.old host.new (λ calls.
        Explains (kind_of error.now) calls result) }
{
    if error.kind() == ErrorKind::OutOfMemory {
        return Status::Memory;
    }
    match host.explain(error) {
        Ok(()) => usage_status(error.kind()),
        Err(failed) => Status::of_io(&failed),
    }
}

/// Help that was requested is a success.
fn usage_status(kind: ErrorKind) -> Status
    ensures { result ≡ usage_status kind }
{
    match kind {
        ErrorKind::DisplayHelp | ErrorKind::DisplayVersion => Status::Success,
        _ => Status::Usage,
    }
}
