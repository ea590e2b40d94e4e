//! Explains a status and locates its fault.
use crate::destination::Destination;
use box_file::Plant;
use capture_remarks::{Fullness, SecondRun, Texts, capture_location, remarks, table_remarks};
use command_line::{DiffTask, ReplayPaths, Task};
use engine::RulesFault;
use fault_advice::explained;
use fault_location::{Fault, SourcePaths, Sources, all_faults};
use program::{RulesetRole, Status};
use reach_report::UnmetReasons;
use std::hash::RandomState;
use std::random::RandomSource;
use std::rt::Files;
use std::{fs, io};

/// Why an answer is too large, and what to try.
const TOO_LARGE: &str = "\
The sets of packets get too large, or chains call one another more than 256 deep.
Sets grow where many rules test several fields, each with other values: ask of parts of the ruleset,
as of one table or base chain, or write rules that test fewer fields.";

/// Prints to standard error what the status of a task means and where its fault is.
///
/// The location is a heuristic: no contract says which one is reported. Regular files are read
/// again for it; a pipe has been read already.
pub fn explain_status<R: Files + Eprint + AllocGlobal>(rt: &R, status: Status, task: &Task<'_>) {
    if let (Some(fault), Some(paths)) = (
        fault_of(status),
        source_paths(task, rejected_role(status)),
    ) {
        let _ = print_faults(rt, Some(fault), paths);
    }
    if let Task::Run(run) = task {
        let _ = print_capture_location(rt, status, run.paths.input);
    }
    if matches!(status, Status::TooLarge) {
        let _ = eprintln!(rt; "{TOO_LARGE}");
    }
}

/// Prints why rules of the ruleset at this path can't be met.
pub fn explain_unmet<R: Eprint + AllocGlobal>(rt: &R, path: &str, unmet: &UnmetReasons) {
    let _ = print_unmet(rt, path, unmet);
}

fn print_unmet<R: Eprint + AllocGlobal>(
    rt: &R,
    path: &str,
    unmet: &UnmetReasons,
) -> io::Result<()> {
    let lines = unmet.lines(rt.alloc(), path)?;
    eprint!(rt; "{}", lines.as_str())
}

/// The paths of the ruleset and the box of a task that has them; of a comparison those of the ruleset
/// in this role.
fn source_paths<'a>(task: &Task<'a>, role: RulesetRole) -> Option<SourcePaths<'a>> {
    match task {
        Task::Run(run) => Some(SourcePaths {
            rules: run.paths.rules,
            network: run.paths.network,
        }),
        Task::Check(check) => Some(SourcePaths {
            rules: check.texts.rules,
            network: check.texts.network,
        }),
        Task::Reach(reach) => Some(SourcePaths {
            rules: reach.texts.rules,
            network: reach.texts.network,
        }),
        Task::Diff(diff) => Some(SourcePaths {
            rules: path_of(diff, role),
            network: diff.paths.network,
        }),
        Task::Explain(_) => None,
    }
}

/// The path of the ruleset of a comparison in this role.
fn path_of<'a>(diff: &DiffTask<'a>, role: RulesetRole) -> &'a str {
    match role {
        RulesetRole::Old => diff.paths.old,
        RulesetRole::New => diff.paths.new,
        RulesetRole::Filter => diff.assumed.unwrap_or(""),
    }
}

/// Which ruleset of a comparison the status rejects.
fn rejected_role(status: Status) -> RulesetRole {
    match status {
        Status::RulesIn(role, _) => role,
        _ => RulesetRole::Old,
    }
}

/// The fault of a status, if it has one.
fn fault_of(status: Status) -> Option<Fault> {
    match status {
        Status::Rules(RulesFault::Text(fault)) | Status::RulesIn(_, RulesFault::Text(fault)) => {
            Some(Fault::Text(fault))
        }
        Status::Rules(RulesFault::Check(fault)) | Status::RulesIn(_, RulesFault::Check(fault)) => {
            Some(Fault::Check(fault))
        }
        Status::Box(fault) => Some(Fault::Box(fault)),
        Status::Capture(fault) => Some(Fault::Capture(fault)),
        _ => None,
    }
}

/// Prints all faults of a check's ruleset and box to standard error, as far as they can be located.
pub fn list_faults<R: Files + Eprint + AllocGlobal>(rt: &R, task: &Task<'_>) {
    if let Some(paths) = source_paths(task, RulesetRole::Old) {
        let _ = print_faults(rt, None, paths);
    }
}

/// Prints what explains a fault of the texts at these paths, or else all their faults.
fn print_faults<R: Files + Eprint + AllocGlobal>(
    rt: &R,
    fault: Option<Fault>,
    paths: SourcePaths<'_>,
) -> io::Result<()> {
    let rules = read_again(rt, paths.rules);
    let network = read_again(rt, paths.network);
    let sources = Sources {
        paths,
        rules: &rules,
        network: &network,
    };
    let lines = match fault {
        Some(fault) => explained(rt.alloc(), fault, sources)?,
        None => all_faults(rt.alloc(), sources)?,
    };
    eprint!(rt; "{}", lines.as_str())
}

/// The bytes of a regular file; none where it can't be read.
fn read_again<R: Files + AllocGlobal>(rt: &R, path: &str) -> Vec<u8> {
    if is_regular(rt, path) {
        if let Ok(bytes) = fs::read(rt, path) {
            return bytes;
        }
    }
    Vec::new(rt.alloc())
}

fn is_regular<R: Files + AllocGlobal>(rt: &R, path: &str) -> bool {
    match fs::metadata(rt, path) {
        Ok(found) => found.is_file(),
        Err(_) => false,
    }
}

/// Prints where a capture has its fault or is torn.
fn print_capture_location<R: Files + Eprint + AllocGlobal>(
    rt: &R,
    status: Status,
    path: &str,
) -> io::Result<()> {
    if !matches!(status, Status::Capture(_) | Status::Torn) || !is_regular(rt, path) {
        return Ok(());
    }
    match capture_location(rt.alloc(), fs::open(rt, path)?) {
        Some(place) => eprintln!(rt; "{path}: {place}"),
        None => Ok(()),
    }
}

/// Prints to standard error what of the capture of a run may mislead, and how full the connection
/// table got, as far as the texts and the capture are regular files.
pub fn remark_on_capture<R: Files + Eprint + RandomSource + AllocGlobal>(
    rt: &R,
    paths: &ReplayPaths<'_>,
) {
    let _ = print_remarks(rt, paths);
}

fn print_remarks<R: Files + Eprint + RandomSource + AllocGlobal>(
    rt: &R,
    paths: &ReplayPaths<'_>,
) -> io::Result<()> {
    let path = paths.input;
    if !is_regular(rt, path) {
        return Ok(());
    }
    let text = read_again(rt, paths.network);
    let Ok(network) = Plant::read(rt.alloc(), &text) else {
        return Ok(());
    };
    let lines = remarks(rt.alloc(), path, fs::open(rt, path)?, &network)?;
    eprint!(rt; "{}", lines.as_str())?;
    // An empty text would be a ruleset, too.
    if !is_regular(rt, paths.rules) {
        return Ok(());
    }
    let rules = fs::read(rt, paths.rules)?;
    let texts = Texts {
        rules: &rules,
        network: &text,
    };
    print_fullness(rt, path, texts)
}

/// Prints to standard error how full the connection table gets as these texts are run over a capture
/// again.
fn print_fullness<R: Files + Eprint + RandomSource + AllocGlobal>(
    rt: &R,
    path: &str,
    texts: Texts<'_>,
) -> io::Result<()> {
    let hasher = RandomState::new(rt)?;
    let Some(run) = second_run(rt, path, hasher, texts)? else {
        return Ok(());
    };
    let mut fullness = Fullness::of(rt.alloc(), run)?;
    if fullness.lacks_hosts() {
        if let Some(again) = second_run(rt, path, hasher, texts)? {
            fullness.read_again(rt.alloc(), again)?;
        }
    }
    let lines = table_remarks(rt.alloc(), path, fullness)?;
    eprint!(rt; "{}", lines.as_str())
}

/// A run of these texts over a capture, which writes to no file.
fn second_run<R: Files + AllocGlobal>(
    rt: &R,
    path: &str,
    hasher: RandomState,
    texts: Texts<'_>,
) -> io::Result<Option<SecondRun<R::File, Destination<R::File>>>> {
    let capture = fs::open(rt, path)?;
    Ok(SecondRun::open(rt.alloc(), hasher, texts, capture, Destination::Nothing))
}

/// Prints to standard error what nft(8) refuses of a ruleset's text, or means otherwise.
pub fn warn_of_nft<R: Eprint + AllocGlobal>(rt: &R, path: &str, text: &[u8]) {
    let _ = print_warnings(rt, path, text);
}

fn print_warnings<R: Eprint + AllocGlobal>(rt: &R, path: &str, text: &[u8]) -> io::Result<()> {
    let lines = nft_differences::warnings(rt.alloc(), path, text)?;
    eprint!(rt; "{}", lines.as_str())
}
