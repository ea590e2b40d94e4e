//! Parses a command line.
ghost use Rattle.std.specs.Prelude.{◌≡◌, IfErr, IfOk, MatchOption, codes, map, true};
ghost use Rattle.clap.specs.Words.{found_of, kind_of};
ghost use Rattle.command_line.specs.CommandLine.{RequestsTask, is_well_formed};
ghost use Rattle.command_line.specs.steps.Given.{Contradicts, GivesExplaining, GivesTask, value_at};

use crate::program::{ExplainFlags, program};
use crate::tasks::{
    CheckPaths, CheckTask, DiffPaths, DiffTask, Explaining, ReachTask, ReplayPaths, ReplayTask,
    Task,
};
use clap::error::ErrorKind;
use clap::{ArgMatches, Error};
use std::alloc::{AllocError, Global};

/// Parses the words of the command line, of which the first is the program's name.
///
/// The others are `run` and four paths, in the order RULES, BOX, IN, OUT; or `check` or `reach` and
/// two, in the order RULES, BOX; or `diff` and three, in the order OLD, NEW, BOX; or `explain` and a
/// code. A path or code that begins with a hyphen goes after a word `--`, which is no path itself; `-`
/// alone is a path.
///
/// A run may have `--trace` once, and `--report FILE` or `--report=FILE` once; a check may have
/// `--all` and `--nft`, once each, `reach` may have `--sets` once, and `diff` `--assume FILTER` or
/// `--assume=FILTER` once; all four may have `--explain` or `--no-explain`, which exclude each other.
/// Options may be anywhere between the subcommand and the first `--`, behind which each word is a
/// path. A FILE that begins with a hyphen is given as `--report=FILE`, and so is a FILTER.
///
/// # Errors
/// clap's, whose `exit_code` is 0 where help was requested, and 2 where the words are no task.
pub fn task<'a>(alloc: Global, words: &'a [&'a str]) -> Result<Task<'a>, Error>
    ensures requested { IfOk result (RequestsTask (map (λ w. w.now) words.entry.now)) }
    ensures refused { IfErr result (λ e. is_well_formed (map (λ w. w.now) words.entry.now) ≡ true
        → kind_of e ≡ ErrorKind.OutOfMemory) }
{
    let matches = program(alloc, ExplainFlags::Free)?.try_get_matches_from(words)?;
    let (name, given) = matches.subcommand().unwrap();
    match task_of(name, given) {
        Some(task) => Ok(task),
        None => Err(contradiction(alloc, words)),
    }
}

// Why words with `--explain` and `--no-explain` are no task. What clap's contract says of the words of
// a command holds where no argument excludes another, so these exclude each other in a command of
// their own, which refuses the words.
fn contradiction<'a>(alloc: Global, words: &'a [&'a str]) -> Error {
    match program(alloc, ExplainFlags::Excluding) {
        Ok(command) => match command.try_get_matches_from(words) {
            Ok(_) => Error::from(AllocError),
            Err(error) => error,
        },
        Err(error) => Error::from(error),
    }
}

// The task of a subcommand, by its name and its matches; none where both `--explain` and
// `--no-explain` are given.
fn task_of<'a>(name: &str, given: &ArgMatches<'a>) -> Option<Task<'a>>
    ensures { MatchOption result (Contradicts name.now (found_of given.now))
        (GivesTask name.now (found_of given.now)) }
{
    if name == "explain" {
        return Some(Task::Explain(value_of(given, "code")));
    }
    let explaining = explaining_of(given)?;
    Some(match name {
        "check" => Task::Check(CheckTask {
            all: given.get_flag("all"),
            nft: given.get_flag("nft"),
            explaining,
            texts: texts_of(given),
        }),
        "reach" => Task::Reach(ReachTask {
            sets: given.get_flag("sets"),
            explaining,
            texts: texts_of(given),
        }),
        "diff" => Task::Diff(DiffTask {
            explaining,
            assumed: given.get_str("assume"),
            paths: diff_paths_of(given),
        }),
        _ => Task::Run(ReplayTask {
            trace: given.get_flag("trace"),
            explaining,
            report: given.get_str("report"),
            paths: replay_paths_of(given),
        }),
    })
}

// The paths of a run.
fn replay_paths_of<'a>(given: &ArgMatches<'a>) -> ReplayPaths<'a>
    ensures rules { result.rules.now ≡ value_at (found_of given.now) (codes "rules") }
    ensures network { result.network.now ≡ value_at (found_of given.now) (codes "network") }
    ensures input { result.input.now ≡ value_at (found_of given.now) (codes "input") }
    ensures output { result.output.now ≡ value_at (found_of given.now) (codes "output") }
{
    ReplayPaths {
        rules: value_of(given, "rules"),
        network: value_of(given, "network"),
        input: value_of(given, "input"),
        output: value_of(given, "output"),
    }
}

// The paths of two rulesets and a box.
fn diff_paths_of<'a>(given: &ArgMatches<'a>) -> DiffPaths<'a>
    ensures old { result.old.now ≡ value_at (found_of given.now) (codes "old") }
    ensures new { result.new.now ≡ value_at (found_of given.now) (codes "new") }
    ensures network { result.network.now ≡ value_at (found_of given.now) (codes "network") }
{
    DiffPaths {
        old: value_of(given, "old"),
        new: value_of(given, "new"),
        network: value_of(given, "network"),
    }
}

// The paths of a ruleset and a box.
fn texts_of<'a>(given: &ArgMatches<'a>) -> CheckPaths<'a>
    ensures rules { result.rules.now ≡ value_at (found_of given.now) (codes "rules") }
    ensures network { result.network.now ≡ value_at (found_of given.now) (codes "network") }
{
    CheckPaths {
        rules: value_of(given, "rules"),
        network: value_of(given, "network"),
    }
}

// Whether faults are explained; none where both flags are given.
fn explaining_of(given: &ArgMatches<'_>) -> Option<Explaining>
    ensures { GivesExplaining (found_of given.now) result }
{
    match (given.get_flag("explain"), given.get_flag("no-explain")) {
        (true, true) => None,
        (true, false) => Some(Explaining::Always),
        (false, true) => Some(Explaining::Never),
        (false, false) => Some(Explaining::OnTerminal),
    }
}

// The value of an argument that is required, so it has one.
fn value_of<'a>(given: &ArgMatches<'a>, id: &str) -> &'a str
    ensures { result.now ≡ value_at (found_of given.now) id.now }
{
    given.get_str(id).unwrap_or("")
}
