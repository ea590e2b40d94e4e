//! The command line as clap's `Command`.
ghost use Rattle.std.specs.Prelude.{◌≡◌, IfOk, Some, false, fold};
ghost use Rattle.clap.specs.Words.{app_of, new_app, rule_of};
ghost use Rattle.clap.specs.declared.builder.command.Command.TheViews.{out-Command};
ghost use Rattle.command_line.specs.Statuses.{Lists, statuses_of};
ghost use Rattle.command_line.specs.declared.program.ExplainFlags.TheVariants.{Free};
ghost use Rattle.command_line.specs.steps.Program.{app_for, flag_rule, path_rule, program_app, file_rule, rule_for, top_app, with_described};

use clap::{Arg, ArgAction, Command};
use std::alloc::{AllocError, Global};

/// What `--version` prints.
const VERSION: &str = "1.0.0";

const TRACE_HELP: &str = "Tells each decision of a rule, each policy and how each record ends";

const ALL_HELP: &str = "Tells all faults of RULES that can be found, and not the first alone";

const NFT_HELP: &str =
    "Warns of what nft(8) 1.0.6 refuses, or of what means something else on Linux";

const SETS_HELP: &str = "Tells of each rule which packets reach and meet it, as matches of nft(8)";

const REPORT_HELP: &str = "Writes the report to FILE instead of standard output";

const ASSUME_HELP: &str =
    "Compares only packets that the one filter chain of the ruleset FILTER accepts";

const EXPLAIN_HELP: &str =
    "Tells what a fault means, and where it is; on a terminal that is done without it";

const NO_EXPLAIN_HELP: &str = "Tells no more than the line of a fault, not on a terminal either";

/// The end of `--help`.
const NOTES: &str = "\
With --explain, run, check, reach and diff tell what a fault means, and where it
is. Where standard error is a terminal they do so without it; --no-explain turns
it off.

Exit statuses:
  0  done; for check: accepted; for reach: each rule can be met; for diff: the same for every packet
  1  the ruleset is rejected
  2  the command line isn't understood, or a file to write is one to read
  3  the box file is rejected
  4  the capture is rejected
  5  a file can't be opened, or a read or write failed
  6  out of memory
  7  the capture ends in the middle of a record
  8  a rule can't be met
  9  for reach and diff: the answer is too large to compute
  10  for diff: the rulesets differ

Examples:
  nftrun check --explain rules.nft box.txt
  nftrun run --trace --report report.txt rules.nft box.txt in.pcap out.pcap";

/// The end of `run --help`.
const RUN_NOTES: &str = "\
With --explain the end of a run tells what in IN may mislead. A path that begins
with a hyphen goes after --. A run of more than a second tells each second how
much of IN is read, if standard error is a terminal.

Exit statuses:
  0  done
  1  the ruleset is rejected
  2  the command line isn't understood, or OUT or FILE is one of the other files
  3  the box file is rejected
  4  the capture is rejected
  5  a file can't be opened, or a read or write failed
  6  out of memory
  7  the capture ends in the middle of a record

Examples:
  nftrun run rules.nft box.txt in.pcap out.pcap
  nftrun run --report report.txt rules.nft box.txt in.pcap /dev/stdout | tcpdump -nr -";

/// The end of `check --help`.
const CHECK_NOTES: &str = "\
--nft warns of rulesets that are accepted. A path that begins with a hyphen goes
after --.

Exit statuses:
  0  the ruleset is accepted
  1  the ruleset is rejected
  2  the command line isn't understood
  3  the box file is rejected
  5  a file can't be opened, or a read or write failed
  6  out of memory

Examples:
  nftrun check rules.nft box.txt
  nftrun check --nft rules.nft box.txt";

/// The end of `reach --help`.
const REACH_NOTES: &str = "\
Of each rule it tells whether some packet can meet it, and which earlier rules
take the packets of one that none meets; of each base chain whether its policy
can apply. With --explain it tells why a rule can't be met, and where it is. A
path that begins with a hyphen goes after --.

Exit statuses:
  0  each rule can be met
  1  the ruleset is rejected
  2  the command line isn't understood
  3  the box file is rejected
  5  a file can't be opened, or a read or write failed
  6  out of memory
  8  a rule can't be met
  9  the answer is too large to compute

Examples:
  nftrun reach rules.nft box.txt
  nftrun reach rules.nft box.txt | grep never
  nftrun reach --sets rules.nft box.txt";

/// The end of `diff --help`.
const DIFF_NOTES: &str = "\
It compares what two rulesets do with every packet, stage by stage of the hooks,
before any of them is loaded. A path that begins with a hyphen goes after --.

Exit statuses:
  0  the rulesets do the same with every packet
  1  a ruleset is rejected
  2  the command line isn't understood
  3  the box file is rejected
  5  a file can't be opened, or a read or write failed
  6  out of memory
  9  the answer is too large to compute
  10  the rulesets differ

Examples:
  nftrun diff old.nft new.nft box.txt
  nftrun diff --assume filter.nft old.nft new.nft box.txt";

/// A help that lists exit statuses.
#[derive(Clone, Copy)]
pub(crate) enum Help {
    /// `nftrun --help`
    Program,
    /// `nftrun run --help`
    Run,
    /// `nftrun check --help`
    Check,
    /// `nftrun reach --help`
    Reach,
    /// `nftrun diff --help`
    Diff,
}

impl Help {
    /// Its end: notes, the exit statuses and examples.
    fn notes(self) -> &'static str
        ensures { Lists (statuses_of self) result.now }
    {
        match self {
            Help::Program => NOTES,
            Help::Run => RUN_NOTES,
            Help::Check => CHECK_NOTES,
            Help::Reach => REACH_NOTES,
            Help::Diff => DIFF_NOTES,
        }
    }
}

/// A subcommand, as its help describes it.
pub(crate) struct Subcommand {
    name: &'static str,
    about: &'static str,
    help: Option<Help>,
    arguments: &'static [Argument],
}

/// An argument of a subcommand.
pub(crate) enum Argument {
    /// A required positional argument: its id, its name in the usage, and its help.
    Path(&'static str, &'static str, &'static str),
    /// A flag: its name and its help.
    Flag(&'static str, &'static str),
    /// An option that has a file: its name, the file's name in the usage, and its help.
    File(&'static str, &'static str, &'static str),
}

/// How `--explain` and `--no-explain` stand to each other in a command.
#[derive(Clone, Copy)]
pub(crate) enum ExplainFlags {
    /// Both may be given.
    Free,
    /// They exclude each other.
    Excluding,
}

static SUBCOMMANDS: [Subcommand; 5] = [
    Subcommand {
        name: "run",
        about: "Replays a capture through a ruleset",
        help: Some(Help::Run),
        arguments: &[
            Argument::Path("rules", "RULES", "The file of the ruleset"),
            Argument::Path("network", "BOX", "The file of the box"),
            Argument::Path("input", "IN", "The capture to read"),
            Argument::Path("output", "OUT", "The capture to write"),
            Argument::Flag("trace", TRACE_HELP),
            Argument::Flag("explain", EXPLAIN_HELP),
            Argument::Flag("no-explain", NO_EXPLAIN_HELP),
            Argument::File("report", "FILE", REPORT_HELP),
        ],
    },
    Subcommand {
        name: "check",
        about: "Judges a ruleset before it is loaded",
        help: Some(Help::Check),
        arguments: &[
            Argument::Path("rules", "RULES", "The file of the ruleset"),
            Argument::Path("network", "BOX", "The file of the box"),
            Argument::Flag("all", ALL_HELP),
            Argument::Flag("explain", EXPLAIN_HELP),
            Argument::Flag("no-explain", NO_EXPLAIN_HELP),
            Argument::Flag("nft", NFT_HELP),
        ],
    },
    Subcommand {
        name: "reach",
        about: "Tells which rules some packet can meet",
        help: Some(Help::Reach),
        arguments: &[
            Argument::Path("rules", "RULES", "The file of the ruleset"),
            Argument::Path("network", "BOX", "The file of the box"),
            Argument::Flag("sets", SETS_HELP),
            Argument::Flag("explain", EXPLAIN_HELP),
            Argument::Flag("no-explain", NO_EXPLAIN_HELP),
        ],
    },
    Subcommand {
        name: "diff",
        about: "Tells which packets a new ruleset treats differently",
        help: Some(Help::Diff),
        arguments: &[
            Argument::Path("old", "OLD", "The file of the ruleset so far"),
            Argument::Path("new", "NEW", "The file of the ruleset to replace it"),
            Argument::Path("network", "BOX", "The file of the box"),
            Argument::Flag("explain", EXPLAIN_HELP),
            Argument::Flag("no-explain", NO_EXPLAIN_HELP),
            Argument::File("assume", "FILTER", ASSUME_HELP),
        ],
    },
    Subcommand {
        name: "explain",
        about: "Tells what a code means",
        help: None,
        arguments: &[Argument::Path("code", "CODE", "A code, such as E05, N12, B2 or P4")],
    },
];

/// The program's command, in which `--explain` and `--no-explain` stand to each other like that.
pub(crate) fn program<'a>(alloc: Global, flags: ExplainFlags) -> Result<Command<'a>, AllocError>
    ensures { flags ≡ Free → IfOk result (λ c. app_of c ≡ program_app) }
{
    with_subcommands(alloc, top(alloc), &SUBCOMMANDS, flags)
}

// Each subcommand has options of its own, so the help of the program only mentions them.
fn top<'a>(alloc: Global) -> Command<'a>
    ensures { app_of result ≡ top_app }
{
    Command::new(alloc, "nftrun")
        .about("Shows what each packet of a capture would meet in a ruleset of nft(8)")
        .after_help(Help::Program.notes())
        .version(VERSION)
        .subcommand_required(true)
}

fn with_subcommands<'a>(
    alloc: Global,
    mut command: Command<'a>,
    subcommands: &[Subcommand],
    flags: ExplainFlags,
) -> Result<Command<'a>, AllocError>
    ensures { flags ≡ Free → IfOk result (λ c.
        app_of c ≡ fold with_described (app_of command.entry) subcommands.now) }
{
    for subcommand in subcommands {
        command = command.subcommand(subcommand.command(alloc, flags)?)?;
    }
    Ok(command)
}

impl Subcommand {
    fn command<'a>(&self, alloc: Global, flags: ExplainFlags) -> Result<Command<'a>, AllocError>
        ensures app { flags ≡ Free → IfOk result (λ c. app_of c ≡ app_for self.now) }
        ensures local { IfOk result (λ c. (out-Command c).has_globals ≡ false) }
    {
        let mut command = self.bare_command(alloc);
        for argument in self.arguments {
            command = command.arg(argument.arg(alloc, flags)?)?;
        }
        Ok(command)
    }

    // The command without its arguments.
    fn bare_command<'a>(&self, alloc: Global) -> Command<'a>
        ensures app { app_of result ≡ new_app self.now.name.now }
        ensures local { (out-Command result).has_globals ≡ false }
    {
        let command = Command::new(alloc, self.name).about(self.about);
        match self.help {
            Some(help) => command.after_help(help.notes()),
            None => command,
        }
    }
}

impl Argument {
    fn arg<'a>(&self, alloc: Global, flags: ExplainFlags) -> Result<Arg<'a>, AllocError>
        ensures rule { flags ≡ Free → IfOk result (λ arg. rule_of arg ≡ rule_for self.now) }
        ensures local { IfOk result (λ arg. arg.global ≡ false) }
    {
        let arg = self.free_arg(alloc);
        if let (Argument::Flag("no-explain", _), ExplainFlags::Excluding) = (self, flags) {
            return arg.conflicts_with("explain");
        }
        Ok(arg)
    }

    // The argument, which excludes no other.
    fn free_arg<'a>(&self, alloc: Global) -> Arg<'a>
        ensures rule { rule_of result ≡ rule_for self.now }
        ensures local { result.global ≡ false }
    {
        match self {
            Argument::Path(name, value_name, help) => path(alloc, name, value_name, help),
            Argument::Flag(name, help) => flag(alloc, name, help),
            Argument::File(name, value_name, help) => file(alloc, name, value_name, help),
        }
    }
}

// A flag of this name.
fn flag<'a>(alloc: Global, name: &'a str, help: &'a str) -> Arg<'a>
    ensures rule { rule_of result ≡ flag_rule name.entry.now }
    ensures local { result.global ≡ false }
{
    Arg::new(alloc, name)
        .long(name)
        .help(help)
        .action(ArgAction::SetTrue)
}

// An option of this name, which has a file.
fn file<'a>(alloc: Global, name: &'a str, value_name: &'a str, help: &'a str) -> Arg<'a>
    ensures rule { rule_of result ≡ file_rule name.entry.now }
    ensures local { result.global ≡ false }
{
    Arg::new(alloc, name)
        .long(name)
        .value_name(value_name)
        .help(help)
}

// A required positional argument of one value.
fn path<'a>(alloc: Global, id: &'a str, value_name: &'a str, help: &'a str) -> Arg<'a>
    ensures rule { rule_of result ≡ path_rule id.entry.now }
    ensures local { result.global ≡ false }
{
    Arg::new(alloc, id)
        .value_name(value_name)
        .help(help)
        .required(true)
}
