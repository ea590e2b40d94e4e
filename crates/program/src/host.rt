//! The operating system's interface, abstracted for proofs.
use crate::diffing::DiffInputs;
use crate::fault::{DiffFault, ReachFault};
use crate::identity::FileIdentity;
use crate::status::Status;
use clap::Error;
use command_line::{CheckPaths, ReplayPaths, Task};
use engine::{Counts, RunFault};
use explanations::Explanation;
use progress::RunInputs;
use std::hash::RandomState;
use std::io;

/// The files of a run.
#[derive(Drop)]
pub struct RunFiles<I, O> {
    /// The capture that is read.
    pub input: I,
    /// The capture that is written.
    pub output: O,
    /// The report; without a file it goes to standard output.
    pub report: Option<O>,
}

/// The environment of the program: its command line, files by their paths, the engine over them,
/// and the lines that it prints.
///
/// No contract can state what a file holds. So a host has a relation `happens` of its own between
/// the state before a call, the call with its arguments and its result, and the state after it.
/// Nothing else is known of it, so what is proved over it is true of the calls that were made, in
/// their order.
pub trait Host {
    ghost use Rattle.clap.specs.Values.{kind_of};
    ghost use Rattle.program.specs.Calls.{Call, words, errors_to_terminal, read, open_input, identify, draw_keys};
    ghost use Rattle.program.specs.Calls.{create, run, judge, print_accepted, reach, diff, print_status};
    ghost use Rattle.program.specs.Calls.{explain_status, remark_on_capture, list_faults, warn_of_nft, show, explain, word_texts};
    ghost use Rattle.program.specs.Calls.{bytes_of};

    /// A capture open for reading.
    type Input: Drop;

    /// A capture, or a report, open for writing.
    type Output: Drop;

    /// Whether this call can lead from the first state to the second.
    ghost happens: { Self → Call Self.Input Self.Output → Self → Type 0 };

    /// The words of the command line, of which the first is the program's name.
    ///
    /// # Errors
    /// `InvalidData` where one isn't UTF-8.
    fn words(&mut self) -> io::Result<Vec<String>>
        ensures { happens self.old (words (word_texts result)) self.new };

    /// Whether standard error is a terminal.
    fn errors_to_terminal(&mut self) -> bool
        ensures { happens self.old (errors_to_terminal result) self.new };

    /// All bytes of a file.
    fn read(&mut self, path: &str) -> io::Result<Vec<u8>>
        ensures { happens self.old (read path.now (bytes_of result)) self.new };

    /// Opens a file for reading.
    fn open(&mut self, path: &str) -> io::Result<Self::Input>
        ensures { happens self.old (open_input path.now result) self.new };

    /// The identity of the file at a path, through symbolic links.
    ///
    /// # Errors
    /// `NotFound` where there is no file yet.
    fn identify(&mut self, path: &str) -> io::Result<FileIdentity>
        ensures { happens self.old (identify path.now result) self.new };

    /// Random keys of the system, for the hash tables of a run.
    fn draw_keys(&mut self) -> io::Result<RandomState>
        ensures { happens self.old (draw_keys result) self.new };

    /// Creates a file or truncates it, and opens it for writing.
    fn create(&mut self, path: &str) -> io::Result<Self::Output>
        ensures { happens self.old (create path.now result) self.new };

    /// Replays the capture through the ruleset on a box, writes the packets that leave, and prints
    /// the report. Returns whether the capture is torn.
    fn run(
        &mut self,
        inputs: RunInputs<'_>,
        files: &mut RunFiles<Self::Input, Self::Output>,
    ) -> Result<bool, RunFault>
        ensures { happens self.old (run inputs.entry files.old files.new result) self.new };

    /// Checks a ruleset, whose text the host may keep, for a box, and counts its tables, chains and
    /// rules.
    fn judge(&mut self, rules: Vec<u8>, network: &[u8]) -> Result<Counts, RunFault>
        ensures { happens self.old (judge rules.items network.now result) self.new };

    /// Prints the line of an accepted ruleset to standard output.
    fn print_accepted(&mut self, counts: Counts) -> io::Result<()>
        ensures { happens self.old (print_accepted counts result) self.new };

    /// Checks a ruleset, whose text the host may keep, for a box, and prints to standard output of
    /// each rule whether some packet can meet it, and of each base chain whether its policy can apply;
    /// with `sets` also which packets reach and meet each rule. Returns whether each rule can be met.
    fn reach(&mut self, rules: Vec<u8>, network: &[u8], sets: bool) -> Result<bool, ReachFault>
        ensures { happens self.old (reach rules.items network.now sets result) self.new };

    /// Checks two rulesets, and a third one whose filter chain accepts the packets in question, where
    /// there is one, each for a box, and prints to standard output what the first two do differently
    /// with packets. Returns whether they do the same.
    fn diff(&mut self, inputs: DiffInputs<'_>) -> Result<bool, DiffFault>
        ensures { happens self.old (diff inputs.entry result) self.new };

    /// Prints the status's line to standard error. A failed write is ignored: the exit status
    /// remains.
    fn print_status(&mut self, status: Status)
        ensures { happens self.old (print_status status) self.new };

    /// Prints to standard error what the status of a task means and where its fault is, as far as
    /// reading the task's files again shows it. The location is a heuristic.
    fn explain_status(&mut self, status: Status, task: &Task<'_>)
        ensures { happens self.old (explain_status status task.now) self.new };

    /// Prints to standard error what of the capture of a run may mislead, and how full the
    /// connection table got, as far as reading the task's files again shows it.
    fn remark_on_capture(&mut self, paths: &ReplayPaths<'_>)
        ensures { happens self.old (remark_on_capture paths.now) self.new };

    /// Prints all faults of a task's ruleset and box to standard error, as far as reading its files
    /// again shows them.
    fn list_faults(&mut self, task: &Task<'_>)
        ensures { happens self.old (list_faults task.now) self.new };

    /// Prints to standard error what nft(8) refuses of the ruleset that was accepted last, or means
    /// otherwise.
    fn warn_of_nft(&mut self, texts: &CheckPaths<'_>)
        ensures { happens self.old (warn_of_nft texts.now) self.new };

    /// Prints what a code means to standard output.
    fn show(&mut self, explanation: &Explanation) -> io::Result<()>
        ensures { happens self.old (show explanation.now.code.now result) self.new };

    /// Prints clap's message: the usage, or the help that was requested.
    fn explain(&mut self, error: &Error) -> io::Result<()>
        ensures { happens self.old (explain (kind_of error.now) result) self.new };
}
