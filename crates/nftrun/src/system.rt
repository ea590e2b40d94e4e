//! The host that makes the system calls: files, outputs, and the engine over them.
ghost use Rattle.progress.specs.Outputs.{capture_bytes};
ghost use Rattle.nftrun.specs.steps.Promised.{IsGuaranteed, held_by};

use crate::analysis::analyze;
use crate::closed_pipe::{PipeWriter, is_closed_pipe};
use crate::comparison::compare;
use crate::destination::Destination;
use crate::diagnosis::{
    explain_status, explain_unmet, list_faults, remark_on_capture, warn_of_nft,
};
use clap::Error;
use command_line::{CheckPaths, ReplayPaths, Task};
use devices::Counted;
use engine::{Counts, RunFault};
use explanations::Explanation;
use program::{DiffFault, DiffInputs, FileIdentity, Host, ReachFault, RunFiles, Status, perform};
use progress::{Progress, ProgressLine, ProgressReader, RunInputs, run_with_progress};
use reach_report::UnmetReasons;
use std::env::{self, Env};
use std::fs::OpenFile;
use std::hash::RandomState;
use std::io::{IsTerminal, Write};
use std::os::unix::fs::MetadataExt;
use std::random::RandomSource;
use std::rt::{Clock, Files};
use std::{fs, io};

/// The host of the operating system.
#[derive(Drop)]
struct System<'a, R> {
    rt: &'a R,
    terminals: Terminals,
    /// The size of IN in bytes, where it is known and progress is shown.
    size: Option<u64>,
    /// The last call that failed, for the message about it.
    failed: Option<Failed>,
    /// The text of the ruleset that was accepted last.
    accepted: Option<Vec<u8>>,
    /// Why rules can't be met, by the last answer.
    unmet: Option<UnmetReasons>,
}

/// Which of the outputs are terminals.
#[derive(Clone, Copy)]
struct Terminals {
    output: bool,
    errors: bool,
}

/// A call that failed.
#[derive(Drop)]
enum Failed {
    /// The system's message about a file.
    Call(String),
    /// A read of IN.
    Read,
    /// A write to OUT.
    Write,
    /// A write of the report.
    Report,
    /// A write to standard output, which nobody reads any more.
    ClosedPipe,
}

impl Failed {
    /// Which call of a run failed, if one did. A device fault without a failed read of IN or write
    /// to OUT is one of the report.
    fn in_run(reads: u64, writes: u64, outcome: &Result<bool, RunFault>) -> Option<Failed> {
        match outcome {
            Err(RunFault::Device) if reads > 0 => Some(Failed::Read),
            Err(RunFault::Device) if writes > 0 => Some(Failed::Write),
            Err(RunFault::Device) => Some(Failed::Report),
            _ => None,
        }
    }
}

impl<R: AllocGlobal> System<'_, R> {
    /// Keeps the system's message of a call that failed.
    fn keep<T>(&mut self, subject: &str, answer: io::Result<T>) -> io::Result<T> {
        if is_closed_pipe(&answer) {
            self.failed = Some(Failed::ClosedPipe);
        } else if let Err(error) = &answer {
            let message = format!(in self.rt.alloc(); "{subject}: {error}");
            self.failed = match message {
                Ok(message) => Some(Failed::Call(message)),
                Err(_) => None,
            };
        }
        answer
    }
}

impl<R> System<'_, R> {
    /// How progress is shown beside the report, which goes to standard output or to a file; not at
    /// all where standard error is no terminal.
    fn progress(&self, to_output: bool) -> Option<Progress> {
        if !self.terminals.errors {
            return None;
        }
        let line = if to_output && self.terminals.output {
            ProgressLine::Appended
        } else {
            ProgressLine::Overwritten
        };
        Some(Progress {
            line,
            size: self.size,
        })
    }
}

/// The size of a regular file in bytes.
fn size_of(file: &impl OpenFile) -> Option<u64> {
    let found = file.metadata().ok()?;
    if found.is_file() {
        Some(found.len())
    } else {
        None
    }
}

impl<R: Eprint + AllocGlobal> System<'_, R> {
    /// Prints which call failed.
    fn print_failure(&self, task: &Task<'_>) -> io::Result<()> {
        let rt = self.rt;
        let (path, call) = match (&self.failed, task) {
            (Some(Failed::Call(message)), _) => return eprintln!(rt; "{}", message.as_str()),
            (Some(Failed::Read), Task::Run(run)) => (run.paths.input, "read"),
            (Some(Failed::Write), Task::Run(run)) => (run.paths.output, "write"),
            (Some(Failed::Report), Task::Run(run)) => {
                (run.report.unwrap_or("standard output"), "write")
            }
            _ => return Ok(()),
        };
        eprintln!(rt; "{path}: a {call} failed")
    }
}

impl<'a, R: Clock + Env + Files + Print + Eprint + RandomSource + AllocGlobal> Host
    for System<'a, R> {
    type Input = Counted<ProgressReader<'a, R, R::File>>;

    type Output = Counted<Destination<R::File>>;

    // What files hold can't be stated. What the engine guarantees of a run for its texts and its
    // capture can, and so can what it guarantees of a check, and of the texts of an analysis or a
    // comparison.
    ghost happens = { λ _ call _.
        IsGuaranteed (capture_bytes R.File.remaining) (held_by R.File.contents) call };

    fn words(&mut self) -> io::Result<Vec<String>> {
        Ok(env::args(self.rt)?.collect(self.rt.alloc())?)
    }

    fn errors_to_terminal(&mut self) -> bool {
        self.terminals.errors
    }

    fn read(&mut self, path: &str) -> io::Result<Vec<u8>> {
        let answer = fs::read(self.rt, path);
        self.keep(path, answer)
    }

    fn open(&mut self, path: &str) -> io::Result<Self::Input> {
        let answer = fs::open(self.rt, path);
        let file = self.keep(path, answer)?;
        if self.terminals.errors {
            self.size = size_of(&file);
        }
        Ok(Counted::new(ProgressReader::new(Counted::new(file))))
    }

    // stat(2): follows symbolic links.
    fn identify(&mut self, path: &str) -> io::Result<FileIdentity> {
        let answer = fs::metadata(self.rt, path);
        let found = self.keep(path, answer)?;
        Ok(FileIdentity {
            is_regular: found.is_file(),
            device: found.dev(),
            inode: found.ino(),
        })
    }

    fn draw_keys(&mut self) -> io::Result<RandomState> {
        let answer = RandomState::new(self.rt);
        self.keep("random bytes", answer)
    }

    fn create(&mut self, path: &str) -> io::Result<Self::Output> {
        let answer = fs::create(self.rt, path);
        Ok(Counted::new(Destination::File(self.keep(path, answer)?)))
    }

    fn run(
        &mut self,
        inputs: RunInputs<'_>,
        files: &mut RunFiles<Self::Input, Self::Output>,
    ) -> Result<bool, RunFault> {
        let rt = self.rt;
        let progress = self.progress(files.report.is_none());
        let RunFiles {
            input,
            output,
            report,
        } = files;
        let mut is_closed = false;
        let outcome = match report {
            Some(file) => run_with_progress(rt, inputs, progress, input, output, file),
            None => {
                let mut writer = Counted::new(PipeWriter::new(io::writer(rt)));
                let outcome = run_with_progress(rt, inputs, progress, input, output, &mut writer);
                is_closed = writer.into_inner().is_closed();
                outcome
            }
        };
        self.failed = if is_closed {
            Some(Failed::ClosedPipe)
        } else {
            Failed::in_run(input.failures(), output.failures(), &outcome)
        };
        outcome
    }

    fn judge(&mut self, rules: Vec<u8>, network: &[u8]) -> Result<Counts, RunFault> {
        let answer = engine::judge(self.rt.alloc(), &rules, network);
        self.accepted = match &answer {
            Ok(_) => Some(rules),
            Err(_) => None,
        };
        answer
    }

    fn print_accepted(&mut self, counts: Counts) -> io::Result<()> {
        let rt = self.rt;
        let answer = println!(rt;
            "accepted tables {} chains {} rules {}",
            counts.tables, counts.chains, counts.rules
        );
        self.keep("standard output", answer)
    }

    fn reach(&mut self, rules: Vec<u8>, network: &[u8], sets: bool) -> Result<bool, ReachFault> {
        let rt = self.rt;
        let found = analyze(rt.alloc(), &rules, network, sets)?;
        let answer = io::writer(rt).write_all(&found.lines);
        self.unmet = Some(found.unmet);
        self.keep("standard output", answer)?;
        Ok(found.is_met)
    }

    fn diff(&mut self, inputs: DiffInputs<'_>) -> Result<bool, DiffFault> {
        let rt = self.rt;
        let found = compare(rt.alloc(), inputs)?;
        let answer = io::writer(rt).write_all(&found.text);
        self.keep("standard output", answer)?;
        Ok(found.same)
    }

    fn print_status(&mut self, status: Status) {
        let rt = self.rt;
        let _ = eprintln!(rt; "{status}");
    }

    fn explain_status(&mut self, status: Status, task: &Task<'_>) {
        explain_status(self.rt, status, task);
        match status {
            Status::Device => {
                let _ = self.print_failure(task);
            }
            Status::Unmet => {
                if let (Some(unmet), Task::Reach(reach)) = (&self.unmet, task) {
                    explain_unmet(self.rt, reach.texts.rules, unmet);
                }
            }
            _ => {}
        }
    }

    fn remark_on_capture(&mut self, paths: &ReplayPaths<'_>) {
        remark_on_capture(self.rt, paths);
    }

    fn list_faults(&mut self, task: &Task<'_>) {
        list_faults(self.rt, task);
    }

    fn warn_of_nft(&mut self, texts: &CheckPaths<'_>) {
        if let Some(text) = &self.accepted {
            warn_of_nft(self.rt, texts.rules, text);
        }
    }

    fn show(&mut self, explanation: &Explanation) -> io::Result<()> {
        let rt = self.rt;
        let answer = println!(rt;
            "{}: {}\n\n{}",
            explanation.code, explanation.sentence, explanation.paragraph
        );
        self.keep("standard output", answer)
    }

    fn explain(&mut self, error: &Error) -> io::Result<()> {
        error.print(self.rt)
    }
}

/// Runs the program on the process's own command line, and returns the exit status.
///
/// Where `errors` (standard error) is a terminal, a run of more than a second shows its progress
/// there: on one line that is overwritten, or on lines of their own where the report goes to a
/// terminal (`output`, standard output) too.
pub fn start<R: Clock + Env + Files + Print + Eprint + RandomSource + AllocGlobal>(
    rt: &R,
    output: &impl IsTerminal,
    errors: &impl IsTerminal,
) -> u8 {
    let terminals = Terminals {
        output: output.is_terminal(),
        errors: errors.is_terminal(),
    };
    perform(
        rt.alloc(),
        &mut System {
            rt,
            terminals,
            size: None,
            failed: None,
            accepted: None,
            unmet: None,
        },
    )
}
