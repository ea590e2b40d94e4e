//! Runs over the list tracker, which keeps connections in a plain list that is searched, where
//! `nftrun` finds them by an index and removes them from queues. With `run [--trace] RULES BOX IN
//! OUT` behind the test's name it writes what `nftrun run` has to, and `tests/rows/test-rows`
//! compares that with the stored runs; without words it compares one run with `engine::run`.
use crate::list_replay::replay_capture;
use crate::run_support::{AT_1_5, BOX, HEADER, NO_FAILURES, PLAIN, ROUTER, run_over};
use crate::support::bytes;
use engine::RunFault;
use pcap_io::Counted;
use program::Status;
use std::env::{self, Env};
use std::process::{Abort, ExitCode};
use std::rt::Files;
use std::{fs, io};

/// What a run is asked for.
#[derive(Clone, Copy)]
struct Words<'a> {
    trace: bool,
    rules: &'a str,
    network: &'a str,
    input: &'a str,
    output: &'a str,
}

/// Reads the words behind `run`; `None` where it isn't that.
fn read_words(words: &[String]) -> Option<Words<'_>> {
    let (trace, paths) = match words {
        [run, trace, paths @ ..] if run.as_str() == "run" && trace.as_str() == "--trace" => {
            (true, paths)
        }
        [run, paths @ ..] if run.as_str() == "run" => (false, paths),
        _ => return None,
    };
    let [rules, network, input, output] = paths else {
        return None;
    };
    Some(Words {
        trace,
        rules: rules.as_str(),
        network: network.as_str(),
        input: input.as_str(),
        output: output.as_str(),
    })
}

/// The fault of a system call that failed.
fn fault_of(error: &io::Error) -> RunFault {
    match error.kind() {
        io::ErrorKind::OutOfMemory => RunFault::Memory,
        _ => RunFault::Device,
    }
}

/// Runs the packets of a file. Returns whether the capture ends inside a record.
fn run_files<R: Files + Print + AllocGlobal>(rt: &R, words: &Words<'_>) -> Result<bool, RunFault> {
    let rules = fs::read(rt, words.rules).map_err(|error| fault_of(&error))?;
    let network = fs::read(rt, words.network).map_err(|error| fault_of(&error))?;
    let input = fs::open(rt, words.input).map_err(|error| fault_of(&error))?;
    let output = fs::create(rt, words.output).map_err(|error| fault_of(&error))?;
    replay_capture(
        rt.alloc(),
        &rules,
        &network,
        words.trace,
        &mut Counted::new(input),
        &mut Counted::new(output),
        &mut Counted::new(io::writer(rt)),
    )
}

/// A packet through the router gives the packets and the report of `engine::run`.
fn compare<R: Abort + AllocGlobal>(rt: &R) {
    let capture = bytes(rt, &[HEADER, AT_1_5, PLAIN]);
    let whole = run_over(rt.alloc(), ROUTER, BOX, &capture, true, NO_FAILURES);
    let mut reader = Counted::new(capture.as_slice());
    let mut sent = Counted::new(Vec::new(rt.alloc()));
    let mut report = Counted::new(Vec::new(rt.alloc()));
    let torn = replay_capture(
        rt.alloc(),
        ROUTER,
        BOX,
        true,
        &mut reader,
        &mut sent,
        &mut report,
    );
    assert!(rt; matches!(torn, Ok(false)));
    assert!(rt; !whole.sent.is_empty() && sent.into_inner() == whole.sent);
    assert!(rt; !whole.report.is_empty() && report.into_inner() == whole.report);
}

/// Runs the task of the words, and prints its line, if it has one. Returns the exit status.
fn start<R: Abort + Env + Files + Print + Eprint + AllocGlobal>(rt: &R) -> io::Result<u8> {
    let all: Vec<String> = env::args(rt)?.collect(rt.alloc())?;
    // The first are the program and the test.
    let words = all.get(2..).unwrap_or(&[]);
    if words.is_empty() {
        compare(rt);
        return Ok(0);
    }
    let Some(words) = read_words(words) else {
        eprintln!(rt; "the words are run [--trace] RULES BOX IN OUT")?;
        return Ok(2);
    };
    let status = match run_files(rt, &words) {
        Ok(torn) => Status::of(Ok(torn)),
        Err(fault) => Status::of(Err(&fault)),
    };
    if status.has_line() {
        eprintln!(rt; "{status}")?;
    }
    Ok(status.code())
}

#[test]
fn runs_as_nftrun(rt: HostRuntime) -> ExitCode {
    ExitCode::from(start(&rt).unwrap_or(1))
}
