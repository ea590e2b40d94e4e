//! Replays a capture over the list tracker, by the calls that `engine::run` makes.
use box_file::Plant;
use conntrack::ListTracker;
use engine::RunFault;
use nft_parser::parse;
use pcap_io::{Capture, CaptureError, CaptureFault, Counted, Sink};
use report::Report;
use rule_check::{Checked, check};
use std::alloc::Global;
use std::io::{Read, Write};
use stepping::{Engine, Processed};

/// The most records of a capture.
const MOST_RECORDS: u64 = 4_294_967_296;

/// How many notes may wait before they are written.
const MOST_PENDING: usize = 4096;

/// A run in progress.
#[derive(Drop)]
struct Replay {
    engine: Engine<ListTracker>,
    report: Report,
    records: Capture,
    sink: Sink,
}

/// Both texts, checked.
fn checked(alloc: Global, rules: &[u8], network: &[u8]) -> Result<Checked, RunFault> {
    let ruleset = parse(alloc, rules)?;
    let network = Plant::read(alloc, network)?;
    Ok(check(alloc, ruleset, network)?)
}

/// Writes the packets that leave, and the report. Returns whether the capture ends inside a record.
pub fn replay_capture<R: Read, W: Write, W2: Write>(
    alloc: Global,
    rules: &[u8],
    network: &[u8],
    trace: bool,
    capture: &mut Counted<R>,
    sent: &mut Counted<W>,
    report: &mut Counted<W2>,
) -> Result<bool, RunFault> {
    let checked = checked(alloc, rules, network)?;
    let records = Capture::open(alloc, capture)?;
    let engine = Engine::new(alloc, checked)?;
    let told = Report::new(alloc, engine.rules(), trace)?;
    let sink = Sink::open(alloc, sent)?;
    let mut replay = Replay {
        engine,
        report: told,
        records,
        sink,
    };
    let stop = replay.replay_records(capture, sent, report)?;
    replay.finish(stop, sent, report)
}

impl Replay {
    /// Processes all records. Returns the fault at which they stop, `None` at their end.
    fn replay_records<R: Read, W: Write, W2: Write>(
        &mut self,
        capture: &mut Counted<R>,
        sent: &mut Counted<W>,
        report: &mut Counted<W2>,
    ) -> Result<Option<CaptureFault>, RunFault> {
        for _ in 0..MOST_RECORDS {
            self.write(sent, report)?;
            match self.records.next(capture) {
                Ok(true) => self.take(sent)?,
                Ok(false) => return Ok(None),
                Err(CaptureError::Refused(fault)) => return Ok(Some(fault)),
                Err(fault) => return Err(fault.into()),
            }
        }
        Ok(Some(CaptureFault::TooMany))
    }

    /// Writes what waits before a read that may block, and where many notes wait.
    fn write<W: Write, W2: Write>(
        &mut self,
        sent: &mut Counted<W>,
        report: &mut Counted<W2>,
    ) -> Result<(), RunFault> {
        if self.records.is_ready() && self.report.pending() <= MOST_PENDING {
            return Ok(());
        }
        self.sink.send(sent)?;
        self.report.drain(self.engine.rules(), report)?;
        Ok(())
    }

    /// Processes the last record read: notes its entry, and appends its packet if it leaves.
    fn take<W: Write>(&mut self, sent: &mut Counted<W>) -> Result<(), RunFault> {
        let Some(record) = self.records.record() else {
            return Ok(());
        };
        if self.engine.records() >= MOST_RECORDS || self.report.records() >= MOST_RECORDS {
            return Err(RunFault::Capture(CaptureFault::TooMany));
        }
        self.engine.step(&record)?;
        let Processed { entry, leaving } = self.engine.newest();
        self.report.note(&entry)?;
        if let Some(leaving) = leaving {
            self.sink.put(sent, &leaving)?;
        }
        Ok(())
    }

    /// Writes the rest of both outputs, and of the report the totals unless the records stop at a
    /// fault.
    fn finish<W: Write, W2: Write>(
        &mut self,
        stop: Option<CaptureFault>,
        sent: &mut Counted<W>,
        report: &mut Counted<W2>,
    ) -> Result<bool, RunFault> {
        self.sink.finish(sent)?;
        let torn = match stop {
            None => false,
            Some(CaptureFault::TornEnd) => true,
            Some(fault) => {
                self.report.drain(self.engine.rules(), report)?;
                return match report.flush() {
                    Ok(()) => Err(RunFault::Capture(fault)),
                    Err(_) => Err(RunFault::Device),
                };
            }
        };
        let live = self.engine.live() as u64;
        self.report.lines(self.engine.rules(), live, torn, report)?;
        Ok(torn)
    }
}
