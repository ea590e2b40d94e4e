//! Replays the records of a capture.
ghost use Rattle.std.specs.Prelude.{◌≡◌, ◌≢◌, ◌<◌, ◌≤◌, ◌+◌, ◌⊎◌, [], length, Bool, true, false, Ok, Err, None, IfOk, IfErr};
ghost use Rattle.std.specs.Prelude.{IsErrOf, OnOk, OnErr, MatchResult};
ghost use Rattle.std.specs.Io.KnownBytes.{IsAtEnd};
ghost use Rattle.devices.specs.Counting.{AppendsPrefix, one_failure};
ghost use Rattle.pcap_io.specs.CaptureStates.{is_ready};
ghost use Rattle.pcap_io.specs.Sll2.{sll2_header};
ghost use Rattle.pcap_io.specs.declared.sink.SinkError.{SinkError};
ghost use Rattle.stepping.specs.Representing.{Represents};
ghost use Rattle.engine.specs.declared.fault.RunFault.{RunFault};
ghost use Rattle.engine.specs.AfterFault.{AllFlushed, CountsFault, devices};
ghost use Rattle.engine.specs.Refusals.{IsBeforeHeader, IsOfRecord};
ghost use Rattle.engine.specs.steps.Replayed.{BreaksAtLast, CountsFailedWrite, IsBegun, IsOpened};
ghost use Rattle.engine.specs.steps.Replayed.{IsStop, KeepsLast, ReplaysAll, RepresentsSome, StillRepresents};
ghost use Rattle.engine.specs.steps.Replayed.{StepsLast, TakesLast, WritesAll, WritesPrefix, writers};
ghost use Rattle.engine.specs.steps.Replayed.{Finishes, LeavesPrefix, WritesOutputs, torn_at};

use crate::fault::RunFault;
use crate::runs::Summary;
use aged_tracker::AgedTracker;
use pcap_io::{Capture, CaptureError, CaptureFault, Counted, DeviceFailed, Sink, SinkError};
use report::{MOST_NOTES, Report};
use std::alloc::Global;
use std::io::{Read, Write};
use stepping::{Engine, Processed, one_entry};

/// How many notes may be pending before they are written.
const MOST_PENDING: usize = 4096;

/// A run in progress.
pub(crate) struct Replay {
    pub engine: Engine<AgedTracker>,
    pub report: Report,
    pub records: Capture,
    sink: Sink,
}

// Written out, so that dropping one is a call.
impl Drop for Replay {
    fn drop(self) {
        let Replay {
            engine: _,
            report: _,
            records: _,
            sink: _,
        } = self;
    }
}

/// Processes the records of an opened capture, writes both outputs, and flushes both writers.
///
/// # Errors
/// `Device`; `Memory`, before anything is written or at a record; or the fault at which the records
/// stop.
pub(crate) fn replay_capture<R: Read, W: Write, W2: Write>(
    alloc: Global,
    engine: Engine<AgedTracker>,
    records: Capture,
    trace: bool,
    capture: &mut Counted<R>,
    sent: &mut Counted<W>,
    report: &mut Counted<W2>,
) -> Result<Summary, RunFault>
    requires opened { IsOpened records (R.remaining capture.old.inner) }
    requires represents { Represents engine [] }
    ensures written { IfOk result (λ summary. WritesOutputs engine.setup trace records summary
        (devices R.remaining W.contents W2.contents capture.old sent.old report.old)
        (devices R.remaining W.contents W2.contents capture.new sent.new report.new)) }
    ensures drained { OnOk result (IsAtEnd (R.remaining capture.new.inner)) }
    ensures flushed { OnOk result (AllFlushed sent.new report.new) }
    ensures refused { IfErr result (λ fault. IsOfRecord fault → AllFlushed sent.new report.new) }
    ensures memory { IsErrOf result RunFault.Memory
        → ((sent.new ≡ sent.old) × (report.new ≡ report.old)) ⊎ AllFlushed sent.new report.new }
    ensures within { IfErr result (λ fault. IsBeforeHeader fault → ⊥) }
    ensures left { IfErr result (λ fault. LeavesPrefix engine.setup trace records fault
        (devices R.remaining W.contents W2.contents capture.old sent.old report.old)
        (devices R.remaining W.contents W2.contents capture.new sent.new report.new)) }
    ensures failures { CountsFault result
        (devices R.remaining W.contents W2.contents capture.old sent.old report.old)
        (devices R.remaining W.contents W2.contents capture.new sent.new report.new) }
{
    let mut replay = Replay::new(alloc, engine, records, trace, sent)?;
    let stop = replay.replay_records(capture, sent, report)?;
    let torn = replay.finish(stop, sent, report)?;
    Ok(Summary {
        records: replay.report.records(),
        torn,
    })
}

impl Replay {
    /// The state before the first record. The output capture's header is buffered or written.
    pub(crate) fn new<W: Write>(
        alloc: Global,
        engine: Engine<AgedTracker>,
        records: Capture,
        trace: bool,
        sent: &mut Counted<W>,
    ) -> Result<Self, SinkError>
        requires represents { Represents engine [] }
        ensures same { IfOk result (λ replay. (replay.engine ≡ engine) × (replay.records ≡ records)
            × (replay.report.records ≡ 0) × (replay.report.notes ≡ [])) }
        ensures begun { IfOk result (λ replay. IsBegun replay engine.setup trace
            (W.contents sent.old.inner) (W.contents sent.new.inner)) }
        ensures part { OnErr result (AppendsPrefix (W.contents sent.old.inner)
            (W.contents sent.new.inner) sll2_header) }
        ensures no_failure { OnOk result (sent.new.failures ≡ sent.old.failures) }
        ensures device { IsErrOf result SinkError.Device
            → sent.new.failures ≡ one_failure sent.old.failures }
        ensures memory { IsErrOf result SinkError.Memory → sent.new ≡ sent.old }
    {
        let Ok(report) = Report::new(alloc, engine.rules(), trace) else {
            return Err(SinkError::Memory);
        };
        let sink = Sink::open(alloc, sent)?;
        Ok(Replay {
            engine,
            report,
            records,
            sink,
        })
    }

    /// Processes all records. Before each read all output is written. Returns the fault at which the
    /// records stop, `None` at their end.
    ///
    /// # Errors
    /// `Device`; or `Memory` at a record, and then the output of the records before it is written
    /// and flushed.
    fn replay_records<R: Read, W: Write, W2: Write>(
        &mut self,
        capture: &mut Counted<R>,
        sent: &mut Counted<W>,
        report: &mut Counted<W2>,
    ) -> Result<Option<CaptureFault>, RunFault>
        requires opened { IsOpened self.old.records (R.remaining capture.old.inner) }
        requires none { self.old.report.records ≡ 0 }
        requires empty { self.old.report.notes ≡ [] }
        requires represents { Represents self.old.engine [] }
        ensures replayed { ReplaysAll self.old self.new result
            (devices R.remaining W.contents W2.contents capture.old sent.old report.old)
            (devices R.remaining W.contents W2.contents capture.new sent.new report.new) }
        ensures stop { IfOk result IsStop }
        ensures drained { IfOk result (λ stop. (torn : Bool) → torn_at stop ≡ Ok torn
            → IsAtEnd (R.remaining capture.new.inner)) }
        ensures within { IfErr result (λ fault. IsBeforeHeader fault → ⊥) }
        ensures refused { IfErr result (λ fault. IsOfRecord fault → AllFlushed sent.new report.new) }
        ensures flushed { IsErrOf result RunFault.Memory → AllFlushed sent.new report.new }
        ensures failures { CountsFault result
            (devices R.remaining W.contents W2.contents capture.old sent.old report.old)
            (devices R.remaining W.contents W2.contents capture.new sent.new report.new) }
        // However long nothing is read, few notes are pending.
        ensures pending { length self.new.report.notes ≤ MOST_PENDING + MOST_NOTES }
    {
        'each: loop {
            self.flush_before_read(sent, report)?;
            match self.records.next(capture) {
                Ok(true) => {}
                Ok(false) => return Ok(None),
                Err(CaptureError::Refused(fault)) => return Ok(Some(fault)),
                Err(CaptureError::Device) => return Err(RunFault::Device),
                Err(CaptureError::Memory) => return Err(RunFault::Memory),
            }
            let is_taken = self.take(sent)?;
            if !is_taken {
                self.close(sent, report)?;
                return Err(RunFault::Memory);
            }
        }
    }

    /// Writes the buffered packets and the pending notes before a read that may block, and where
    /// many notes are pending.
    fn flush_before_read<W: Write, W2: Write>(
        &mut self,
        sent: &mut Counted<W>,
        report: &mut Counted<W2>,
    ) -> Result<(), DeviceFailed>
        ensures kept { MatchResult result (λ _. StillRepresents self.old self.new
            (writers W.contents W2.contents sent.old report.old)
            (writers W.contents W2.contents sent.new report.new))
            (λ _. WritesPrefix self.old (writers W.contents W2.contents sent.old report.old)
            (writers W.contents W2.contents sent.new report.new)) }
        // All output is written before a read.
        ensures written { OnOk result (is_ready self.old.records ≡ false → WritesAll self.old
            (writers W.contents W2.contents sent.old report.old)
            (writers W.contents W2.contents sent.new report.new)) }
        ensures same { (self.new.engine ≡ self.old.engine) × (self.new.records ≡ self.old.records)
            × (self.new.report.records ≡ self.old.report.records) }
        ensures pending { MatchResult result (λ _. length self.new.report.notes ≤ MOST_PENDING)
            (λ _. length self.new.report.notes ≤ length self.old.report.notes) }
        ensures failures { CountsFailedWrite result
            (writers W.contents W2.contents sent.old report.old)
            (writers W.contents W2.contents sent.new report.new) }
    {
        if self.records.is_ready() && self.report.pending() <= MOST_PENDING {
            return Ok(());
        }
        self.sink.send(sent)?;
        self.report.drain(self.engine.rules(), report)?;
        Ok(())
    }

    /// Writes the buffered packets and the pending notes, and flushes both writers.
    fn close<W: Write, W2: Write>(
        &mut self,
        sent: &mut Counted<W>,
        report: &mut Counted<W2>,
    ) -> Result<(), DeviceFailed>
        ensures written { MatchResult result
            (λ _. WritesAll self.old (writers W.contents W2.contents sent.old report.old)
            (writers W.contents W2.contents sent.new report.new))
            (λ _. WritesPrefix self.old (writers W.contents W2.contents sent.old report.old)
            (writers W.contents W2.contents sent.new report.new)) }
        ensures flushed { OnOk result (AllFlushed sent.new report.new) }
        ensures records { self.new.report.records ≡ self.old.report.records }
        ensures pending { length self.new.report.notes ≤ length self.old.report.notes }
        ensures failures { CountsFailedWrite result
            (writers W.contents W2.contents sent.old report.old)
            (writers W.contents W2.contents sent.new report.new) }
    {
        self.sink.finish(sent)?;
        self.report.drain(self.engine.rules(), report)?;
        match report.flush() {
            Ok(()) => Ok(()),
            Err(_) => Err(DeviceFailed),
        }
    }

    /// Processes the last record read: notes its entry, and appends its packet if it is forwarded.
    /// `false` where an allocation failed; then only reservations have changed.
    pub(crate) fn take<W: Write>(&mut self, sent: &mut Counted<W>) -> Result<bool, DeviceFailed>
        requires read { self.old.records.last ≢ None }
        requires few { (self.old.engine.records < 4294967296)
            × (self.old.report.records < 4294967296) }
        requires represents { RepresentsSome self.old.engine }
        ensures taken { result ≡ Ok true → TakesLast self.old self.new
            (W.contents sent.old.inner) (W.contents sent.new.inner) }
        ensures kept { result ≡ Ok false → KeepsLast self.old self.new
            (W.contents sent.old.inner) (W.contents sent.new.inner) }
        ensures broken { result ≢ Ok true → BreaksAtLast self.old
            (W.contents sent.old.inner) (W.contents sent.new.inner) }
        ensures represents { result ≡ Ok true → RepresentsSome self.new.engine }
        ensures stepped { result ≡ Ok true → StepsLast self.old self.new }
        ensures setup { self.new.engine.setup ≡ self.old.engine.setup }
        ensures counted { result ≡ Ok true → (self.new.engine.records ≡ self.old.engine.records + 1)
            × (self.new.report.records ≡ self.old.report.records + 1) }
        ensures same { self.new.records ≡ self.old.records }
        ensures pending { length self.new.report.notes
            ≤ length self.old.report.notes + MOST_NOTES }
        ensures no_failure { OnOk result (sent.new.failures ≡ sent.old.failures) }
        ensures device { OnErr result (sent.new.failures ≡ one_failure sent.old.failures) }
    {
        // A record that can't be processed has an entry too.
        one_entry();
        self.engine.judged();
        // All allocation first: nothing after it can fail for memory.
        let Ok(()) = self.engine.reserve() else {
            return Ok(false);
        };
        let Ok(()) = self.report.reserve() else {
            return Ok(false);
        };
        let record = self.records.record().unwrap();
        self.engine.process(&record);
        let Processed { entry, leaving } = self.engine.newest();
        self.report.note(&entry).unwrap();
        if let Some(leaving) = leaving {
            self.sink.put(sent, &leaving)?;
        }
        Ok(true)
    }

    /// Ends a run whose records stop at a fault or at none: writes the rest of both outputs and
    /// flushes both writers. Returns whether the capture ends inside a record.
    ///
    /// # Errors
    /// `Device`; or the fault at which the records stop, and then the report has no counters and
    /// totals.
    fn finish<W: Write, W2: Write>(
        &mut self,
        stop: Option<CaptureFault>,
        sent: &mut Counted<W>,
        report: &mut Counted<W2>,
    ) -> Result<bool, RunFault>
        ensures torn { IfOk result (λ torn. torn_at stop ≡ Ok torn) }
        ensures fault { IfErr result (λ fault. (fault ≡ RunFault.Device)
            ⊎ (torn_at stop ≡ Err fault)) }
        ensures finished { Finishes self.old stop result
            (writers W.contents W2.contents sent.old report.old)
            (writers W.contents W2.contents sent.new report.new) }
        ensures flushed { result ≢ Err RunFault.Device → AllFlushed sent.new report.new }
        ensures refused { IfErr result (λ fault. IsOfRecord fault → AllFlushed sent.new report.new) }
        ensures records { self.new.report.records ≡ self.old.report.records }
        ensures failures { CountsFault result
            (writers W.contents W2.contents sent.old report.old)
            (writers W.contents W2.contents sent.new report.new) }
    {
        match torn_at(stop) {
            Ok(torn) => {
                self.sink.finish(sent)?;
                let live = self.engine.live() as u64;
                self.report.lines(self.engine.rules(), live, torn, report)?;
                Ok(torn)
            }
            Err(fault) => {
                self.close(sent, report)?;
                Err(fault)
            }
        }
    }
}

/// Whether the capture ends inside a record, which is no error of a run; or the fault at which its
/// records stop.
fn torn_at(stop: Option<CaptureFault>) -> Result<bool, RunFault>
    ensures { result ≡ torn_at stop }
{
    match stop {
        None => Ok(false),
        Some(CaptureFault::TornEnd) => Ok(true),
        Some(fault) => Err(RunFault::Capture(fault)),
    }
}
