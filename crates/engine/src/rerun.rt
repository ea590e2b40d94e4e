//! A run that is stepped through, to look at its connections.
ghost use Rattle.std.specs.Prelude.{◌≡◌, ◌≢◌, [], true, false, Ok, IfOk, IfErr, IfSome};
ghost use Rattle.pcap_io.specs.CaptureStates.{ahead, recorded};
ghost use Rattle.engine.specs.Meaning.{Accepted};
ghost use Rattle.engine.specs.Refusals.{IsOfRecord, Refuses};
ghost use Rattle.engine.specs.Rerunning.{AnswersNext, CountsOne, StandsBehind, StandsBehindNext};

use crate::fault::RunFault;
use crate::fullest::Fullest;
use crate::inputs::checked;
use crate::replay::Replay;
use aged_tracker::AgedTracker;
use pcap_io::{Capture, Counted, Record};
use std::alloc::Global;
use std::hash::RandomState;
use std::io::{Read, Write};
use std::marker::Model;
use stepping::Engine;

/// A run of which one record is processed at a call, by the code of `run`: where the writers have one
/// type, there is one copy of it. Nothing depends on what the writer `lost` does with what it gets.
pub struct Rerun {
    replay: Replay,
    fullest: Fullest,
    /// Whether no record is read any more.
    is_over: bool,
}

// Written out, so that dropping one is a call.
impl Drop for Rerun {
    fn drop(self) {
        let Rerun {
            replay: _,
            fullest: _,
            is_over: _,
        } = self;
    }
}

impl Model for Rerun {
    ghost use Rattle.engine.specs.Rerunning.{RerunState};
    ghost use Rattle.engine.specs.steps.Stepping.{IsGoingOn};

    ghost Value = { RerunState };

    ghost view = { λ r. record {
      engine = r.replay.engine;
      records = r.replay.records;
      fullest = r.fullest;
      is_over = r.is_over;
    } };

    ghost invariant = { λ r. IsGoingOn r.replay r.is_over };
}

impl Rerun {
    /// A run before its first record, of the texts of a ruleset and a box file and of a capture.
    ///
    /// # Errors
    /// As `run` before the first record.
    pub fn open<R: Read, W: Write>(
        alloc: Global,
        hasher: RandomState,
        rules: &[u8],
        network: &[u8],
        capture: &mut Counted<R>,
        lost: &mut Counted<W>,
    ) -> Result<Rerun, RunFault>
        ensures begun { IfOk result (λ rerun. (accepted : Accepted rules.now network.now)
            × (rerun.engine.setup ≡ accepted.setup) × StandsBehind rerun []
            × (rerun.is_over ≡ false)) }
        ensures refusals { IfErr result (λ fault.
            Refuses rules.now network.now (R.remaining capture.old.inner) fault) }
        ensures within { IfErr result (λ fault. IsOfRecord fault → ⊥) }
        ensures failures { CountsOne result capture.old.failures capture.new.failures
            lost.old.failures lost.new.failures }
    {
        let checked = checked(alloc, rules, network)?;
        let records = Capture::open(alloc, capture)?;
        let engine = Engine::with_hasher(alloc, hasher, checked)?;
        let replay = Replay::new(alloc, engine, records, false, lost)?;
        Ok(Rerun {
            replay,
            fullest: Fullest::new(),
            is_over: false,
        })
    }

    /// Reads the next record, which `record` then lends, and processes it; `false` at the end of the
    /// capture, and after that and after an error.
    ///
    /// # Errors
    /// As `run` at a record.
    pub fn next<R: Read, W: Write>(
        &mut self,
        capture: &mut Counted<R>,
        lost: &mut Counted<W>,
    ) -> Result<bool, RunFault>
        ensures stands { result ≡ Ok true → StandsBehindNext self.old self.new }
        ensures answers { self.old.is_over ≡ false → IfSome
            (ahead self.old.records (R.remaining capture.old.inner)) (λ bytes.
            AnswersNext bytes (ahead self.new.records (R.remaining capture.new.inner))
            self.old.records self.new.records result) }
        ensures failures { CountsOne result capture.old.failures capture.new.failures
            lost.old.failures lost.new.failures }
        ensures setup { self.new.engine.setup ≡ self.old.engine.setup }
        ensures over { result ≢ Ok true → self.new.is_over ≡ true }
        ensures done { self.old.is_over ≡ true → (result ≡ Ok false) × (self.new ≡ self.old) }
    {
        if self.is_over {
            return Ok(false);
        }
        self.is_over = true;
        if !self.replay.records.next(capture)? {
            return Ok(false);
        }
        if !self.replay.take(lost)? {
            return Err(RunFault::Memory);
        }
        self.replay.report.drain(self.replay.engine.rules(), lost)?;
        self.fullest
            .note(self.replay.engine.live(), self.replay.engine.records());
        self.is_over = false;
        Ok(true)
    }

    /// The last record read.
    pub fn record(&self) -> Option<Record<'_>>
        ensures { recorded result ≡ self.now.records.last }
    {
        self.replay.records.record()
    }

    /// The engine behind that record.
    pub fn engine(&self) -> &Engine<AgedTracker>
        ensures { result.now ≡ self.now.engine }
    {
        &self.replay.engine
    }

    /// When the most connections lived so far.
    pub fn fullest(&self) -> Fullest
        ensures { result ≡ self.now.fullest }
    {
        self.fullest
    }
}
