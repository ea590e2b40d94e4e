//! The report of a run.
ghost use Rattle.std.specs.Prelude.{◌≡◌, ◌<◌, ◌≤◌, ◌+◌, ◌++◌, [], ◌∷◌, Bool, List, length, max, true, IfOk, IsOk, OnErr, OnOk};
ghost use Rattle.devices.specs.Counting.{one_failure, one_more};
ghost use Rattle.devices.specs.CountedCalls.{CountsFailure};
ghost use Rattle.nft_tree.specs.Tree.{Text, TableTree};
ghost use Rattle.nft_tree.specs.TreeViews.{tables_of};
ghost use Rattle.history.specs.History.{Entry, IsEntry};
ghost use Rattle.report.specs.Report.{closing_lines, entry_lines};
ghost use Rattle.std.specs.List.{flat_map};
ghost use Rattle.report.specs.Representing.{IsReportOf, AppendsRest, AppendsRestPrefix, note_line};
ghost use Rattle.report.specs.steps.Paging.{WroteText};
ghost use Rattle.report.specs.steps.Totals.{rest_text};

use crate::counter_lines::put_counters;
use crate::note_lines::put_notes;
use crate::notes::{Note, note_entry, reserve_notes};
use crate::page::Page;
use crate::tallies::RulesetTallies;
use crate::total_lines::{Totals, put_totals};
use devices::{Counted, DeviceFailed};
use history::Outcome;
use nft_tree::Ruleset;
use std::alloc::{AllocError as Memory, Global};
use std::io::Write;
use std::marker::Model;

/// The most notes of one record: one for each of 65,536 events, and one for the outcome.
pub const MOST_NOTES: usize = 65_537;

/// How many notes are reserved at first: those of one record, and some that wait for `drain`.
pub const INITIAL_NOTES: usize = 70_000;

/// The report so far: totals, counters, and the notes that aren't written yet.
pub struct Report {
    records: u64,
    passed: u64,
    local: u64,
    /// In the order of `Cause::ALL`.
    dropped: [u64; 17],
    begun: u64,
    tallies: RulesetTallies,
    traces: bool,
    notes: Vec<Note>,
}

// Written out, so that dropping one is a call.
impl Drop for Report {
    fn drop(self) {
        let Report {
            records: _,
            passed: _,
            local: _,
            dropped: _,
            begun: _,
            tallies: _,
            traces: _,
            notes: _,
        } = self;
    }
}

impl Model for Report {
    ghost use Rattle.std.specs.Prelude.{◌-◌, vec_capacity, vec_len};
    ghost use Rattle.report.specs.Representing.{ReportState};
    ghost use Rattle.report.specs.steps.Bounds.{IsBounded};

    ghost Value = { ReportState };

    ghost view = { λ r. record {
      records = r.records;
      passed = r.passed;
      local = r.local;
      dropped = r.dropped;
      begun = r.begun;
      tallies = r.tallies;
      traces = r.traces;
      notes = r.notes.items;
      room = vec_capacity r.notes - vec_len r.notes;
    } };

    ghost invariant = { λ r. IsBounded r.records r.passed r.local r.dropped r.begun r.tallies };
}

impl Report {
    /// The report before the first record, with the counters of `rules` at their initial values.
    /// With `trace` it has each verdict and each outcome too.
    ///
    /// # Errors
    /// An allocation failed.
    pub fn new(alloc: Global, rules: &Ruleset, trace: bool) -> Result<Self, Memory>
        ensures fresh { IfOk result (λ report.
            IsReportOf report (tables_of rules.now) trace [] []) }
        ensures room { IfOk result (λ report. report.room ≡ INITIAL_NOTES) }
        ensures empty { IfOk result (λ report. report.notes ≡ []) }
    {
        let tallies = RulesetTallies::new(alloc, rules)?;
        let notes = Vec::with_capacity(alloc, INITIAL_NOTES)?;
        Ok(Report {
            records: 0,
            passed: 0,
            local: 0,
            dropped: [0; 17],
            begun: 0,
            tallies,
            traces: trace,
            notes,
        })
    }

    /// Reserves the notes of one record of at most 65,536 events, so that `note` doesn't allocate.
    ///
    /// # Errors
    /// An allocation failed; never where the notes are reserved already. The report is unchanged.
    pub fn reserve(&mut self) -> Result<(), Memory>
        ensures ok { OnOk result (MOST_NOTES ≤ self.new.room) }
        ensures same { self.new ≡ record self.old { room = self.new.room } }
        ensures grows { self.old.room ≤ self.new.room }
        // At most as many again are reserved as are pending, or else the notes of one record.
        ensures bound { self.new.room ≤ max self.old.room (max MOST_NOTES
            (length self.old.notes)) }
        ensures succeeds { MOST_NOTES ≤ self.old.room → IsOk result }
        // Then no memory is taken either.
        ensures spared { MOST_NOTES ≤ self.old.room → self.new ≡ self.old }
        ensures err { OnErr result (self.new ≡ self.old) }
    {
        reserve_notes(&mut self.notes, MOST_NOTES)
    }

    /// Adds the entry of one more record, of the rules given to `new`.
    ///
    /// # Errors
    /// An allocation failed; never after `reserve`. The report is unchanged.
    pub fn note(&mut self, entry: &history::Entry) -> Result<(), Memory>
        requires few { self.old.records < 4294967296 }
        // A report of a history becomes one of that history and the entry.
        ensures noted { (rules : List TableTree) (trace : Bool) (history : List Entry)
            (written : Text) (e : Entry) → IsReportOf self.old rules trace history written
            → IsEntry e history entry.now
            → OnOk result (IsReportOf self.new rules trace (e ∷ history) written) }
        ensures records { OnOk result (self.new.records ≡ self.old.records + 1) }
        ensures room { length entry.now.events.now + 1 ≤ self.old.room → IsOk result }
        ensures pending { length self.new.notes ≤ length self.old.notes + length
            entry.now.events.now + 1 }
        ensures left { self.old.room + length self.old.notes ≤ self.new.room + length
            self.new.notes }
        ensures bound { self.new.room + length self.new.notes ≤ length self.old.notes + max
            self.old.room (max (length entry.now.events.now + 1) (length self.old.notes)) }
        // No memory is taken where the notes are reserved.
        ensures spared { length entry.now.events.now + 1 ≤ self.old.room
            → self.new.room + length self.new.notes ≡ self.old.room + length self.old.notes }
        ensures err { OnErr result (self.new ≡ self.old) }
    {
        reserve_notes(&mut self.notes, entry.events.len() + 1)?;
        note_entry(&mut self.notes, entry, self.traces);
        self.tallies.count_events(entry.events, entry.length);
        self.records += 1;
        self.begun += u64::from(entry.begun);
        match entry.outcome {
            Outcome::Passed(_) => self.passed += 1,
            Outcome::Local => self.local += 1,
            Outcome::Dropped(cause) => self.dropped[cause.report_index()] += 1,
        }
        Ok(())
    }

    /// The number of records.
    pub fn records(&self) -> u64
        ensures { result ≡ self.now.records }
    {
        self.records
    }

    /// The number of notes not written yet.
    pub fn pending(&self) -> usize
        ensures { result ≡ length self.now.notes }
    {
        self.notes.len()
    }

    /// Writes the lines of the notes and removes the notes. The writer isn't called where there are
    /// none.
    ///
    /// # Errors
    /// A write failed, which isn't tried again. The writer then holds a prefix of the lines, and
    /// the report is unchanged.
    pub fn drain<W: Write>(
        &mut self,
        rules: &Ruleset,
        writer: &mut Counted<W>,
    ) -> Result<(), DeviceFailed>
        ensures ok { (trace : Bool) (history : List Entry) (written : Text)
            → IsReportOf self.old (tables_of rules.now) trace history written
            → OnOk result (AppendsRest (W.contents writer.old.inner) (W.contents writer.new.inner)
            written (entry_lines (tables_of rules.now) trace history)
            × IsReportOf self.new (tables_of rules.now) trace history
            (entry_lines (tables_of rules.now) trace history)) }
        ensures part { (trace : Bool) (history : List Entry) (written : Text)
            → IsReportOf self.old (tables_of rules.now) trace history written
            → OnErr result (AppendsRestPrefix (W.contents writer.old.inner)
            (W.contents writer.new.inner) written
            (entry_lines (tables_of rules.now) trace history)) }
        ensures none { self.old.notes ≡ [] → writer.new ≡ writer.old }
        ensures empty { OnOk result (self.new.notes ≡ []) }
        ensures room { OnOk result (self.new.room ≡ self.old.room + length self.old.notes) }
        ensures records { self.new.records ≡ self.old.records }
        ensures err { OnErr result (self.new ≡ self.old) }
        ensures no_failure { OnOk result (writer.new.failures ≡ writer.old.failures) }
        ensures device { OnErr result (writer.new.failures ≡ one_failure writer.old.failures) }
        ensures flushes { writer.new.flushes ≡ writer.old.flushes }
    {
        if self.notes.is_empty() {
            return Ok(());
        }
        write_notes(rules, &self.notes, writer)?;
        self.notes.clear();
        Ok(())
    }

    /// Writes the rest of the report (the notes, the counters and the totals) and flushes the
    /// writer once. `live` is the number of live connections, and `torn` says whether the capture ends
    /// inside a record.
    ///
    /// # Errors
    /// A write or the flush failed, which isn't tried again. The writer then holds a prefix of the
    /// lines.
    pub fn lines<W: Write>(
        &self,
        rules: &Ruleset,
        live: u64,
        torn: bool,
        writer: &mut Counted<W>,
    ) -> Result<(), DeviceFailed>
        ensures ok { (trace : Bool) (history : List Entry) (written : Text)
            → IsReportOf self.now (tables_of rules.now) trace history written
            → OnOk result (AppendsRest (W.contents writer.old.inner) (W.contents writer.new.inner)
            written (entry_lines (tables_of rules.now) trace history
            ++ closing_lines (tables_of rules.now) history live torn)) }
        ensures flushed { OnOk result (writer.new.is_flushed ≡ true) }
        ensures part { (trace : Bool) (history : List Entry) (written : Text)
            → IsReportOf self.now (tables_of rules.now) trace history written
            → OnErr result (AppendsRestPrefix (W.contents writer.old.inner)
            (W.contents writer.new.inner) written (entry_lines (tables_of rules.now) trace history
            ++ closing_lines (tables_of rules.now) history live torn)) }
        ensures no_failure { OnOk result (writer.new.failures ≡ writer.old.failures) }
        ensures device { OnErr result (writer.new.failures ≡ one_failure writer.old.failures) }
        ensures flushes { OnOk result (writer.new.flushes ≡ one_more writer.old.flushes) }
        ensures unflushed { OnErr result (writer.new.flushes ≡ writer.old.flushes) }
    {
        let totals = Totals {
            records: self.records,
            passed: self.passed,
            local: self.local,
            dropped: &self.dropped,
            begun: self.begun,
            live,
            torn,
        };
        write_rest(rules, &self.notes, &self.tallies, &totals, writer)?;
        if writer.flush().is_err() {
            return Err(DeviceFailed);
        }
        Ok(())
    }
}

/// Writes the lines of notes.
fn write_notes<W: Write>(
    rules: &Ruleset,
    notes: &[Note],
    writer: &mut Counted<W>,
) -> Result<(), DeviceFailed>
    ensures wrote_text { WroteText result (W.contents writer.old.inner)
        (W.contents writer.new.inner) (flat_map (note_line (tables_of rules.now)) notes.now) }
    ensures counts { CountsFailure result writer.old.failures writer.new.failures }
    ensures flushes { writer.new.flushes ≡ writer.old.flushes }
{
    let mut page = Page::new();
    put_notes(&mut page, writer, rules, notes);
    page.finish(writer)
}

/// Writes the lines of notes, the counters and the totals.
fn write_rest<W: Write>(
    rules: &Ruleset,
    notes: &[Note],
    tallies: &RulesetTallies,
    totals: &Totals,
    writer: &mut Counted<W>,
) -> Result<(), DeviceFailed>
    ensures wrote_text { WroteText result (W.contents writer.old.inner)
        (W.contents writer.new.inner) (rest_text (tables_of rules.now) notes.now tallies.now
        totals.now.records totals.now.passed totals.now.local totals.now.dropped.now
        totals.now.begun totals.now.live totals.now.torn) }
    ensures counts { CountsFailure result writer.old.failures writer.new.failures }
    ensures flushes { writer.new.flushes ≡ writer.old.flushes }
{
    let mut page = Page::new();
    put_notes(&mut page, writer, rules, notes);
    put_counters(&mut page, writer, rules, tallies);
    put_totals(&mut page, writer, totals);
    page.finish(writer)
}
