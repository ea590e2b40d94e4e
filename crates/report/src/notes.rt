//! Notes: the lines of the report that aren't written yet.
ghost use Rattle.std.specs.Prelude.{◌≡◌, ◌≤◌, ◌+◌, ◌++◌, length, max, vec_len, vec_capacity, IsOk, OnOk, OnErr};
ghost use Rattle.report.specs.steps.Noting.{is_noted, noted};

use history::{Entry, Outcome};
use rule_meaning::Event;
use std::alloc::AllocError as Memory;

/// One line of the report, about the record of this number.
#[derive(Clone, Copy)]
pub enum Note {
    /// A `log` statement was evaluated, or a rule's verdict or a policy took effect.
    Event(u64, Event),
    /// The record's outcome.
    Ended(u64, Outcome),
}

/// Whether an event has a note: a log always, a verdict or a policy only with `trace`.
#[inline(always)]
fn is_noted(event: &Event, trace: bool) -> bool
    ensures { result ≡ is_noted trace event.now }
{
    match event {
        Event::Logged(_) => true,
        Event::TookVerdict(_, _) | Event::TookPolicy(_, _) => trace,
        _ => false,
    }
}

/// Reserves so many more notes, and at most as many as there are. Where they are reserved already,
/// no memory is taken.
///
/// # Errors
/// An allocation failed.
pub fn reserve_notes(notes: &mut Vec<Note>, count: usize) -> Result<(), Memory>
    ensures items { notes.new.items ≡ notes.old.items }
    ensures ok { OnOk result (vec_len notes.new + count ≤ vec_capacity notes.new) }
    ensures grows { vec_capacity notes.old ≤ vec_capacity notes.new }
    ensures succeeds { vec_len notes.old + count ≤ vec_capacity notes.old → IsOk result }
    ensures spared { vec_len notes.old + count ≤ vec_capacity notes.old
        → vec_capacity notes.new ≡ vec_capacity notes.old }
    ensures bound { vec_capacity notes.new ≤ max (vec_capacity notes.old) (vec_len notes.old
        + max count (vec_len notes.old)) }
    ensures err { OnErr result (vec_capacity notes.new ≡ vec_capacity notes.old) }
{
    if count <= notes.capacity() - notes.len() {
        return Ok(());
    }
    // Doubled, so that notes which grow one by one are moved seldom.
    notes.reserve_exact(count.max(notes.len()))
}

/// Notes the lines of an entry. The caller has reserved a note for each event and one for the
/// outcome.
pub fn note_entry(notes: &mut Vec<Note>, entry: &Entry, trace: bool)
    requires { vec_len notes.old + (length entry.now.events.now + 1) ≤ vec_capacity notes.old }
    ensures items { notes.new.items ≡ notes.old.items
        ++ noted trace entry.now.number entry.now.events.now entry.now.outcome }
    ensures few { vec_len notes.new ≤ vec_len notes.old + (length entry.now.events.now + 1) }
    ensures capacity { vec_capacity notes.new ≡ vec_capacity notes.old }
{
    for event in entry.events {
        if is_noted(event, trace) {
            notes.push_reserved(Note::Event(entry.number, *event));
        }
    }
    if trace {
        notes.push_reserved(Note::Ended(entry.number, entry.outcome));
    }
}
