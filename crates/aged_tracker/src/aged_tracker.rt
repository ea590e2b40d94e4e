//! A conntrack table whose calls count few visited slots.
ghost use Rattle.std.specs.Prelude.{◌≡◌, ◌==◌, ◌+◌, ◌<◌, ◌≤◌, [], IsTrue, Some, false, if◌then◌else◌, unwrap_or};
ghost use Rattle.conntrack.specs.ConntrackEntry.{belongs_in};
ghost use Rattle.conntrack.specs.TableEntries.{IsNoneLater, IsWithin, has_distinct_ids, has_id, have_disjoint_tuples, live_at, touched_at};

use crate::aged_slots::{AgedSlots, SECOND};
use crate::tuple_index::TupleIndex;
use box_file::Limits;
use conntrack::laws::independent_of_ids;
use conntrack::{
    Aged, BeginError, Belonging, ConnId, Connection, Direction, Flags, MAX_CONNECTIONS, Memory,
    Moment, Steps, Tracker,
};
use ip_headers::Tuple;
use std::alloc::Global;
use std::hash::RandomState;
use std::marker::Model;
use word_hash::WordState;

/// Keeps entries in slots that are found by an index of their incoming tuples and expire by queues.
/// However many entries there are, a look-up counts at most 3 visits of slots and of the index, a
/// beginning connection 5, one more packet, an end and ageing 7 each.
#[derive(Drop)]
pub struct AgedTracker {
    slots: AgedSlots,
    index: TupleIndex,
    live: usize,
    limits: Limits,
    // Where the next packet's entry likely is: connections that send at one pace have their packets in
    // the order of the round before. A read of the index is a cache miss where many are live.
    likely: usize,
    // Whether that was so of the last packet that had an entry: packets in no such order don't pay for
    // guesses.
    was_likely: bool,
    // No entry has expired until this moment, nor at it: before it no queue is looked at.
    live_until: Moment,
    // When the queues were looked at last, less than a second before that.
    looked_at: Moment,
}

impl Model for AgedTracker {
    ghost use Rattle.std.specs.Prelude.{◌&&◌, nat_lt};
    ghost use Rattle.aged_tracker.specs.View.{TrackerView};
    ghost use Rattle.aged_tracker.specs.steps.Table.{IsConsistent, has_room, held_by, room_in, slot_in};

    ghost Value = { TrackerView };

    ghost view = { λ t. record {
      limits = t.limits;
      held = held_by t.slots;
      room = has_room t.slots && nat_lt 1 (room_in t.index);
      likely = t.likely;
      was_likely = t.was_likely;
    } };

    ghost invariant = { λ t. IsConsistent t.slots (slot_in t.index) t.live t.limits t.live_until t.looked_at };
}

impl AgedTracker {
    /// An empty table with these timeouts, whose index of tuples hashes by these keys.
    fn with_keys(alloc: Global, keys: WordState, idle: Limits) -> Self
        ensures held { result.held ≡ [] }
        ensures limits { result.limits ≡ idle }
        ensures room { result.room ≡ false }
    {
        AgedTracker {
            slots: AgedSlots::new(alloc),
            index: TupleIndex::new(alloc, keys),
            live: 0,
            limits: idle,
            likely: 0,
            was_likely: false,
            live_until: 0,
            looked_at: 0,
        }
    }

    /// Looks up a packet with this tuple and these flags at a moment. Where its entry likely is, is
    /// tried first only where that was so of the last packet.
    #[inline(always)]
    fn find(&self, tuple: Tuple, flags: Flags, now: Moment, steps: &mut Steps) -> Belonging
        ensures belonging { result
            ≡ belongs_in (live_at self.now.limits now self.now.held) tuple flags }
        ensures distinct { IsTrue (has_distinct_ids self.now.held) }
        ensures apart { IsTrue (have_disjoint_tuples self.now.held) }
        ensures steps { IsWithin (Some (if self.now.was_likely then 3 else 2)) steps.old steps.new }
    {
        if self.was_likely {
            let guessed = self
                .slots
                .belonging(self.likely, &self.limits, tuple, flags, now, steps);
            if let Some(belonging) = guessed {
                return belonging;
            }
        }
        match self.index.get(tuple, steps) {
            None => Belonging::NotFound,
            // An entry with the tuple is there.
            Some(key) => self
                .slots
                .belonging(key, &self.limits, tuple, flags, now, steps)
                .unwrap_or(Belonging::NotFound),
        }
    }

    /// Updates the entry with this id for one more packet, which sets this mark.
    #[inline(always)]
    fn update(
        &mut self,
        id: ConnId,
        direction: Direction,
        flags: Flags,
        mark: u32,
        now: Moment,
        steps: &mut Steps,
    )
        requires is_held { IsTrue (has_id id self.old.held) }
        requires later { IsNoneLater now self.old.held }
        ensures held { self.new.held ≡ touched_at id direction flags mark now self.old.held }
        ensures limits { self.new.limits ≡ self.old.limits }
        ensures room { IsTrue self.old.room → IsTrue self.new.room }
        ensures was_likely { self.new.was_likely ≡ (id.0 == self.old.likely) }
        ensures steps { IsWithin (Some 7) steps.old steps.new }
    {
        let follower = self.slots.touch(id, direction, flags, mark, now, steps);
        note_guess(&mut self.likely, &mut self.was_likely, id.0, follower);
        note_packet(&mut self.live_until, self.looked_at, now);
    }
}

/// Notes whether a packet's entry, which is in this slot, was where it likely was, and where the next
/// packet's likely is: in the slot that followed in the queue, or where it was, if none did.
#[inline(always)]
fn note_guess(likely: &mut usize, was_likely: &mut bool, key: usize, follower: Option<usize>)
    ensures likely { likely.new ≡ unwrap_or follower likely.old }
    ensures was_likely { was_likely.new ≡ (key == likely.old) }
{
    *was_likely = key == *likely;
    *likely = follower.unwrap_or(*likely);
}

/// Keeps until when no entry has expired, after a packet of one at a moment: that expires a second
/// later at the earliest, as no timeout is shorter. Moments don't fall, or else nothing is known.
#[inline(always)]
fn note_packet(live_until: &mut Moment, looked_at: Moment, now: Moment)
    requires { live_until.old < looked_at + SECOND }
    ensures sooner { live_until.new ≤ live_until.old }
    ensures second { live_until.new < now + SECOND }
{
    if now < looked_at {
        *live_until = 0;
    }
}

impl Tracker for AgedTracker {
    ghost use Rattle.std.specs.Prelude.{Some};

    ghost held = { λ t. t.held };

    ghost limits = { λ t. t.limits };

    ghost has_room = { λ t. t.room };

    ghost max_slots = { Some (record { look = 3; touch = 7; begin = 5; end = 7; age = 7 }) };

    fn new(alloc: Global, idle: Limits) -> Self {
        Self::with_keys(alloc, WordState::published(), idle)
    }

    fn with_hasher(alloc: Global, hasher: RandomState, idle: Limits) -> Self {
        Self::with_keys(alloc, WordState::new(hasher), idle)
    }

    // Inlined, a result goes to its place in the packet's state without a copy.
    #[inline(always)]
    fn look(&self, tuple: Tuple, flags: Flags, now: Moment, steps: &mut Steps) -> Belonging {
        independent_of_ids();
        self.find(tuple, flags, now, steps)
    }

    fn touch(
        &mut self,
        id: ConnId,
        direction: Direction,
        flags: Flags,
        mark: u32,
        now: Moment,
        steps: &mut Steps,
    ) {
        self.update(id, direction, flags, mark, now, steps);
    }

    fn reserve_one(&mut self) -> Result<(), Memory> {
        self.slots.reserve_one()?;
        self.index.reserve_two()
    }

    fn begin(
        &mut self,
        connection: Connection,
        flags: Flags,
        steps: &mut Steps,
    ) -> Result<ConnId, BeginError> {
        if self.live >= MAX_CONNECTIONS {
            return Err(BeginError::Full);
        }
        let key = self.slots.next_key() as u32;
        let is_new = self.index.insert_if_absent(connection.reply, key, steps);
        if !is_new {
            return Err(BeginError::Clash);
        }
        let id = self.slots.insert(connection, flags, steps);
        self.index.insert(connection.original, key, steps);
        self.live += 1;
        note_packet(&mut self.live_until, self.looked_at, connection.last);
        Ok(id)
    }

    fn end(&mut self, id: ConnId, steps: &mut Steps) -> Aged {
        let held = self.slots.remove(id, steps);
        self.index.remove(held.original, steps);
        self.index.remove(held.reply, steps);
        self.live -= 1;
        held.aged()
    }

    fn age(&mut self, now: Moment, steps: &mut Steps) -> Option<Aged> {
        if now <= self.live_until {
            return None;
        }
        match self.slots.live_until(&self.limits, now) {
            Ok(until) => {
                self.live_until = until;
                self.looked_at = now;
                None
            }
            Err(id) => Some(self.end(id, steps)),
        }
    }

    fn live(&self) -> usize {
        self.live
    }

    fn list_counted(&self, alloc: Global, steps: &mut Steps) -> Result<Vec<Connection>, Memory> {
        self.slots.list(alloc, steps)
    }
}
