//! The slots of a table, and the lists through them.
ghost use Rattle.std.specs.Prelude.{◌≡◌, ◌+◌, ◌<◌, ◌≤◌, ◌++◌, ◌∷◌, [], ℕ, IsTrue, IsSome, IfOk, IfErr, IsOk, OnOk, Some, None, IfSome, false, map, option_map, slice_get};
ghost use Rattle.slab.specs.Slab.{get, Updates};
ghost use Rattle.conntrack.specs.ConntrackEntry.{connection_of, is_live, without};
ghost use Rattle.conntrack.specs.TableEntries.{begun_with, touched, touched_at, IsNoneLater, IsWithin};
ghost use Rattle.aged_tracker.specs.steps.Table.{AreLiveUntil, AreOldest, AreOldestBut, HasRings, IsLiveQueue, IsOwned, IsRings, IsTable, Lists, MAX_KEYS};
ghost use Rattle.aged_tracker.specs.steps.Table.{Relists, SameBy, SameSize, Sets, Slots as SlotsName, belonging_at, except_links, has_room, held_at, held_by};
ghost use Rattle.aged_tracker.specs.steps.Table.{last_at, limit_at, off, owner_of, prev_of, pushed, queue_by, slots_of};

use crate::linked_lists::{empty_heads, front, is_first, is_last, push_back, unlink};
use crate::slot::{LISTS, Link, MAX_KEYS, Slot, idle_at, queue_by};
use crate::slots::Slots;
use box_file::Limits;
use conntrack::{
    Belonging, ConnId, Connection, ConntrackEntry, Direction, Flags, Memory, Moment, Steps,
    limit_in,
};
use ip_headers::Tuple;
use std::alloc::Global;

/// A second in nanoseconds: no timeout is shorter.
pub const SECOND: u64 = 1_000_000_000;

/// The slots, which are numbered in the order of their creation, and a queue for each timeout. In
/// `steps` calls count the slots that they read or write.
#[derive(Drop)]
pub struct AgedSlots {
    slots: Slots,
    queues: [Link; LISTS],
    // The moment of the last packet of each queue's front, by which `live_until` tells whether the
    // front has expired.
    oldest: [Moment; LISTS],
    // The number of the next entry: 64 bits last longer than any run.
    next_serial: u64,
}

/// The timeout of a queue's entries in nanoseconds, which is a second at least.
fn limit_at(limits: &Limits, queue: usize) -> u64
    ensures limit { result ≡ limit_at limits.now queue }
    ensures least { 0 < result }
{
    limit_in(*limits, idle_at(queue))
}

/// The moment of the last packet of a queue's front.
fn oldest_of(slots: &Slots, queues: &[Link; LISTS], queue: usize, steps: &mut Steps) -> Moment
    requires { queue < 5 }
    ensures oldest { (lists : Lists) (front : ℕ) → IsRings slots.now queues.now lists
        → slice_get (lists queue) 0 ≡ Some front → result ≡ last_at (held_at slots.now) front }
    ensures steps { IsWithin (Some 1) steps.old steps.new }
{
    match front(queues, queue) {
        None => 0,
        Some(key) => match slots.last(key, steps) {
            None => 0,
            Some(last) => last,
        },
    }
}

/// Removes a slot from its queue, and notes the moment of the front that is left.
fn take_out(
    slots: &mut Slots,
    queues: &mut [Link; LISTS],
    oldest: &mut [Moment; LISTS],
    key: usize,
    steps: &mut Steps,
)
    requires rings { HasRings slots.old queues.old }
    requires owned { IsOwned slots.old key }
    ensures relists { Relists slots.old slots.new queues.old queues.new key None (off key) }
    ensures oldest { (lists : Lists) → IsRings slots.old queues.old lists
        → AreOldestBut key (last_at (held_at slots.old)) lists oldest.old
        → AreOldest (last_at (held_at slots.old)) (off key lists) oldest.new }
    ensures except_links { SameBy except_links slots.old slots.new }
    ensures size { SameSize slots.old slots.new }
    ensures steps { IsWithin (Some 4) steps.old steps.new }
{
    let left = unlink(slots, queues, key, steps);
    oldest[left] = oldest_of(slots, queues, left, steps);
}

/// Moves a slot to the end of a queue, unless it is the last there already. `oldest` may then lack
/// the moment of a queue with that slot in front.
fn requeue(
    slots: &mut Slots,
    queues: &mut [Link; LISTS],
    oldest: &mut [Moment; LISTS],
    queue: usize,
    key: usize,
    steps: &mut Steps,
)
    requires range { queue < 5 }
    requires few { key < MAX_KEYS }
    requires rings { HasRings slots.old queues.old }
    requires owned { IsOwned slots.old key }
    ensures relists { Relists slots.old slots.new queues.old queues.new key (Some queue)
        (λ lists. pushed key queue (off key lists)) }
    ensures oldest { (lists : Lists) → IsRings slots.old queues.old lists
        → AreOldestBut key (last_at (held_at slots.old)) lists oldest.old
        → AreOldestBut key (last_at (held_at slots.old)) (pushed key queue (off key lists)) oldest.new }
    ensures except_links { SameBy except_links slots.old slots.new }
    ensures size { SameSize slots.old slots.new }
    ensures steps { IsWithin (Some 6) steps.old steps.new }
    ensures stays { prev_of slots.old queues.old queue ≡ 5 + key → steps.new ≡ steps.old }
{
    if is_last(queues, queue, key) {
        return;
    }
    take_out(slots, queues, oldest, key, steps);
    push_back(slots, queues, queue, key, steps);
}

/// Notes the moment of a slot's last packet, if the slot is the front of its queue.
fn note_front(
    queues: &[Link; LISTS],
    oldest: &mut [Moment; LISTS],
    queue: usize,
    key: usize,
    moment: Moment,
)
    requires range { queue < 5 }
    requires few { key < MAX_KEYS }
    ensures { (slots : SlotsName) (lists : Lists) (last : ℕ → ℕ) → IsRings slots queues.now lists
        → owner_of slots key ≡ Some queue → last key ≡ moment
        → AreOldestBut key last lists oldest.old → AreOldest last lists oldest.new }
{
    if is_first(queues, queue, key) {
        oldest[queue] = moment;
    }
}

impl AgedSlots {
    /// No slots.
    pub fn new(alloc: Global) -> Self
        ensures table { IsTable result }
        ensures held { held_by result ≡ [] }
        ensures slots { (key : ℕ) → slots_of result key ≡ None }
        ensures room { has_room result ≡ false }
    {
        AgedSlots {
            slots: Slots::new(alloc),
            queues: empty_heads(),
            oldest: [0; LISTS],
            next_serial: 0,
        }
    }

    /// The lookup result of a packet, if a slot has an entry with its tuple as an incoming one.
    #[inline(always)]
    pub fn belonging(
        &self,
        key: usize,
        limits: &Limits,
        tuple: Tuple,
        flags: Flags,
        now: Moment,
        steps: &mut Steps,
    ) -> Option<Belonging>
        ensures belonging { result
            ≡ belonging_at limits.now now tuple flags (slots_of self.now key) }
        ensures steps { IsWithin (Some 1) steps.old steps.new }
    {
        self.slots.belonging(key, limits, tuple, flags, now, steps)
    }

    /// Updates an entry for one more packet and moves it to the end of its queue. Returns the slot
    /// that followed it in its queue: of the entry whose last packet came next after its last one.
    pub fn touch(
        &mut self,
        id: ConnId,
        direction: Direction,
        flags: Flags,
        mark: u32,
        now: Moment,
        steps: &mut Steps,
    ) -> Option<usize>
        requires table { IsTable self.old }
        requires is_held { IsSome (slots_of self.old id.0) }
        requires later { IsNoneLater now (held_by self.old) }
        ensures table { IsTable self.new }
        ensures held { held_by self.new
            ≡ touched_at id direction flags mark now (held_by self.old) }
        ensures slots { Sets (slots_of self.old) (slots_of self.new) id.0
            (option_map (touched direction flags mark now) (slots_of self.old id.0)) }
        ensures room { IsTrue (has_room self.old) → IsTrue (has_room self.new) }
        ensures steps { IsWithin (Some 7) steps.old steps.new }
    {
        let key = id.0;
        let (queue, follower) = self.slots.touch(key, direction, flags, mark, now, steps);
        requeue(
            &mut self.slots,
            &mut self.queues,
            &mut self.oldest,
            queue,
            key,
            steps,
        );
        note_front(&self.queues, &mut self.oldest, queue, key, now);
        follower.key()
    }

    /// The key of the next entry's slot.
    pub fn next_key(&self) -> usize
        ensures key { result ≡ self.now.slots.vacant_key }
        ensures few { IsTrue (has_room self.now) → result < MAX_KEYS }
    {
        self.slots.vacant_key()
    }

    /// Creates an entry, at the end of its queue.
    pub fn insert(&mut self, connection: Connection, flags: Flags, steps: &mut Steps) -> ConnId
        requires table { IsTable self.old }
        requires room { IsTrue (has_room self.old) }
        requires later { IsNoneLater connection.last (held_by self.old) }
        ensures table { IsTable self.new }
        ensures held { held_by self.new
            ≡ held_by self.old ++ begun_with result connection flags ∷ [] }
        ensures slots { Sets (slots_of self.old) (slots_of self.new) result.0
            (Some (begun_with result connection flags)) }
        ensures free { slots_of self.old result.0 ≡ None }
        ensures key { result.0 ≡ self.old.slots.vacant_key }
        ensures steps { IsWithin (Some 3) steps.old steps.new }
    {
        let held = connection.begun(ConnId(self.slots.vacant_key()), flags);
        let queue = queue_by(held.original.kind, held.phase());
        let key = self.slots.fill(Slot::new(&held, self.next_serial), steps);
        self.next_serial += 1;
        push_back(&mut self.slots, &mut self.queues, queue, key, steps);
        note_front(&self.queues, &mut self.oldest, queue, key, connection.last);
        ConnId(key)
    }

    /// Removes an entry from its slot and its queue.
    pub fn remove(&mut self, id: ConnId, steps: &mut Steps) -> ConntrackEntry
        requires table { IsTable self.old }
        requires is_held { IsSome (slots_of self.old id.0) }
        ensures table { IsTable self.new }
        ensures held { held_by self.new ≡ without id (held_by self.old) }
        ensures slots { Sets (slots_of self.old) (slots_of self.new) id.0 None }
        ensures value { slots_of self.old id.0 ≡ Some result }
        ensures room { IsTrue (has_room self.old) → IsTrue (has_room self.new) }
        ensures steps { IsWithin (Some 5) steps.old steps.new }
    {
        let key = id.0;
        take_out(
            &mut self.slots,
            &mut self.queues,
            &mut self.oldest,
            key,
            steps,
        );
        self.slots.remove(key, steps).held(key)
    }

    /// Until when the entries of a queue are all live.
    ///
    /// # Errors
    ///
    /// The front, where it has expired.
    fn queue_live_until(&self, limits: &Limits, queue: usize, now: Moment) -> Result<Moment, ConnId>
        requires table { IsTable self.now }
        requires range { queue < 5 }
        ensures live { IfOk result (λ until. (now ≤ until)
            × ((moment : ℕ) → moment ≤ until
            → IsLiveQueue limits.now (slots_of self.now) moment queue)) }
        ensures expired { IfErr result (λ id.
            IfSome (slots_of self.now id.0) (λ h. is_live limits.now now h ≡ false)
            × IsSome (slots_of self.now id.0)) }
    {
        match front(&self.queues, queue) {
            None => Ok(Moment::MAX),
            Some(key) => {
                let until = self.oldest[queue].saturating_add(limit_at(limits, queue) - 1);
                if now <= until {
                    Ok(until)
                } else {
                    Err(ConnId(key))
                }
            }
        }
    }

    /// Until when all entries are live, as far as that is less than a second ahead.
    ///
    /// # Errors
    ///
    /// An entry that has expired.
    pub fn live_until(&self, limits: &Limits, now: Moment) -> Result<Moment, ConnId>
        requires { IsTable self.now }
        ensures live { IfOk result (λ until. (now ≤ until)
            × (until < now + SECOND) × AreLiveUntil limits.now (slots_of self.now) until) }
        ensures expired { IfErr result (λ id.
            IfSome (slots_of self.now id.0) (λ h. is_live limits.now now h ≡ false)
            × IsSome (slots_of self.now id.0)) }
    {
        let mut until = now.saturating_add(SECOND - 1);
        for queue in 0..LISTS {
            until = until.min(self.queue_live_until(limits, queue, now)?);
        }
        Ok(until)
    }

    /// Reserves memory for one more entry. If it is reserved already nothing changes.
    ///
    /// # Errors
    ///
    /// `Memory` where memory ran out, or where the next key has no 32-bit node index: the slab's
    /// contracts don't bound its keys by how many slots are in use; or where all numbers are used.
    pub fn reserve_one(&mut self) -> Result<(), Memory>
        requires table { IsTable self.old }
        ensures table { IsTable self.new }
        ensures held { held_by self.new ≡ held_by self.old }
        ensures slots { (key : ℕ) → slots_of self.new key ≡ slots_of self.old key }
        ensures room { OnOk result (IsTrue (has_room self.new)) }
        ensures kept { IsTrue (has_room self.old) → IsTrue (has_room self.new) }
        ensures spared { IsTrue (has_room self.old) → (self.new ≡ self.old) × IsOk result }
    {
        if self.slots.vacant_key() >= MAX_KEYS || self.next_serial == u64::MAX {
            return Err(Memory);
        }
        self.slots.reserve_one()
    }

    /// All entries in the order of their creation.
    pub fn list(&self, alloc: Global, steps: &mut Steps) -> Result<Vec<Connection>, Memory>
        requires { IsTable self.now }
        ensures list { IfOk result (λ all. all.items ≡ map connection_of (held_by self.now)) }
        ensures rises { steps.old ≤ steps.new }
    {
        let mut order = self.slots.numbered(alloc, steps)?;
        order.sort_unstable_by_key(|entry| entry.0);
        order.iter().map(|entry| entry.1).collect(alloc)
    }
}
