//! The slots of a table. Nothing else reaches a slot, and each call that reads or writes one counts
//! it in `steps`.
ghost use Rattle.std.specs.Prelude.{◌≡◌, ◌+◌, ◌<◌, [], List, IsTrue, IfSome, IfOk, OnOk, IsOk, Some, None, length, map, nat_lt, option_map, slice_index_or, ℕ, ◌≤◌};
ghost use Rattle.slab.specs.Slab.{entries, get, slab_len, ContainsKey, Updates};
ghost use Rattle.conntrack.specs.StepCounts.{Counts};
ghost use Rattle.conntrack.specs.TableEntries.{touched};
ghost use Rattle.aged_tracker.specs.steps.Table.{Placed, SameSize, belonging_at, held_at, held_of, link_at, numbered_entry, owner_of, queue_of, updated, with_link, with_neighbour};
ghost use Rattle.aged_tracker.specs.steps.SlotLists.{cold_of};
ghost use Rattle.aged_tracker.specs.declared.slot.Link.{Link as Linked};

use crate::slot::{ColdSlot, HotSlot, Link, ListLinks, Neighbour, NodeIndex, Slot};
use box_file::Limits;
use conntrack::{Belonging, Connection, Direction, Flags, Memory, Moment, Steps};
use ip_headers::Tuple;
use slab::Slab;
use std::alloc::Global;
use std::marker::Model;

/// The slots by their keys. What a packet uses is apart from what it doesn't, and links from both: of
/// a neighbour in a queue a packet uses nothing else.
#[derive(Drop)]
pub struct Slots {
    slab: Slab<HotSlot>,
    links: Vec<Link>,
    cold: Vec<ColdSlot>,
}

impl Model for Slots {
    ghost use Rattle.slab.specs.Slab.{Slab as Slabs};
    ghost use Rattle.aged_tracker.specs.declared.slot.Slot.{Slot as Slotted};

    ghost Value = { Slabs Slotted };

    ghost use Rattle.aged_tracker.specs.steps.SlotLists.{IsStored, whole};

    ghost view = { λ s. whole s.slab s.links.items s.cold.items };

    ghost invariant = { λ s. IsStored s.slab s.links.items s.cold.items };
}

/// Lengthens a list by fillers until it has a place for a key.
///
/// # Errors
///
/// `Memory` where memory ran out.
fn make_place<T: Copy>(list: &mut Vec<T>, key: usize, filler: T) -> Result<(), Memory>
    ensures items { (other : ℕ) → slice_index_or list.new.items other filler
        ≡ slice_index_or list.old.items other filler }
    ensures length { length list.old.items ≤ length list.new.items }
    ensures place { OnOk result (key < length list.new.items) }
    ensures spared { key < length list.old.items → (list.new ≡ list.old) × IsOk result }
{
    while list.len() <= key {
        list.push(filler)?;
    }
    Ok(())
}

/// What is stored for a key in the list of what packets don't use.
fn cold_at(cold: &[ColdSlot], key: usize) -> ColdSlot
    ensures { result ≡ cold_of cold.now key }
{
    match cold.get(key) {
        Some(slot) => *slot,
        None => ColdSlot::unused(),
    }
}

impl Slots {
    /// No slots.
    pub fn new(alloc: Global) -> Self
        ensures empty { result.slots ≡ [] }
        ensures first_key { result.vacant_key ≡ 0 }
        ensures capacity { result.capacity ≡ 0 }
    {
        Slots {
            slab: Slab::new(alloc),
            links: Vec::new(alloc),
            cold: Vec::new(alloc),
        }
    }

    /// The key of the next one.
    pub fn vacant_key(&self) -> usize
        ensures { result ≡ self.now.vacant_key }
    {
        self.slab.vacant_key()
    }

    /// Reserves memory for one more.
    ///
    /// # Errors
    ///
    /// `Memory` where memory ran out.
    pub fn reserve_one(&mut self) -> Result<(), Memory>
        ensures room { OnOk result (IsTrue (nat_lt (slab_len self.new) self.new.capacity)) }
        ensures rest_kept { self.new ≡ record self.old { capacity = self.new.capacity } }
        ensures spared { IsTrue (nat_lt (slab_len self.old) self.old.capacity)
            → (self.new ≡ self.old) × IsOk result }
    {
        let key = self.slab.vacant_key();
        make_place(&mut self.links, key, Link::alone(0))?;
        make_place(&mut self.cold, key, ColdSlot::unused())?;
        self.slab.reserve(1)
    }

    /// The moment of the last packet of one.
    pub fn last(&self, key: usize, steps: &mut Steps) -> Option<Moment>
        ensures last { result ≡ option_map (λ s. s.last) (get self.now key) }
        ensures steps { Counts 1 steps.old steps.new }
    {
        steps.tick();
        match self.slab.get(key) {
            Some(slot) => Some(slot.last),
            None => None,
        }
    }

    /// The lookup result of a packet, if one has an entry with its tuple as an incoming one.
    #[inline(always)]
    pub fn belonging(
        &self,
        key: usize,
        limits: &Limits,
        tuple: Tuple,
        flags: Flags,
        now: Moment,
        steps: &mut Steps,
    ) -> Option<Belonging>
        ensures belonging { result
            ≡ belonging_at limits.now now tuple flags (held_at self.now key) }
        ensures steps { Counts 1 steps.old steps.new }
    {
        steps.tick();
        let slot = self.slab.get(key)?;
        let direction = slot.direction_of(tuple)?;
        Some(slot.belonging(key, limits, direction, flags, now))
    }

    /// The numbers of all, and their entries as they are listed.
    ///
    /// # Errors
    ///
    /// `Memory` where memory ran out.
    pub fn numbered(
        &self,
        alloc: Global,
        steps: &mut Steps,
    ) -> Result<Vec<(u64, Connection)>, Memory>
        ensures numbered { IfOk result (λ all. all.items ≡ map numbered_entry (entries self.now)) }
        ensures steps { Counts (slab_len self.now) steps.old steps.new }
    {
        steps.add(self.slab.len());
        let cold = self.cold.as_slice();
        self.slab
            .iter()
            .map(|entry| {
                let slot = Slot::whole(Link::alone(0), &cold_at(cold, entry.0), entry.1);
                (slot.serial, slot.held(entry.0).connection())
            })
            .collect(alloc)
    }

    /// Fills a free one.
    #[inline(always)]
    pub fn fill(&mut self, slot: Slot, steps: &mut Steps) -> usize
        requires { IsTrue (nat_lt (slab_len self.old) self.old.capacity) }
        ensures key { result ≡ self.old.vacant_key }
        ensures free { get self.old result ≡ None }
        ensures updates { Updates self.old self.new result (Some slot) }
        ensures steps { Counts 1 steps.old steps.new }
    {
        steps.tick();
        let (hot, cold, link) = slot.parts();
        let key = self.slab.insert_reserved(hot);
        self.links[key] = link;
        self.cold[key] = cold;
        key
    }

    /// Empties one.
    pub fn remove(&mut self, key: usize, steps: &mut Steps) -> Slot
        requires { ContainsKey self.old key }
        ensures value { get self.old key ≡ Some result }
        ensures updates { Updates self.old self.new key None }
        ensures room { IsTrue (nat_lt (slab_len self.new) self.new.capacity) }
        ensures key_is_next { self.new.vacant_key ≡ key }
        ensures steps { Counts 1 steps.old steps.new }
    {
        steps.tick();
        let hot = self.slab.remove(key);
        Slot::whole(self.links[key], &self.cold[key], &hot)
    }

    /// Updates the entry of one for one more packet, and returns its queue then, and the node that
    /// follows it in the one that it was in.
    pub fn touch(
        &mut self,
        key: usize,
        direction: Direction,
        flags: Flags,
        mark: u32,
        now: Moment,
        steps: &mut Steps,
    ) -> (usize, NodeIndex)
        requires { ContainsKey self.old key }
        ensures slots { IfSome (get self.old key)
            (λ s. Updates self.old self.new key
            (Some (updated (touched direction flags mark now (held_of key s)) s))) }
        ensures queue { IfSome (get self.old key)
            (λ s. result.0 ≡ queue_of (touched direction flags mark now (held_of key s))) }
        ensures follower { IfSome (get self.old key) (λ s. result.1 ≡ s.links.link.next) }
        ensures range { result.0 < 5 }
        ensures size { SameSize self.old self.new }
        ensures steps { Counts 1 steps.old steps.new }
    {
        steps.tick();
        let slot = &mut self.slab[key];
        slot.touch(direction, flags, mark, now);
        (slot.queue(), self.links[key].next)
    }

    /// Takes the links of one: it is in no list then.
    pub fn take_links(&mut self, key: usize, steps: &mut Steps) -> ListLinks
        requires { ContainsKey self.old key }
        ensures list { result.list ≡ owner_of self.old key }
        ensures link { (heads : List Linked)
            → result.link ≡ link_at self.old heads (5 + key) }
        ensures placed { Placed self.old self.new key (record { list = None; link = result.link }) }
        ensures size { SameSize self.old self.new }
        ensures steps { Counts 1 steps.old steps.new }
    {
        steps.tick();
        let slot = &mut self.slab[key];
        let list = slot.list;
        slot.list = None;
        ListLinks {
            list,
            link: self.links[key],
        }
    }

    /// Sets the links of one.
    pub fn set_links(&mut self, key: usize, links: ListLinks, steps: &mut Steps)
        requires { ContainsKey self.old key }
        ensures placed { Placed self.old self.new key links }
        ensures size { SameSize self.old self.new }
        ensures steps { Counts 1 steps.old steps.new }
    {
        steps.tick();
        self.slab[key].list = links.list;
        self.links[key] = links.link;
    }

    /// Sets a neighbour of one.
    #[inline(always)]
    pub fn set_neighbour(
        &mut self,
        key: usize,
        neighbour: Neighbour,
        to: NodeIndex,
        steps: &mut Steps,
    )
        requires { ContainsKey self.old key }
        ensures slots { IfSome (get self.old key) (λ s. Updates self.old self.new key
            (Some (with_link (with_neighbour neighbour to s.links.link) s))) }
        ensures size { SameSize self.old self.new }
        ensures steps { Counts 1 steps.old steps.new }
    {
        steps.tick();
        self.links[key].set(neighbour, to);
    }
}
