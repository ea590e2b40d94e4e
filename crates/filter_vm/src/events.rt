//! The events of a record, and the count of statements.
ghost use Rattle.std.specs.Prelude.{◌≡◌, ◌≤◌, ◌<◌, ◌+◌, ◌-◌, ◌^◌, ◌++◌, ◌∷◌, [], IfOk, vec_capacity, length, min};
ghost use Rattle.filter_vm.specs.Machine.{EventsAndTicks};
ghost use Rattle.filter_vm.specs.declared.events.TheConstants.{MOST_EVENTS};

use crate::code::Code;
use nft_tree::Memory;
use rule_meaning::Event;
use std::alloc::Global;
use std::marker::Model;

/// The most events that rules record for one packet: as many as the limit on a ruleset's cost.
pub const MOST_EVENTS: usize = 65_536;

/// The events of the current record, in order, and how many statements were started since `new`
/// or the last `clear`. The count saturates at 2^64 - 1. Memory is reserved once, by `new`.
#[derive(Drop)]
pub struct Events {
    list: Vec<Event>,
    ticks: u64,
}

impl Model for Events {
    ghost Value = { EventsAndTicks };

    ghost view = { λ e. record { events = e.list.items; ticks = e.ticks } };

    ghost invariant = { λ e. MOST_EVENTS ≤ vec_capacity e.list };
}

impl Events {
    /// No events, with memory for 65,536: as many as the code of any ruleset records for a packet.
    ///
    /// # Errors
    /// `Memory` where that memory can't be had.
    pub fn new(alloc: Global, _code: &Code) -> Result<Events, Memory>
        ensures { IfOk result (λ events. events ≡ record { events = []; ticks = 0 }) }
    {
        let list = Vec::with_capacity(alloc, MOST_EVENTS)?;
        Ok(Events { list, ticks: 0 })
    }

    /// The events of the current record, in order.
    pub fn list(&self) -> &[Event]
        ensures { result.now ≡ self.now.events }
    {
        &self.list
    }

    /// How many statements were started since `new`, at most 2^64 - 1.
    pub fn ticks(&self) -> u64
        ensures { result ≡ self.now.ticks }
    {
        self.ticks
    }

    /// Removes the events, and sets the count of statements to 0. The reserved memory stays.
    pub fn clear(&mut self)
        ensures { self.new ≡ record { events = []; ticks = 0 } }
    {
        self.list.clear();
        self.ticks = 0;
    }

    /// Removes the events. The reserved memory and the count of statements stay, so that chains that
    /// run twice are counted twice.
    pub fn clear_list(&mut self)
        ensures { self.new ≡ record self.old { events = [] } }
    {
        self.list.clear();
    }

    /// Appends an event.
    pub(crate) fn note(&mut self, event: Event)
        requires { length self.old.events < MOST_EVENTS }
        ensures { self.new ≡ record self.old { events = self.old.events ++ event ∷ [] } }
    {
        self.list.push_reserved(event);
    }

    /// Adds to the count of statements.
    pub(crate) fn tick(&mut self, count: u32)
        ensures { self.new ≡ record self.old { ticks = min (self.old.ticks + count) (2 ^ 64 - 1) } }
    {
        self.ticks = self.ticks.saturating_add(u64::from(count));
    }
}
