//! The events of a record, and the count of statements, as hooks run.
ghost use Rattle.std.specs.Prelude.{◌≡◌, ◌≤◌, ◌<◌, ◌+◌, ◌-◌, ◌^◌, [], IfOk, length, min};
ghost use Rattle.filter_vm.specs.Machine.{EventsAndTicks, base_chain_result, base_chain_stop};
ghost use Rattle.filter_vm.specs.declared.events.TheConstants.{MOST_EVENTS};

use filter_vm::{Code, Start, run_in_place};
use rule_meaning::{Event, Facts, HookVerdict};
use std::alloc::{AllocError, Global};
use std::marker::Model;

/// The events of the current record, in order, and how many statements were started, over all
/// records. Chains run with it alone, and only `HookRuns::new` makes one, so that none runs
/// uncounted.
#[derive(Drop)]
pub struct Events {
    recorded: filter_vm::Events,
}

impl Model for Events {
    ghost Value = { EventsAndTicks };

    ghost view = { λ e. e.recorded };
}

impl Events {
    /// No events, with memory for as many as a record may have.
    ///
    /// # Errors
    /// `AllocError` where that memory can't be had.
    pub(crate) fn new(alloc: Global, code: &Code) -> Result<Self, AllocError>
        ensures { IfOk result (λ events. events ≡ record { events = []; ticks = 0 }) }
    {
        let recorded = filter_vm::Events::new(alloc, code)?;
        Ok(Events { recorded })
    }

    /// The events of the current record, in order.
    pub fn list(&self) -> &[Event]
        ensures { result.now ≡ self.now.events }
    {
        self.recorded.list()
    }

    /// How many statements were started, at most 2^64 - 1.
    pub fn ticks(&self) -> u64
        ensures { result ≡ self.now.ticks }
    {
        self.recorded.ticks()
    }

    /// Removes the events. The reserved memory and the count of statements stay.
    pub fn clear(&mut self)
        ensures { self.new ≡ record self.old { events = [] } }
    {
        self.recorded.clear_list();
    }

    /// Runs a packet through a base chain, as `run_in_place`.
    #[inline(always)]
    pub(crate) fn run_chain(&mut self, code: &Code, start: Start, facts: &mut Facts) -> HookVerdict
        requires room { length self.old.events + start.cost ≤ MOST_EVENTS }
        ensures end { record { verdict = result; facts = facts.new; events = self.new.events }
            ≡ base_chain_result code.now start facts.old self.old.events }
        ensures ticks { let stop = base_chain_stop code.now start facts.old self.old.events in
            self.new.ticks ≡ min (self.old.ticks + stop.ticks) (2 ^ 64 - 1) }
        ensures few { (base_chain_stop code.now start facts.old self.old.events).ticks < start.cost }
        ensures bounded { length self.new.events ≤ length self.old.events + start.cost }
    {
        run_in_place(code, start, facts, &mut self.recorded)
    }
}
