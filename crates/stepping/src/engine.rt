//! The engine: a box that processes one record at a time.
ghost use Rattle.std.specs.Prelude.{◌≡◌, ◌<◌, ◌≤◌, ◌+◌, ℕ, [], ◌∷◌, List, length, map, true, false, IsOk, IsSome, IsTrue, IfOk, IfSome, OnErr, OnOk, Some};
ghost use Rattle.conntrack.specs.ConntrackEntry.{connection_of};
ghost use Rattle.pcap_io.specs.Sll2.{IsSent, sent};
ghost use Rattle.rule_check.specs.WellFormed.{WellFormed};
ghost use Rattle.history.specs.History.{Entry, IsNewest, live_in};
ghost use Rattle.history.specs.Setup.{limits_of};
ghost use Rattle.nft_tree.specs.Tree.{TableTree};
ghost use Rattle.nft_tree.specs.TreeViews.{tables_of};
ghost use Rattle.rule_paths.specs.Paths.{AreAllCosts, Caller, ruleset_cost};
ghost use Rattle.stepping.specs.Next.{Next};
ghost use Rattle.stepping.specs.Representing.{Represents, sent_packets, packet_of, sends_of, setup_of, recorded_of};
ghost use Rattle.filter_vm.specs.declared.events.TheConstants.{MOST_EVENTS};

use crate::laws::extends_history;
use crate::packet_buffer::PacketBuffer;
use crate::process::{RecordResult, process_record};
use crate::setup::Setup;
use crate::state::PacketState;
use connection_table::ConnectionTable;
use conntrack::laws::{independent_of_ids, none_later};
use conntrack::{Connection, Tracker};
use history::Outcome;
use hook_runs::Events;
use nft_tree::Ruleset;
use pcap_io::{Leaving, Record};
use rule_check::Checked;
use std::alloc::{AllocError as Memory, Global};
use std::hash::RandomState;
use std::marker::Model;
use step_count::start;

/// A box with its ruleset and its state after the records so far. `T` is the connection tracker.
pub struct Engine<T: Tracker> {
    setup: Setup,
    connections: ConnectionTable<T>,
    records: u64,
    /// The time of the last record in nanoseconds; 0 before the first.
    latest: u64,
    /// The last packet on its path.
    state: PacketState,
    /// The events of the last record.
    events: Events,
    /// The result of the last record; none before the first.
    ended: Option<RecordResult>,
    /// The packet that the last record forwarded; empty where there is none.
    packet: PacketBuffer,
    /// All that the next record may need is reserved.
    ready: bool,
}

/// What a record came to.
#[derive(Clone, Copy)]
pub struct Processed<'a> {
    /// Its entry.
    pub entry: history::Entry<'a>,
    /// The packet that it forwarded, with its time and output interface; `None` where there is none.
    pub leaving: Option<Leaving<'a>>,
}

// Written out, so that dropping one is a call.
impl<T: Tracker> Drop for Engine<T> {
    fn drop(self) {
        let Engine {
            setup: _,
            connections: _,
            records: _,
            latest: _,
            state: _,
            events: _,
            ended: _,
            packet: _,
            ready: _,
        } = self;
    }
}

impl<T: Tracker> Model for Engine<T> {
    ghost use Rattle.stepping.specs.Representing.{EngineState};
    ghost use Rattle.stepping.specs.steps.Steps.{setup_in};
    ghost use Rattle.stepping.specs.steps.Processing.{IsReady, newest_in};

    ghost Value = { EngineState };

    ghost view = { λ e. record {
      setup = setup_in e.setup.hooks;
      records = e.records;
      ticks = e.events.ticks;
      held = e.connections.held;
      newest = newest_in e.ended e.latest e.events e.packet;
      ready = e.ready;
    } };

    ghost invariant = { λ e. IsReady (setup_in e.setup.hooks) e.connections e.ended e.latest
        e.events e.packet e.ready };
}

impl<T: Tracker> Engine<T> {
    /// The engine before the first record, with the rules compiled. Its hash tables use keys that
    /// everybody may know: a capture made to collide can make them slow, which `with_hasher`
    /// prevents.
    ///
    /// # Errors
    /// An allocation failed. The ruleset is dropped.
    pub fn new(alloc: Global, checked: Checked) -> Result<Self, Memory>
        ensures setup { IfOk result (λ engine. engine.setup ≡ setup_of checked) }
        ensures none { IfOk result (λ engine. Represents engine []) }
        ensures ticks { IfOk result (λ engine. engine.ticks ≡ 0) }
    {
        let idle = checked.plant().idle();
        Self::with_table(alloc, ConnectionTable::new(alloc, idle), checked)
    }

    /// The same, but the keys of `hasher` seed its hash tables; no result depends on them.
    ///
    /// # Errors
    /// An allocation failed. The ruleset is dropped.
    pub fn with_hasher(alloc: Global, hasher: RandomState, checked: Checked) -> Result<Self, Memory>
        ensures setup { IfOk result (λ engine. engine.setup ≡ setup_of checked) }
        ensures none { IfOk result (λ engine. Represents engine []) }
        ensures ticks { IfOk result (λ engine. engine.ticks ≡ 0) }
    {
        let idle = checked.plant().idle();
        Self::with_table(
            alloc,
            ConnectionTable::with_hasher(alloc, hasher, idle),
            checked,
        )
    }

    /// The engine before the first record, with this table, which has no connections.
    fn with_table(
        alloc: Global,
        connections: ConnectionTable<T>,
        checked: Checked,
    ) -> Result<Self, Memory>
        requires held { connections.held ≡ [] }
        requires limits { connections.limits ≡ limits_of (setup_of checked) }
        requires room { connections.has_room ≡ false }
        ensures setup { IfOk result (λ engine. engine.setup ≡ setup_of checked) }
        ensures none { IfOk result (λ engine. Represents engine []) }
        ensures ticks { IfOk result (λ engine. engine.ticks ≡ 0) }
    {
        let packet = PacketBuffer::new(alloc)?;
        let (setup, events) = Setup::new(alloc, checked)?;
        Ok(Engine {
            setup,
            connections,
            records: 0,
            latest: 0,
            state: PacketState::vacant(),
            events,
            ended: None,
            packet,
            ready: false,
        })
    }

    /// Reserves all that the next record may need.
    ///
    /// # Errors
    /// An allocation failed. The engine is unchanged.
    #[inline(always)]
    pub fn reserve(&mut self) -> Result<(), Memory>
        ensures ok { OnOk result (self.new ≡ record self.old { ready = true }) }
        ensures err { OnErr result (self.new ≡ self.old) }
        ensures spared { IsTrue self.old.ready → (self.new ≡ self.old) × IsOk result }
    {
        if self.ready {
            return Ok(());
        }
        self.connections.reserve()?;
        self.ready = true;
        Ok(())
    }

    /// Processes one record, and returns its outcome.
    ///
    /// # Errors
    /// An allocation failed; never after `reserve`. The engine is unchanged.
    pub fn step(&mut self, record: &Record) -> Result<Outcome, Memory>
        requires few { self.old.records < 4294967296 }
        // An engine that represents a history then represents it with the record's entry.
        ensures represents { (history : List Entry) → Represents self.old history
            → IfOk result (λ outcome. (e : Entry)
            × Next self.old.setup history (recorded_of record.now) e
            × Represents self.new (e ∷ history) × (outcome ≡ e.outcome)) }
        ensures setup { self.new.setup ≡ self.old.setup }
        ensures records { OnOk result (self.new.records ≡ self.old.records + 1) }
        // The record evaluates no more statements than the ruleset's cost.
        ensures ticks { (cost : TableTree → Caller → ℕ) → AreAllCosts self.old.setup.rules cost
            → self.new.ticks ≤ self.old.ticks + ruleset_cost cost self.old.setup.rules }
        ensures no_fewer { self.old.ticks ≤ self.new.ticks }
        ensures err { OnErr result (self.new ≡ self.old) }
        // After `reserve` it can't fail, whatever the record.
        ensures ready { IsTrue self.old.ready → IsOk result }
        // What is reserved lasts until a connection begins.
        ensures lasts { OnOk result (IfSome self.new.newest (λ newest.
            newest.begun ≡ false → IsTrue self.new.ready)) }
        ensures newest { OnOk result (IsSome self.new.newest) }
    {
        // All allocation first: nothing after it can fail.
        self.reserve()?;
        self.process(record);
        Ok(self.newest().entry.outcome)
    }

    /// Processes one record with what `reserve` reserved. `newest` then tells what it came to.
    pub fn process(&mut self, record: &Record)
        requires few { self.old.records < 4294967296 }
        requires ready { IsTrue self.old.ready }
        // An engine that represents a history then represents it with the record's entry.
        ensures represents { (history : List Entry) → Represents self.old history
            → (e : Entry) × Next self.old.setup history (recorded_of record.now) e
            × Represents self.new (e ∷ history) }
        ensures newest { IsSome self.new.newest }
        ensures setup { self.new.setup ≡ self.old.setup }
        ensures records { self.new.records ≡ self.old.records + 1 }
        // The record evaluates no more statements than the ruleset's cost.
        ensures ticks { (cost : TableTree → Caller → ℕ) → AreAllCosts self.old.setup.rules cost
            → self.new.ticks ≤ self.old.ticks + ruleset_cost cost self.old.setup.rules }
        ensures no_fewer { self.old.ticks ≤ self.new.ticks }
        // What is reserved lasts until a connection begins.
        ensures lasts { IfSome self.new.newest (λ newest.
            newest.begun ≡ false → IsTrue self.new.ready) }
    {
        // The connections held are known but for their ids.
        extends_history();
        none_later();
        self.packet.clear();
        self.events.clear();
        let now = self.latest.max(record.moment);
        let mut aged = start();
        self.connections.age_all(now, &mut aged);
        let ended = process_record(
            &self.setup,
            record,
            now,
            &mut self.connections,
            &mut self.state,
            &mut self.events,
            &mut self.packet,
        );
        self.records += 1;
        self.latest = now;
        self.ended = Some(ended);
        // Only a new connection takes what is reserved.
        self.ready = !ended.begun;
    }

    /// What the last record came to.
    pub fn newest(&self) -> Processed<'_>
        requires { IsSome self.now.newest }
        // Its entry is the newest of each history that the engine represents.
        ensures newest { (history : List Entry) → Represents self.now history
            → IsNewest (Some result.entry) history }
        // A record has no more events than a ruleset may cost.
        ensures few { length result.entry.events.now ≤ MOST_EVENTS }
        ensures sends { sent_packets result.leaving ≡ sends_of self.now.newest }
        ensures fits { IfSome result.leaving (λ leaving. IsSent (sent leaving)) }
    {
        let ended = self.ended.unwrap();
        let leaving = match ended.outcome {
            Outcome::Passed(interface) => Some(Leaving {
                moment: self.latest,
                interface,
                packet: self.packet.as_slice(),
            }),
            Outcome::Local | Outcome::Dropped(_) => None,
        };
        Processed {
            entry: history::Entry {
                number: self.records,
                length: ended.length,
                events: self.events.list(),
                outcome: ended.outcome,
                begun: ended.begun,
            },
            leaving,
        }
    }

    /// The entry of the last record; `None` before the first.
    pub fn entry(&self) -> Option<history::Entry<'_>>
        // It is the newest entry of each history that the engine represents.
        ensures newest { (history : List Entry) → Represents self.now history
            → IsNewest result history }
        // A record has no more events than a ruleset may cost.
        ensures few { IfSome result (λ entry. length entry.events.now ≤ MOST_EVENTS) }
    {
        if self.ended.is_none() {
            return None;
        }
        Some(self.newest().entry)
    }

    /// The packet that the last record forwarded; empty where there is none.
    pub fn packet(&self) -> &[u8]
        ensures { result.now ≡ packet_of self.now.newest }
    {
        self.packet.as_slice()
    }

    /// The number of connections alive at the time of the last record.
    pub fn live(&self) -> usize
        ensures { (history : List Entry) → Represents self.now history
            → result ≡ length (live_in self.now.setup history) }
    {
        independent_of_ids();
        self.connections.live()
    }

    /// The connections alive at the time of the last record, in the order in which they began.
    ///
    /// # Errors
    /// An allocation failed.
    pub fn connections(&self, alloc: Global) -> Result<Vec<Connection>, Memory>
        ensures { (history : List Entry) → Represents self.now history → IfOk result (λ all.
            all.items ≡ map connection_of (live_in self.now.setup history)) }
    {
        independent_of_ids();
        self.connections.list(alloc)
    }

    /// The ruleset.
    pub fn rules(&self) -> &Ruleset
        ensures { tables_of result.now ≡ self.now.setup.rules }
    {
        self.setup.hooks.checked().tree()
    }

    /// The law that the ruleset is well-formed. It does nothing.
    pub fn judged(&self)
        ensures { WellFormed self.now.setup.rules self.now.setup.network }
    {
        self.setup.hooks.checked().known_bounds();
    }

    /// The number of records processed.
    pub fn records(&self) -> u64
        ensures { result ≡ self.now.records }
    {
        self.records
    }

    /// The number of statements started since `new`, at most 2^64 - 1.
    pub fn ticks(&self) -> u64
        ensures { result ≡ self.now.ticks }
    {
        self.events.ticks()
    }
}
