//! A conntrack table with the NAT mappings of its entries.
ghost use Rattle.std.specs.Prelude.{◌≡◌, ◌+◌, ◌-◌, ◌<◌, ◌≤◌, ◌↔◌, ◌++◌, ◌∷◌, [], IsTrue, List, false, length, map, option_map, IfOk, IsOk, OnErr, OnOk, Err};
ghost use Rattle.ip_headers.specs.declared.tuple.Mapping.{Mapping};
ghost use Rattle.conntrack.specs.declared.connection.ConnId.{ConnId as TheId};
ghost use Rattle.conntrack.specs.ConntrackEntry.{belongs_in, connection_of};
ghost use Rattle.conntrack.specs.TableEntries.{IsNoneLater, IsWithin, begun_with};
ghost use Rattle.conntrack.specs.ConntrackEntry.{is_taken, max_connections};
ghost use Rattle.conntrack.specs.TableEntries.{has_distinct_ids, has_id, live_at};
ghost use Rattle.conntrack.specs.TableEntries.{touched_at};
ghost use Rattle.conntrack.specs.Phases.{no_flags};
ghost use Rattle.conntrack.specs.Updates.{after_end};
ghost use Rattle.ip_headers.specs.Tuple.{inverse};
ghost use Rattle.nat_mapping.specs.HeldMappings.{HoldsSame, IsOneToOne, holders_of};
ghost use Rattle.translation.specs.Fitting.{Fits, IsFitting};
ghost use Rattle.translation.specs.LiveMappings.{listed, mappings_in};
ghost use Rattle.translation.specs.CtInfos.{ct_info_by};
ghost use Rattle.connection_table.specs.Table.{IsConfirmable, ageing_slots, begun_as, look_up_slots};

use box_file::Limits;
use conntrack::laws::{looked_up, none_later};
use conntrack::{
    Aged, BeginError, Belonging, ConnId, Connection, Direction, Flags, Memory, Moment, Steps,
    Tracker,
};
use ip_headers::{Mapping as Mapped, Tuple};
use nat_mapping::Mappings;
use nat_mapping::laws::{same_answers, stays_one_to_one};
use std::alloc::Global;
use std::hash::RandomState;
use std::marker::Model;
use translation::NewConnection;

/// The entries of a tracker `T`, with the mappings that they were created with. In `steps` calls count
/// the slots that the tracker visits, and say how many at most.
#[derive(Drop)]
pub struct ConnectionTable<T: Tracker> {
    tracker: T,
    mappings: Mappings,
}

impl<T: Tracker> Model for ConnectionTable<T> {
    ghost use Rattle.std.specs.Prelude.{◌&&◌, nat_le};
    ghost use Rattle.nat_mapping.specs.HeldMappings.{HoldsSame};
    ghost use Rattle.translation.specs.LiveMappings.{mappings_in};
    ghost use Rattle.connection_table.specs.Table.{Table};

    ghost Value = { Table };

    ghost view = { λ t. record {
      limits = T.limits t.tracker;
      held = T.held t.tracker;
      has_room = T.has_room t.tracker && nat_le 2 t.mappings.room;
    } };

    ghost invariant = { λ t. HoldsSame (mappings_in (T.held t.tracker)) t.mappings.held };
}

impl<T: Tracker> ConnectionTable<T> {
    /// An empty table with these timeouts, with no memory reserved for a connection. Its hash
    /// tables use keys that everybody may know.
    pub fn new(alloc: Global, idle: Limits) -> Self
        ensures held { result.held ≡ [] }
        ensures limits { result.limits ≡ idle }
        ensures room { result.has_room ≡ false }
    {
        ConnectionTable {
            tracker: T::new(alloc, idle),
            mappings: Mappings::new(alloc),
        }
    }

    /// The same, but its hash tables use `hasher`, whose keys must be unknown to the senders of
    /// packets; no result depends on them.
    pub fn with_hasher(alloc: Global, hasher: RandomState, idle: Limits) -> Self
        ensures held { result.held ≡ [] }
        ensures limits { result.limits ≡ idle }
        ensures room { result.has_room ≡ false }
    {
        ConnectionTable {
            tracker: T::with_hasher(alloc, hasher, idle),
            mappings: Mappings::with_hasher(alloc, hasher),
        }
    }

    /// Reserves memory for the next connection and its mappings. If it is reserved already nothing
    /// changes.
    ///
    /// # Errors
    ///
    /// Where memory ran out; the entries and mappings stay.
    pub fn reserve(&mut self) -> Result<(), Memory>
        ensures held { self.new.held ≡ self.old.held }
        ensures limits { self.new.limits ≡ self.old.limits }
        ensures room { OnOk result (IsTrue self.new.has_room) }
        ensures kept { IsTrue self.old.has_room → IsTrue self.new.has_room }
        ensures spared { IsTrue self.old.has_room → (self.new ≡ self.old) × IsOk result }
    {
        self.tracker.reserve_one()?;
        self.mappings.reserve_one()
    }

    /// Removes all entries that have expired at a moment, and releases their mappings.
    pub fn age_all(&mut self, now: Moment, steps: &mut Steps)
        requires later { IsNoneLater now self.old.held }
        ensures held { self.new.held ≡ live_at self.old.limits now self.old.held }
        ensures limits { self.new.limits ≡ self.old.limits }
        ensures alive { live_at self.new.limits now self.new.held ≡ self.new.held }
        ensures distinct { IsTrue (has_distinct_ids self.new.held) }
        ensures room { IsTrue self.old.has_room → IsTrue self.new.has_room }
        ensures steps { IsWithin (option_map
            (ageing_slots (length self.old.held - length self.new.held)) T.max_slots)
            steps.old steps.new }
    {
        // The remaining entries had no later packet either.
        none_later();
        while let Some(aged) = self.tracker.age(now, steps) {
            release(&mut self.mappings, &aged);
        }
    }

    /// Looks up a packet with this tuple and these flags; expired entries must have been removed. A
    /// SYN on a closing connection removes that entry and releases its mappings, whatever the rules
    /// decide about the packet.
    pub fn look_up(
        &mut self,
        tuple: Tuple,
        flags: Flags,
        now: Moment,
        steps: &mut Steps,
    ) -> Belonging
        requires live { live_at self.old.limits now self.old.held ≡ self.old.held }
        requires later { IsNoneLater now self.old.held }
        ensures belonging { result ≡ belongs_in self.old.held tuple flags }
        ensures held { self.new.held
            ≡ after_end (belongs_in self.old.held tuple flags) self.old.held }
        ensures limits { self.new.limits ≡ self.old.limits }
        ensures later { IsNoneLater now self.new.held }
        ensures room { IsTrue self.old.has_room → IsTrue self.new.has_room }
        // The packet can be confirmed.
        ensures confirmable { IsConfirmable tuple result self.new.held }
        ensures fits { Fits (ct_info_by tuple result) (mappings_in self.new.held) }
        ensures steps { IsWithin (option_map (look_up_slots result) T.max_slots)
            steps.old steps.new }
    {
        // The entry found is in the list, or the tuple is free.
        looked_up();
        // The remaining entries had no later packet either.
        none_later();
        let belonging = self.tracker.look(tuple, flags, now, steps);
        if let Belonging::Ends(id) = belonging {
            let ended = self.tracker.end(id, steps);
            release(&mut self.mappings, &ended);
        }
        // Nothing is translated yet, and the mappings are one to one.
        self.mappings.one_to_one();
        belonging
    }

    /// Looks up the connection that an ICMP error is related to, given the tuple of the quoted
    /// datagram: the one to which packets in the other direction belong. Expired entries must have
    /// been removed. It removes none.
    pub fn look_up_error(&self, inner: Tuple, now: Moment, steps: &mut Steps) -> Belonging
        requires live { live_at self.now.limits now self.now.held ≡ self.now.held }
        ensures belonging { result ≡ belongs_in self.now.held (inverse inner) no_flags }
        ensures steps { IsWithin (option_map (λ most. most.look) T.max_slots)
            steps.old steps.new }
    {
        self.tracker
            .look(inner.inverse(), Flags::none(), now, steps)
    }

    /// The mappings held: those of the entries.
    pub fn mappings(&self) -> &Mappings
        ensures { HoldsSame (mappings_in self.now.held) result.now.held }
    {
        &self.mappings
    }

    /// Updates an entry for one more packet, which sets this mark.
    pub fn touch(
        &mut self,
        id: ConnId,
        direction: Direction,
        flags: Flags,
        mark: u32,
        now: Moment,
        steps: &mut Steps,
    )
        requires is_held { IsTrue (has_id id self.old.held) }
        requires later { IsNoneLater now self.old.held }
        ensures held { self.new.held
            ≡ touched_at id direction flags mark now self.old.held }
        ensures limits { self.new.limits ≡ self.old.limits }
        ensures room { IsTrue self.old.has_room → IsTrue self.new.has_room }
        ensures steps { IsWithin (option_map (λ most. most.touch) T.max_slots)
            steps.old steps.new }
    {
        self.tracker.touch(id, direction, flags, mark, now, steps);
    }

    /// Creates the entry of a new connection with its first packet, which had these flags and sets
    /// this mark. The entry holds the connection's mappings.
    ///
    /// # Errors
    ///
    /// `Full` where the table has the most entries that it may hold, else `Clash` where the reply
    /// tuple is an incoming tuple of another entry. Nothing changes then.
    pub fn begin(
        &mut self,
        new_connection: &NewConnection,
        flags: Flags,
        mark: u32,
        now: Moment,
        steps: &mut Steps,
    ) -> Result<(), BeginError>
        requires room { IsTrue self.old.has_room }
        requires free { is_taken new_connection.now.original self.old.held ≡ false }
        requires later { IsNoneLater now self.old.held }
        requires fits { IsFitting new_connection.now (mappings_in self.old.held) }
        ensures ok { OnOk result ((id : TheId) × (has_id id self.old.held ≡ false)
            × (self.new.held ≡ self.old.held
            ++ begun_with id (begun_as new_connection.now mark now) flags ∷ [])) }
        ensures full { (result ≡ Err BeginError.Full) ↔ (max_connections ≤ length self.old.held) }
        ensures clash { (result ≡ Err BeginError.Clash)
            ↔ ((length self.old.held < max_connections)
            × IsTrue (is_taken (begun_as new_connection.now mark now).reply self.old.held)) }
        ensures err { OnErr result (self.new ≡ self.old) }
        ensures limits { self.new.limits ≡ self.old.limits }
        ensures steps { IsWithin (option_map (λ most. most.begin) T.max_slots)
            steps.old steps.new }
    {
        let connection = Connection {
            original: new_connection.original,
            reply: new_connection.tuple.inverse(),
            mark,
            last: now,
            source: new_connection.source,
            dest: new_connection.dest,
        };
        // The mappings stay one to one with the new ones.
        stays_one_to_one();
        same_answers();
        self.tracker.begin(connection, flags, steps)?;
        hold(&mut self.mappings, new_connection.source);
        hold(&mut self.mappings, new_connection.dest);
        Ok(())
    }

    /// How many entries the table holds.
    pub fn live(&self) -> usize
        ensures { result ≡ length self.now.held }
    {
        self.tracker.live()
    }

    /// All entries in the order of their creation.
    ///
    /// # Errors
    ///
    /// Where memory ran out.
    pub fn list(&self, alloc: Global) -> Result<Vec<Connection>, Memory>
        ensures { IfOk result (λ all. all.items ≡ map connection_of self.now.held) }
    {
        self.tracker.list(alloc)
    }
}

/// Adds a holder of a mapping, if there is one, for which memory is reserved.
#[inline(always)]
fn hold(mappings: &mut Mappings, mapping: Option<Mapped>)
    requires one_to_one { IsOneToOne (listed mapping ++ mappings.old.held) }
    requires few { (m : Mapping) → holders_of m mappings.old.held ≤ 2097152 }
    requires room { 0 < mappings.old.room }
    ensures held { HoldsSame (listed mapping ++ mappings.old.held) mappings.new.held }
    ensures room { mappings.old.room ≤ mappings.new.room + 1 }
{
    if let Some(mapping) = mapping {
        mappings.hold_reserved(mapping);
    }
}

/// Releases the mappings of a removed entry.
fn release(mappings: &mut Mappings, aged: &Aged)
    requires held { (rest : List Mapping)
        × HoldsSame (listed aged.now.source ++ (listed aged.now.dest ++ rest)) mappings.old.held }
    ensures held { (rest : List Mapping)
        → HoldsSame (listed aged.now.source ++ (listed aged.now.dest ++ rest)) mappings.old.held
        → HoldsSame rest mappings.new.held }
    ensures room { mappings.old.room ≤ mappings.new.room }
{
    release_one(mappings, aged.source);
    release_one(mappings, aged.dest);
}

/// Removes a holder of a mapping, if there is one.
fn release_one(mappings: &mut Mappings, mapping: Option<Mapped>)
    requires held { (rest : List Mapping) × HoldsSame (listed mapping ++ rest) mappings.old.held }
    ensures held { (rest : List Mapping) → HoldsSame (listed mapping ++ rest) mappings.old.held
        → HoldsSame rest mappings.new.held }
    ensures room { mappings.old.room ≤ mappings.new.room }
{
    // The released mapping is held.
    same_answers();
    if let Some(mapping) = mapping {
        mappings.release(mapping);
    }
}
