//! The interface of conntrack tables.
ghost use Rattle.std.specs.Prelude.{◌≡◌, ◌+◌, ◌<◌, ◌≤◌, ◌↔◌, ℕ, Bool, IsTrue, List, [], ◌++◌, ◌∷◌, Option, length};
ghost use Rattle.std.specs.Prelude.{map, false, Some, IfOk, IsOk, OnOk, OnErr, IfSome, IfNone, option_map};
ghost use Rattle.conntrack.specs.ConntrackEntry.{belongs_in};
ghost use Rattle.conntrack.specs.TableEntries.{IsNoneLater, IsWithin, have_disjoint_tuples, begun_with};
ghost use Rattle.conntrack.specs.ConntrackEntry.{connection_of, is_taken};
ghost use Rattle.conntrack.specs.TableEntries.{has_distinct_ids, has_id, live_at};
ghost use Rattle.conntrack.specs.ConntrackEntry.{max_connections};
ghost use Rattle.conntrack.specs.TableEntries.{belonging_without_id, removed_entry, touched_at};
ghost use Rattle.conntrack.specs.ConntrackEntry.{without};
ghost use Rattle.conntrack.specs.Histories.{TrackedPacket, RepresentsAt, belongs};

use crate::belonging::Belonging;
use crate::connection::{Aged, ConnId, Connection, Flags, Moment};
use box_file::Limits;
use ip_headers::{Direction, Tuple};
use std::alloc::{AllocError as Memory, Global};
use std::hash::RandomState;
use step_count::{Steps, start};
use thiserror::Error;

/// The most entries that a table holds.
pub const MAX_CONNECTIONS: usize = 1_048_576;

/// Why a connection isn't created.
#[derive(Clone, Copy, Debug, PartialEq, Eq, Error)]
pub enum BeginError {
    /// The table has the most entries that it may hold.
    #[error("C1")]
    Full,
    /// Its reply tuple is an incoming tuple of another entry.
    #[error("C2")]
    Clash,
}

/// A conntrack table. Moments must not fall from call to call. In `steps` a table counts the slots
/// that it visits: a call never lowers the count, and raises it by its own bound in `max_slots` at
/// most, but for `list_counted`, which visits all. A tracker is given a count and can't make one, nor
/// read it. The clauses `distinct` and `apart` are lemmas about the receiver, not about the result.
pub trait Tracker: Drop {
    ghost use Rattle.conntrack.specs.declared.connection.ConntrackEntry.{ConntrackEntry};
    ghost use Rattle.box_file.specs.declared.limits.Limits.{Limits};
    ghost use Rattle.conntrack.specs.TableEntries.{SlotBounds};

    /// Its entries in the order of their creation, with expired ones that weren't removed yet.
    ghost held: { Self → List ConntrackEntry };

    /// The timeouts of its connections.
    ghost limits: { Self → Limits };

    /// Whether memory for the next `begin` is reserved.
    ghost has_room: { Self → Bool };

    /// How many visited slots each call may count, if that is bounded.
    ghost max_slots: { Option SlotBounds };

    /// An empty table with these timeouts, with no memory reserved for an entry. A table that
    /// hashes tuples uses keys that everybody may know: senders who choose their tuples can make it
    /// slow, which `with_hasher` prevents.
    fn new(alloc: Global, idle: Limits) -> Self
    where
        Self: Sized,
        ensures held { held result ≡ [] }
        ensures limits { limits result ≡ idle }
        ensures room { has_room result ≡ false };

    /// The same, but a table that hashes tuples uses `hasher`, whose keys must be unknown to the
    /// senders of packets; no result depends on them.
    fn with_hasher(alloc: Global, hasher: RandomState, idle: Limits) -> Self
    where
        Self: Sized,
        ensures held { held result ≡ [] }
        ensures limits { limits result ≡ idle }
        ensures room { has_room result ≡ false };

    /// Looks up a packet with this tuple and these flags among the entries that are live at a
    /// moment. `distinct` and `apart` are lemmas about the table.
    fn look(&self, tuple: Tuple, flags: Flags, now: Moment, steps: &mut Steps) -> Belonging
        ensures belonging { result
            ≡ belongs_in (live_at (limits self.now) now (held self.now)) tuple flags }
        ensures history { (history : List TrackedPacket)
            → RepresentsAt (limits self.now) (held self.now) history now
            → belonging_without_id result
            ≡ belonging_without_id (belongs (limits self.now) history now tuple flags) }
        ensures distinct { IsTrue (has_distinct_ids (held self.now)) }
        ensures apart { IsTrue (have_disjoint_tuples (held self.now)) }
        ensures steps { IsWithin (option_map (λ most. most.look) max_slots) steps.old steps.new };

    /// Updates the entry with this id for one more packet, which sets this mark.
    fn touch(
        &mut self,
        id: ConnId,
        direction: Direction,
        flags: Flags,
        mark: u32,
        now: Moment,
        steps: &mut Steps,
    )
        requires is_held { IsTrue (has_id id (held self.old)) }
        requires later { IsNoneLater now (held self.old) }
        ensures held { held self.new ≡ touched_at id direction flags mark now (held self.old) }
        ensures limits { limits self.new ≡ limits self.old }
        ensures room { IsTrue (has_room self.old) → IsTrue (has_room self.new) }
        ensures steps { IsWithin (option_map (λ most. most.touch) max_slots) steps.old steps.new };

    /// Reserves memory for the next `begin` that returns `Ok`. If it is reserved already nothing
    /// changes.
    ///
    /// # Errors
    ///
    /// `Memory` where an allocation failed; the entries stay.
    fn reserve_one(&mut self) -> Result<(), Memory>
        ensures held { held self.new ≡ held self.old }
        ensures limits { limits self.new ≡ limits self.old }
        ensures room { OnOk result (IsTrue (has_room self.new)) }
        ensures kept { IsTrue (has_room self.old) → IsTrue (has_room self.new) }
        ensures spared { IsTrue (has_room self.old) → (self.new ≡ self.old) × IsOk result };

    /// Creates an entry for a connection with its first packet, which had these flags.
    ///
    /// # Errors
    ///
    /// `Full` where the table has the most entries that it may hold, else `Clash` where the reply
    /// tuple is an incoming tuple of another entry. Nothing changes then.
    fn begin(
        &mut self,
        connection: Connection,
        flags: Flags,
        steps: &mut Steps,
    ) -> Result<ConnId, BeginError>
        requires room { IsTrue (has_room self.old) }
        requires free { is_taken connection.original (held self.old) ≡ false }
        requires later { IsNoneLater connection.last (held self.old) }
        ensures ok { IfOk result (λ id.
            held self.new ≡ held self.old ++ begun_with id connection flags ∷ []) }
        ensures fresh { IfOk result (λ id. has_id id (held self.old) ≡ false) }
        ensures full { (result ≡ Err BeginError.Full) ↔ (max_connections ≤ length (held self.old)) }
        ensures clash { (result ≡ Err BeginError.Clash)
            ↔ ((length (held self.old) < max_connections)
            × IsTrue (is_taken connection.reply (held self.old))) }
        ensures err { OnErr result ((held self.new ≡ held self.old) × IsTrue (has_room self.new)) }
        ensures limits { limits self.new ≡ limits self.old }
        ensures steps { IsWithin (option_map (λ most. most.begin) max_slots) steps.old steps.new };

    /// Removes the entry with this id.
    fn end(&mut self, id: ConnId, steps: &mut Steps) -> Aged
        requires { IsTrue (has_id id (held self.old)) }
        ensures aged { removed_entry id (held self.old) ≡ Some result }
        ensures held { held self.new ≡ without id (held self.old) }
        ensures limits { limits self.new ≡ limits self.old }
        ensures room { IsTrue (has_room self.old) → IsTrue (has_room self.new) }
        ensures steps { IsWithin (option_map (λ most. most.end) max_slots) steps.old steps.new };

    /// Removes one entry that has expired at a moment; `None` where all are live. `distinct` is a
    /// lemma about the table before the call.
    fn age(&mut self, now: Moment, steps: &mut Steps) -> Option<Aged>
        requires { IsNoneLater now (held self.old) }
        ensures some { IfSome result (λ aged.
            (removed_entry aged.id (held self.old) ≡ Some aged)
            × (held self.new ≡ without aged.id (held self.old))
            × (live_at (limits self.old) now (held self.new)
            ≡ live_at (limits self.old) now (held self.old))) }
        ensures distinct { IsTrue (has_distinct_ids (held self.old)) }
        ensures fewer { IfSome result (λ aged. length (held self.new) < length (held self.old)) }
        ensures none { IfNone result ((held self.new ≡ held self.old)
            × (live_at (limits self.old) now (held self.old) ≡ held self.old)) }
        ensures limits { limits self.new ≡ limits self.old }
        ensures room { IsTrue (has_room self.old) → IsTrue (has_room self.new) }
        ensures steps { IsWithin (option_map (λ most. most.age) max_slots) steps.old steps.new };

    /// How many entries the table holds, expired ones included.
    fn live(&self) -> usize
        ensures { result ≡ length (held self.now) };

    /// All entries in the order of their creation.
    ///
    /// # Errors
    ///
    /// `Memory` where an allocation failed.
    fn list_counted(&self, alloc: Global, steps: &mut Steps) -> Result<Vec<Connection>, Memory>
        ensures list { IfOk result (λ all. all.items ≡ map connection_of (held self.now)) }
        ensures steps { steps.old ≤ steps.new };

    /// All entries in the order of their creation. The slots are counted in a count of its own.
    ///
    /// # Errors
    ///
    /// `Memory` where an allocation failed.
    fn list(&self, alloc: Global) -> Result<Vec<Connection>, Memory>
        ensures { IfOk result (λ all. all.items ≡ map connection_of (held self.now)) }
    {
        let mut steps = start();
        self.list_counted(alloc, &mut steps)
    }
}
