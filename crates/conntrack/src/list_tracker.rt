//! A tracker that keeps its entries in a list.
ghost use Rattle.std.specs.Prelude.{◌≡◌, ◌+◌, ◌<◌, ◌≤◌, ◌^◌, ◌&&◌, ◌||◌, Option, None, Some};
ghost use Rattle.std.specs.Prelude.{IsTrue, ◌-◌, nat_lt, vec_len, vec_capacity};
ghost use Rattle.std.specs.Prelude.{if◌then◌else◌};
ghost use Rattle.std.specs.List.{find};
ghost use Rattle.conntrack.specs.steps.Entries.{has_ids_below, has_tuple, is_sought};
ghost use Rattle.conntrack.specs.ConntrackEntry.{belongs_in};
ghost use Rattle.conntrack.specs.TableEntries.{have_disjoint_tuples, has_distinct_ids};
ghost use Rattle.conntrack.specs.ConntrackEntry.{is_live, is_taken};
ghost use Rattle.conntrack.specs.TableEntries.{live_at};
ghost use Rattle.conntrack.specs.ConntrackEntry.{same_id, without};
ghost use Rattle.conntrack.specs.TableEntries.{touched, touched_at};

use crate::belonging::{Belonging, ConnectionRef};
use crate::connection::{Aged, ConnId, Connection, ConntrackEntry, Flags, Moment};
use crate::tracker::{BeginError, MAX_CONNECTIONS, Tracker};
use box_file::Limits;
use ip_headers::{Direction, Tuple};
use std::alloc::{AllocError as Memory, Global};
use std::hash::RandomState;
use step_count::Steps;

/// Keeps entries in a list, in the order of their creation.
#[derive(Drop)]
pub struct ListTracker {
    conns: Vec<ConntrackEntry>,
    limits: Limits,
    // The id of the next entry: 64 bits last longer than any run.
    next_id: usize,
    ghost below: { IsTrue (has_ids_below next_id conns.items) },
    ghost distinct: { IsTrue (has_distinct_ids conns.items) },
    ghost apart: { IsTrue (have_disjoint_tuples conns.items) },
}

/// Whether it is the tuple of an entry's incoming packets in a direction.
fn has_tuple(held: &ConntrackEntry, direction: Direction, tuple: Tuple) -> bool
    ensures { result ≡ has_tuple tuple direction held.now }
{
    match direction {
        Direction::Original => held.original == tuple,
        Direction::Reply => held.reply == tuple,
    }
}

/// What an entry is sought by.
#[derive(Clone, Copy)]
enum Sought {
    /// The tuple of its incoming packets in a direction, while it is live.
    Live(Direction, Tuple, Limits, Moment),
    /// That it has expired.
    Expired(Limits, Moment),
    Id(ConnId),
    /// An incoming tuple.
    Incoming(Tuple),
}

impl Sought {
    /// Whether it is such an entry.
    fn is_met_by(self, held: &ConntrackEntry) -> bool
        ensures { result ≡ is_sought self held.now }
    {
        match self {
            Sought::Live(direction, tuple, limits, now) => {
                held.is_live(limits, now) && has_tuple(held, direction, tuple)
            }
            Sought::Expired(limits, now) => !held.is_live(limits, now),
            Sought::Id(id) => held.id == id,
            Sought::Incoming(tuple) => held.original == tuple || held.reply == tuple,
        }
    }
}

/// The first such entry.
fn find(conns: &[ConntrackEntry], sought: Sought) -> Option<ConntrackEntry>
    ensures { result ≡ find (is_sought sought) conns.now }
{
    conns.iter().find(|held| sought.is_met_by(held)).copied()
}

/// Looks up a packet among the live entries.
#[tactic(auto, using(crate::proofs::Lists::find_filter_rules))]
fn look_in(
    conns: &[ConntrackEntry],
    limits: Limits,
    tuple: Tuple,
    flags: Flags,
    now: Moment,
) -> Belonging
    ensures { result ≡ belongs_in (live_at limits now conns.now) tuple flags }
{
    match find(conns, Sought::Live(Direction::Original, tuple, limits, now)) {
        Some(held) => {
            if flags.is_lone_syn() && held.is_closing() {
                Belonging::Ends(held.id)
            } else {
                Belonging::Found(ConnectionRef::of(&held, Direction::Original))
            }
        }
        None => match find(conns, Sought::Live(Direction::Reply, tuple, limits, now)) {
            Some(held) => Belonging::Found(ConnectionRef::of(&held, Direction::Reply)),
            None => Belonging::NotFound,
        },
    }
}

/// Whether a tuple is an incoming tuple of an entry.
fn is_taken(conns: &[ConntrackEntry], tuple: Tuple) -> bool
    ensures { result ≡ is_taken tuple conns.now }
{
    find(conns, Sought::Incoming(tuple)).is_some()
}

/// Updates the entry for one more packet, if it has this id.
fn touch_if(
    held: &mut ConntrackEntry,
    id: ConnId,
    direction: Direction,
    flags: Flags,
    mark: u32,
    now: Moment,
)
    ensures { held.new ≡ (if same_id id held.old then touched direction flags mark now held.old
        else held.old) }
{
    if held.id == id {
        held.touch(direction, flags, mark, now);
    }
}

/// Updates the entry with this id for one more packet.
fn touch_in(
    conns: &mut Vec<ConntrackEntry>,
    id: ConnId,
    direction: Direction,
    flags: Flags,
    mark: u32,
    now: Moment,
)
    ensures items { conns.new.items ≡ touched_at id direction flags mark now conns.old.items }
    ensures len { vec_len conns.new ≡ vec_len conns.old }
    ensures capacity { vec_capacity conns.new ≡ vec_capacity conns.old }
{
    for held in conns.iter_mut() {
        touch_if(held, id, direction, flags, mark, now);
    }
}

/// Removes the entry with this id.
fn take_out(conns: &mut Vec<ConntrackEntry>, id: ConnId) -> Option<ConntrackEntry>
    ensures found { result ≡ find (same_id id) conns.old.items }
    ensures items { conns.new.items ≡ without id conns.old.items }
    ensures capacity { vec_capacity conns.new ≡ vec_capacity conns.old }
    ensures len { vec_len conns.new ≤ vec_len conns.old }
{
    let found = find(conns, Sought::Id(id));
    conns.retain(|held| held.id != id);
    found
}

impl Tracker for ListTracker {
    ghost held = { λ t. t.conns.items };

    ghost limits = { λ t. t.limits };

    ghost has_room = { λ t. nat_lt (vec_len t.conns) (vec_capacity t.conns)
        && nat_lt t.next_id (2 ^ 64 - 1) };

    ghost max_slots = { None };

    fn new(alloc: Global, idle: Limits) -> Self {
        ListTracker {
            conns: Vec::new(alloc),
            limits: idle,
            next_id: 0,
        }
    }

    // A list hashes nothing.
    fn with_hasher(alloc: Global, _hasher: RandomState, idle: Limits) -> Self {
        Self::new(alloc, idle)
    }

    #[tactic(auto, using(crate::proofs::Lookups::same_belonging))]
    fn look(&self, tuple: Tuple, flags: Flags, now: Moment, steps: &mut Steps) -> Belonging {
        steps.add(self.conns.len());
        look_in(&self.conns, self.limits, tuple, flags, now)
    }

    #[tactic(auto, using(crate::proofs::Ids::touch_rules))]
    fn touch(
        &mut self,
        id: ConnId,
        direction: Direction,
        flags: Flags,
        mark: u32,
        now: Moment,
        steps: &mut Steps,
    ) {
        steps.add(self.conns.len());
        touch_in(&mut self.conns, id, direction, flags, mark, now);
    }

    fn reserve_one(&mut self) -> Result<(), Memory> {
        if self.next_id == usize::MAX {
            return Err(Memory);
        }
        if self.conns.len() < self.conns.capacity() {
            return Ok(());
        }
        self.conns.reserve(1)
    }

    fn begin(
        &mut self,
        connection: Connection,
        flags: Flags,
        steps: &mut Steps,
    ) -> Result<ConnId, BeginError> {
        steps.add(self.conns.len());
        if self.conns.len() >= MAX_CONNECTIONS {
            return Err(BeginError::Full);
        }
        if is_taken(&self.conns, connection.reply) {
            return Err(BeginError::Clash);
        }
        let id = ConnId(self.next_id);
        self.next_id += 1;
        match self.conns.push(connection.begun(id, flags)) {
            Ok(()) => Ok(id),
            Err(_) => unreachable!(),
        }
    }

    fn end(&mut self, id: ConnId, steps: &mut Steps) -> Aged {
        steps.add(self.conns.len());
        match take_out(&mut self.conns, id) {
            Some(held) => held.aged(),
            None => unreachable!(),
        }
    }

    fn age(&mut self, now: Moment, steps: &mut Steps) -> Option<Aged> {
        steps.add(self.conns.len());
        let expired = find(&self.conns, Sought::Expired(self.limits, now))?;
        take_out(&mut self.conns, expired.id);
        Some(expired.aged())
    }

    fn live(&self) -> usize {
        self.conns.len()
    }

    fn list_counted(&self, alloc: Global, steps: &mut Steps) -> Result<Vec<Connection>, Memory> {
        steps.add(self.conns.len());
        self.conns
            .iter()
            .map(|held| held.connection())
            .collect(alloc)
    }
}
