//! A slot of a table, with its links.
ghost use Rattle.std.specs.Prelude.{◌≡◌, ◌+◌, ◌<◌, ℕ, None, IfSome, IfNone};
ghost use Rattle.conntrack.specs.Phases.{is_closing, phase_by};
ghost use Rattle.conntrack.specs.ConntrackEntry.{connection_ref, is_live};
ghost use Rattle.aged_tracker.specs.declared.slot.ColdSlot.{ColdSlot as Cold};
ghost use Rattle.aged_tracker.specs.declared.slot.Link.{Link as Linked};
ghost use Rattle.aged_tracker.specs.steps.SlotLists.{reply_of, unlinked, unused, whole_slot};
ghost use Rattle.aged_tracker.specs.steps.Table.{MAX_KEYS, belonging_in, direction_in, held_of, idle_at, number, queue_by, queue_in, touched_slot, with_neighbour};

use crate::packed::PackedTuple;
use box_file::{IdleKind, Limits};
use conntrack::{
    Belonging, ConnId, ConnectionRef, ConntrackEntry, Direction, Flags, Moment, Phase, idle_kind,
    limit_by,
};
use ip_headers::{Kind, Tuple};
use std::mem::size_of;

/// How many queues there are: one for each timeout.
pub const LISTS: usize = 5;

/// The timeout of a queue.
pub fn idle_at(queue: usize) -> IdleKind
    ensures { result ≡ idle_at queue }
{
    match queue {
        0 => IdleKind::Udp,
        1 => IdleKind::Established,
        2 => IdleKind::Transitory,
        3 => IdleKind::Echo,
        _ => IdleKind::Other,
    }
}

/// The queue of a kind and phase.
pub fn queue_by(kind: Kind, phase: Phase) -> usize
    ensures queue { result ≡ queue_by kind phase }
    ensures range { result < 5 }
{
    match idle_kind(kind, phase) {
        IdleKind::Udp => 0,
        IdleKind::Established => 1,
        IdleKind::Transitory => 2,
        IdleKind::Echo => 3,
        IdleKind::Other => 4,
    }
}

/// How many keys slots may have, so that node indexes fit in 32 bits.
pub const MAX_KEYS: usize = 4_294_967_291;

/// The index of a node: first the heads of the lists are numbered, then the slots by their keys. It
/// has 32 bits, as each slot has four of them.
#[derive(Clone, Copy)]
pub struct NodeIndex(u32);

impl NodeIndex {
    /// The head of a list.
    pub fn head(list: usize) -> Self
        requires { list < 5 }
        ensures { number result ≡ list }
    {
        NodeIndex(list as u32)
    }

    /// The slot with a key.
    pub fn slot(key: usize) -> Self
        requires { key < MAX_KEYS }
        ensures { number result ≡ 5 + key }
    {
        NodeIndex((LISTS + key) as u32)
    }

    /// The index as a number.
    pub fn number(self) -> usize
        ensures { result ≡ number self }
    {
        self.0 as usize
    }

    /// The key of the slot, unless the node is a head.
    pub fn key(self) -> Option<usize>
        ensures slot { IfSome result (λ key. number self ≡ 5 + key) }
        ensures head { IfNone result (number self < 5) }
    {
        self.number().checked_sub(LISTS)
    }
}

/// A neighbour of a node in its list.
#[derive(Clone, Copy)]
pub enum Neighbour {
    Previous,
    Next,
}

/// The neighbours of a node in its list.
#[derive(Clone, Copy)]
pub struct Link {
    /// The previous node.
    pub prev: NodeIndex,
    /// The next node.
    pub next: NodeIndex,
}

impl Link {
    /// The links of a head whose list is empty.
    pub fn alone(list: usize) -> Self
        requires { list < 5 }
        ensures prev { number result.prev ≡ list }
        ensures next { number result.next ≡ list }
        ensures first { list ≡ 0 → result ≡ unlinked }
    {
        let head = NodeIndex::head(list);
        Link {
            prev: head,
            next: head,
        }
    }

    /// Sets one of them.
    #[inline(always)]
    pub fn set(&mut self, neighbour: Neighbour, to: NodeIndex)
        ensures { self.new ≡ with_neighbour neighbour to self.old }
    {
        match neighbour {
            Neighbour::Previous => self.prev = to,
            Neighbour::Next => self.next = to,
        }
    }
}

/// A slot's membership in a queue.
#[derive(Clone, Copy)]
pub struct ListLinks {
    /// The list that it is in, if it is in one.
    pub list: Option<u8>,
    /// Its neighbours there.
    pub link: Link,
}

/// An entry with its links in its queue. The entry's id isn't stored: it is the slot's key.
#[derive(Clone, Copy)]
pub struct Slot {
    /// The moment of the entry's last packet.
    last: Moment,
    mark: u32,
    /// Its links in its queue.
    links: ListLinks,
    from_original: Flags,
    from_reply: Flags,
    replied: bool,
    original: PackedTuple,
    reply: PackedTuple,
    source: Option<PackedTuple>,
    dest: Option<PackedTuple>,
    /// How many entries the table had created before.
    pub serial: u64,
}

/// What packets use of a slot, beside links. The fields are in memory in this order. In a slab, which
/// puts 8 bytes before each, a packet of an untranslated connection uses the first 46 of 64 bytes.
#[derive(Clone, Copy)]
pub struct HotSlot {
    /// The moment of the entry's last packet.
    pub last: Moment,
    mark: u32,
    from_original: Flags,
    from_reply: Flags,
    replied: bool,
    /// The list that the slot is in, if it is in one.
    pub list: Option<u8>,
    /// Whether incoming tuples aren't each other's inverse.
    is_translated: bool,
    original: PackedTuple,
    /// Read only if `is_translated`: else it is the inverse of `original`.
    reply: PackedTuple,
}

/// What only the beginning and the end of a connection, and lists of all, use of a slot.
#[derive(Clone, Copy)]
pub struct ColdSlot {
    source: Option<PackedTuple>,
    dest: Option<PackedTuple>,
    serial: u64,
}

const _: () = prove!(size_of::<HotSlot>() == 56);

const _: () = prove!(size_of::<ColdSlot>() == 40);

const _: () = prove!(size_of::<Link>() == 8);

impl Slot {
    /// A slot with an entry, in no list.
    #[inline(always)]
    pub fn new(held: &ConntrackEntry, serial: u64) -> Self
        ensures held { (key : ℕ) → held_of key result
            ≡ record held.now { id = record { 0 = key } } }
        ensures serial { result.serial ≡ serial }
        ensures unlisted { result.links.list ≡ None }
    {
        Slot {
            last: held.last,
            mark: held.mark,
            links: ListLinks {
                list: None,
                link: Link::alone(0),
            },
            from_original: held.from_original,
            from_reply: held.from_reply,
            replied: held.replied,
            original: PackedTuple::of_tuple(held.original),
            reply: PackedTuple::of_tuple(held.reply),
            source: PackedTuple::of_mapping(held.source),
            dest: PackedTuple::of_mapping(held.dest),
            serial,
        }
    }

    /// A slot put together.
    pub fn whole(link: Link, cold: &ColdSlot, hot: &HotSlot) -> Self
        ensures { result ≡ whole_slot link cold.now hot.now }
    {
        Slot {
            last: hot.last,
            mark: hot.mark,
            links: ListLinks {
                list: hot.list,
                link,
            },
            from_original: hot.from_original,
            from_reply: hot.from_reply,
            replied: hot.replied,
            original: hot.original,
            reply: hot.reply(),
            source: cold.source,
            dest: cold.dest,
            serial: cold.serial,
        }
    }

    /// The parts that are stored apart: its links are the third.
    #[inline(always)]
    pub fn parts(&self) -> (HotSlot, ColdSlot, Link)
        ensures { whole_slot result.2 result.1 result.0 ≡ self.now }
    {
        let hot = HotSlot {
            last: self.last,
            mark: self.mark,
            from_original: self.from_original,
            from_reply: self.from_reply,
            replied: self.replied,
            list: self.links.list,
            is_translated: !self.original.inverse().equals(self.reply),
            original: self.original,
            reply: self.reply,
        };
        let cold = ColdSlot {
            source: self.source,
            dest: self.dest,
            serial: self.serial,
        };
        (hot, cold, self.links.link)
    }

    /// The entry in the slot of this key.
    pub fn held(&self, key: usize) -> ConntrackEntry
        ensures { result ≡ held_of key self.now }
    {
        ConntrackEntry {
            id: ConnId(key),
            original: self.original.tuple(),
            reply: self.reply.tuple(),
            mark: self.mark,
            last: self.last,
            from_original: self.from_original,
            from_reply: self.from_reply,
            replied: self.replied,
            source: PackedTuple::mapping(self.source),
            dest: PackedTuple::mapping(self.dest),
        }
    }
}

impl ColdSlot {
    /// What is stored for an unused key.
    pub fn unused() -> Self
        ensures { result ≡ unused }
    {
        ColdSlot {
            source: None,
            dest: None,
            serial: 0,
        }
    }
}

impl HotSlot {
    /// The incoming tuple in direction reply.
    #[inline(always)]
    fn reply(&self) -> PackedTuple
        ensures { result ≡ reply_of self.now }
    {
        if self.is_translated {
            self.reply
        } else {
            self.original.inverse()
        }
    }

    /// Its queue.
    pub fn queue(&self) -> usize
        ensures queue { (link : Linked) (cold : Cold) → result ≡ queue_in (whole_slot link cold self.now) }
        ensures range { result < 5 }
    {
        queue_by(self.original.kind(), self.phase())
    }

    /// The phase of the entry, if it is a TCP connection.
    fn phase(&self) -> Phase
        ensures { result ≡ phase_by self.now.from_original self.now.from_reply }
    {
        Phase::of(self.from_original, self.from_reply)
    }

    /// Whether the entry is live at a moment.
    fn is_live(&self, limits: &Limits, now: Moment) -> bool
        ensures { result ≡ is_live limits.now now (held_of 0 (whole_slot unlinked unused self.now)) }
    {
        now.saturating_sub(self.last) < limit_by(*limits, self.original.kind(), self.phase())
    }

    /// Whether its connection is closing.
    fn is_closing(&self) -> bool
        ensures { result ≡ is_closing (held_of 0 (whole_slot unlinked unused self.now)) }
    {
        self.phase() == Phase::Closing
    }

    /// The reference of a packet with this direction to the entry in the slot of this key.
    fn connection_ref(&self, key: usize, direction: Direction) -> ConnectionRef
        ensures { result
            ≡ connection_ref (held_of key (whole_slot unlinked unused self.now)) direction }
    {
        ConnectionRef {
            id: ConnId(key),
            direction,
            original: self.original.tuple(),
            reply: self.reply().tuple(),
            mark: self.mark,
            replied: self.replied,
        }
    }

    /// The direction of a packet with this tuple, if that is an incoming tuple of the entry.
    #[inline(always)]
    pub fn direction_of(&self, tuple: Tuple) -> Option<Direction>
        ensures { (link : Linked) (cold : Cold)
            → result ≡ direction_in tuple (held_of 0 (whole_slot link cold self.now)) }
    {
        if self.original.is(tuple) {
            return Some(Direction::Original);
        }
        let is_reply = if self.is_translated {
            self.reply.is(tuple)
        } else {
            self.original.is_inverse_of(tuple)
        };
        if is_reply {
            Some(Direction::Reply)
        } else {
            None
        }
    }

    /// The lookup result of a packet with this direction that has the entry in the slot of this key.
    #[inline(always)]
    pub fn belonging(
        &self,
        key: usize,
        limits: &Limits,
        direction: Direction,
        flags: Flags,
        now: Moment,
    ) -> Belonging
        ensures { (link : Linked) (cold : Cold) → result
            ≡ belonging_in limits.now now flags (held_of key (whole_slot link cold self.now)) direction }
    {
        if !self.is_live(limits, now) {
            return Belonging::NotFound;
        }
        match direction {
            Direction::Original if flags.is_lone_syn() && self.is_closing() => {
                Belonging::Ends(ConnId(key))
            }
            _ => Belonging::Found(self.connection_ref(key, direction)),
        }
    }

    /// Updates the entry for one more packet, which sets this mark.
    pub fn touch(&mut self, direction: Direction, flags: Flags, mark: u32, now: Moment)
        ensures { (link : Linked) (cold : Cold) → whole_slot link cold self.new
            ≡ touched_slot direction flags mark now (whole_slot link cold self.old) }
    {
        match direction {
            Direction::Original => self.from_original = self.from_original.and(flags),
            Direction::Reply => {
                self.from_reply = self.from_reply.and(flags);
                self.replied = true;
            }
        }
        self.last = now;
        self.mark = mark;
    }
}
