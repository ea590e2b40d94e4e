//! Conntrack entries.
ghost use Rattle.std.specs.Prelude.{◌≡◌, true};
ghost use Rattle.conntrack.specs.Phases.{flags_of, is_closing, is_lone_syn, no_flags, phase_by, phase_of, seen_more};
ghost use Rattle.conntrack.specs.ConntrackEntry.{connection_of, is_live, limit_of};
ghost use Rattle.conntrack.specs.TableEntries.{aged_of, begun_with, touched};

use crate::limits::limit_by;
use box_file::Limits;
use ip_headers::{Direction, Mapping, Tuple};

/// Nanoseconds since 1970-01-01 00:00 UTC.
pub type Moment = u64;

/// The control bits of TCP that decide the phase of a connection (RFC 9293, section 3.1).
#[derive(Clone, Copy)]
pub struct Flags {
    /// The segment carries the sender's initial sequence number.
    pub syn: bool,
    /// The acknowledgment number is valid.
    pub ack: bool,
    /// The sender has no more data.
    pub fin: bool,
    /// The sender resets the connection.
    pub rst: bool,
}

/// The phase of a TCP connection, by the flags seen (own, after RFC 9293, sections 3.5 and 3.6). It
/// decides the timeout and isn't `ct state`.
#[derive(Clone, Copy, PartialEq, Eq)]
pub enum Phase {
    /// Not both ends have sent SYN and ACK.
    Opening,
    /// Both ends have sent SYN and ACK.
    Established,
    /// Both ends have sent FIN, or one has sent RST.
    Closing,
}

/// Identifies an entry of a table. After the entry's removal another one may get its id.
#[derive(Clone, Copy, PartialEq, Eq)]
pub struct ConnId(pub usize);

/// A conntrack entry.
#[derive(Clone, Copy)]
pub struct ConntrackEntry {
    /// Its id.
    pub id: ConnId,
    /// The tuple of its incoming packets in direction original.
    pub original: Tuple,
    /// The tuple of incoming packets in direction reply.
    pub reply: Tuple,
    /// Its mark (`ct mark`).
    pub mark: u32,
    /// The moment of its last packet.
    pub last: Moment,
    /// The TCP flags seen in direction original.
    pub from_original: Flags,
    /// The TCP flags seen in direction reply.
    pub from_reply: Flags,
    /// Whether a reply has been seen.
    pub replied: bool,
    /// The mapping of its source (SNAT), if it has one.
    pub source: Option<Mapping>,
    /// The mapping of its destination (DNAT), if it has one.
    pub dest: Option<Mapping>,
}

/// A connection as it is created, and as it is listed.
#[derive(Clone, Copy, PartialEq, Eq)]
pub struct Connection {
    /// The tuple of its incoming packets in direction original.
    pub original: Tuple,
    /// The tuple of incoming packets in direction reply.
    pub reply: Tuple,
    /// Its mark (`ct mark`).
    pub mark: u32,
    /// The moment of its last packet.
    pub last: Moment,
    /// The mapping of its source (SNAT), if it has one.
    pub source: Option<Mapping>,
    /// The mapping of its destination (DNAT), if it has one.
    pub dest: Option<Mapping>,
}

/// What is handed over of a removed entry.
#[derive(Clone, Copy)]
pub struct Aged {
    /// The id that it had.
    pub id: ConnId,
    /// The mapping of its source (SNAT), if it has one.
    pub source: Option<Mapping>,
    /// The mapping of its destination (DNAT), if it has one.
    pub dest: Option<Mapping>,
}

impl Flags {
    /// The flags of a packet that isn't TCP.
    pub fn none() -> Self
        ensures { result ≡ no_flags }
    {
        Flags {
            syn: false,
            ack: false,
            fin: false,
            rst: false,
        }
    }

    /// The flags in the flag byte of a TCP header, FIN the least significant bit.
    pub fn of_byte(bits: u8) -> Self
        ensures { result ≡ flags_of bits }
    {
        Flags {
            syn: bits / 2 % 2 == 1,
            ack: bits / 16 % 2 == 1,
            fin: bits % 2 == 1,
            rst: bits / 4 % 2 == 1,
        }
    }

    /// These flags and more.
    pub fn and(self, more: Flags) -> Self
        ensures { result ≡ seen_more true more self }
    {
        // With `|`, which tests nothing, the four are one word.
        Flags {
            syn: more.syn | self.syn,
            ack: more.ack | self.ack,
            fin: more.fin | self.fin,
            rst: more.rst | self.rst,
        }
    }

    /// Whether these are the flags of the first segment of a handshake: SYN without ACK, FIN and
    /// RST.
    pub fn is_lone_syn(self) -> bool
        ensures { result ≡ is_lone_syn self }
    {
        self.syn && !self.ack && !self.fin && !self.rst
    }
}

impl Phase {
    /// The phase by the flags seen in each direction.
    pub fn of(original: Flags, reply: Flags) -> Self
        ensures { result ≡ phase_by original reply }
    {
        if original.fin && reply.fin || original.rst || reply.rst {
            Phase::Closing
        } else if original.syn && original.ack && reply.syn && reply.ack {
            Phase::Established
        } else {
            Phase::Opening
        }
    }
}

impl Connection {
    /// Its entry with this id, after its first packet, which had these flags.
    #[inline(always)]
    pub fn begun(self, id: ConnId, flags: Flags) -> ConntrackEntry
        ensures { result ≡ begun_with id self flags }
    {
        ConntrackEntry {
            id,
            original: self.original,
            reply: self.reply,
            mark: self.mark,
            last: self.last,
            from_original: flags,
            from_reply: Flags::none(),
            replied: false,
            source: self.source,
            dest: self.dest,
        }
    }
}

impl ConntrackEntry {
    /// Its phase, if it is a TCP connection.
    pub fn phase(&self) -> Phase
        ensures { result ≡ phase_of self.now }
    {
        Phase::of(self.from_original, self.from_reply)
    }

    /// Its timeout in nanoseconds.
    pub fn limit(&self, limits: Limits) -> u64
        ensures { result ≡ limit_of limits self.now }
    {
        limit_by(limits, self.original.kind, self.phase())
    }

    /// Whether it is live at a moment: less than its timeout has passed since its last packet.
    pub fn is_live(&self, limits: Limits, now: Moment) -> bool
        ensures { result ≡ is_live limits now self.now }
    {
        now.saturating_sub(self.last) < self.limit(limits)
    }

    /// Whether both ends have sent FIN, or one has sent RST.
    pub fn is_closing(&self) -> bool
        ensures { result ≡ is_closing self.now }
    {
        self.phase() == Phase::Closing
    }

    /// Updates it for one more packet, which sets this mark.
    pub fn touch(&mut self, direction: Direction, flags: Flags, mark: u32, now: Moment)
        ensures { self.new ≡ touched direction flags mark now self.old }
    {
        match direction {
            Direction::Original => self.from_original = self.from_original.and(flags),
            Direction::Reply => {
                self.from_reply = self.from_reply.and(flags);
                self.replied = true;
            }
        }
        self.mark = mark;
        self.last = now;
    }

    /// Its connection, as it is listed.
    pub fn connection(&self) -> Connection
        ensures { result ≡ connection_of self.now }
    {
        Connection {
            original: self.original,
            reply: self.reply,
            mark: self.mark,
            last: self.last,
            source: self.source,
            dest: self.dest,
        }
    }

    /// What is handed over when it is removed.
    pub fn aged(&self) -> Aged
        ensures { result ≡ aged_of self.now }
    {
        Aged {
            id: self.id,
            source: self.source,
            dest: self.dest,
        }
    }
}
