//! Results of conntrack lookups.
ghost use Rattle.std.specs.Prelude.{◌≡◌};
ghost use Rattle.conntrack.specs.ConntrackEntry.{connection_ref};

use crate::connection::{ConnId, ConntrackEntry};
use ip_headers::{Direction, Tuple};

/// A conntrack entry that a lookup found, as it was before the packet, and the packet's direction.
#[derive(Clone, Copy)]
pub struct ConnectionRef {
    /// The entry's id.
    pub id: ConnId,
    /// The tuple of incoming packets in direction original.
    pub original: Tuple,
    /// The tuple of incoming packets in direction reply.
    pub reply: Tuple,
    /// Its mark (`ct mark`).
    pub mark: u32,
    /// The packet's direction.
    pub direction: Direction,
    /// Whether a reply has been seen.
    pub replied: bool,
}

/// Results of conntrack lookups.
#[derive(Clone, Copy)]
pub enum Belonging {
    /// No live entry has the tuple.
    NotFound,
    /// A SYN on a closing connection: that entry is removed and recreated.
    Ends(ConnId),
    /// The packet belongs to this entry.
    Found(ConnectionRef),
}

impl ConnectionRef {
    /// The reference of a packet with this direction to an entry.
    pub fn of(held: &ConntrackEntry, direction: Direction) -> Self
        ensures { result ≡ connection_ref held.now direction }
    {
        ConnectionRef {
            id: held.id,
            original: held.original,
            reply: held.reply,
            mark: held.mark,
            direction,
            replied: held.replied,
        }
    }
}
