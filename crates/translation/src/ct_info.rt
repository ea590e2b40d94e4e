//! A packet's state in connection tracking, as netfilter's `ctinfo`, and what rules read of it.
ghost use Rattle.std.specs.Prelude.{◌≡◌, if◌then◌else◌};
ghost use Rattle.rule_meaning.specs.declared.facts.CtState.TheVariants as states;
ghost use Rattle.translation.specs.declared.ct_info.CtInfo.TheVariants.{New};
ghost use Rattle.translation.specs.CtInfos.{new_connection_of, with_nat_status, error_ct_info};
ghost use Rattle.translation.specs.CtInfos.{incoming, known_ct_facts, tracked_connection, outgoing, ct_facts_of};
ghost use Rattle.translation.specs.CtInfos.{ct_info_by};

use conntrack::{Belonging, ConnectionRef, Direction};
use ip_headers::{Endpoint, Kind, Mapping, Tuple};
use rule_meaning::{ConnectionFacts, CtFacts, CtState};

/// The connection that a packet in state NEW will begin.
#[derive(Clone, Copy)]
pub struct NewConnection {
    /// The packet's tuple as received.
    pub original: Tuple,
    /// The packet's tuple after the NAT so far.
    pub tuple: Tuple,
    /// The mapping of its source, if it was translated.
    pub source: Option<Mapping>,
    /// Whether a port range was given for that mapping.
    pub has_port_range: bool,
    /// The mapping that gave its destination, if one did.
    pub dest: Option<Mapping>,
}

/// A packet's connection: a live one, without its id.
#[derive(Clone, Copy)]
pub struct TrackedConnection {
    /// The tuple of packets received in direction original.
    pub original: Tuple,
    /// The tuple of packets received in direction reply.
    pub reply: Tuple,
    /// The connection's mark (`ct mark`).
    pub mark: u32,
    pub direction: Direction,
    /// A packet in direction reply was seen before.
    pub replied: bool,
}

/// A packet's state in connection tracking. The look-up sets it, NAT updates it, and it has the
/// tuple with which the packet leaves.
#[derive(Clone, Copy)]
pub enum CtInfo {
    /// The packet belongs to this connection (NEW without a reply so far, else ESTABLISHED).
    Tracked(TrackedConnection),
    /// The packet is an ICMP error about this connection; the direction is the error's.
    Related(TrackedConnection),
    /// The packet begins this connection, if it isn't dropped.
    New(NewConnection),
    /// The packet belongs to no connection and begins none.
    Invalid,
    /// The packet wasn't looked up: a `notrack` statement was evaluated.
    Untracked,
}

impl NewConnection {
    /// For a packet with this tuple, before NAT.
    fn of(tuple: Tuple) -> NewConnection
        ensures { result ≡ new_connection_of tuple }
    {
        NewConnection {
            original: tuple,
            tuple,
            source: None,
            has_port_range: false,
            dest: None,
        }
    }

    /// `connection` with the NAT status of this tuple: an endpoint is translated where it has
    /// changed.
    pub(crate) fn with_nat_status(&self, connection: ConnectionFacts) -> ConnectionFacts
        ensures { result ≡ with_nat_status self.now connection }
    {
        ConnectionFacts {
            source_translated: self.tuple.source != self.original.source,
            destination_translated: self.tuple.destination != self.original.destination,
            ..connection
        }
    }
}

impl CtInfo {
    /// The state after a look-up. An unsolicited echo reply is INVALID.
    pub fn of(tuple: Tuple, belonging: Belonging) -> CtInfo
        ensures { result ≡ ct_info_by tuple belonging }
    {
        match belonging {
            Belonging::Found(found) => CtInfo::Tracked(tracked_connection(&found)),
            Belonging::NotFound | Belonging::Ends(_) => match tuple.kind {
                Kind::EchoReply => CtInfo::Invalid,
                Kind::Tcp | Kind::Udp | Kind::EchoRequest | Kind::Other(_) => {
                    CtInfo::New(NewConnection::of(tuple))
                }
            },
        }
    }

    /// The state of an ICMP error, by the look-up of the inverse of its embedded tuple.
    pub fn of_error(belonging: Belonging) -> CtInfo
        ensures { result ≡ error_ct_info belonging }
    {
        match belonging {
            Belonging::Found(found) => CtInfo::Related(tracked_connection(&found)),
            Belonging::NotFound | Belonging::Ends(_) => CtInfo::Invalid,
        }
    }

    /// What rules read of the packet's connection.
    #[inline(always)]
    pub fn ct(&self) -> CtFacts
        ensures { result ≡ ct_facts_of self.now }
    {
        match self {
            CtInfo::Tracked(connection) => {
                let reply_seen = connection.direction == Direction::Reply || connection.replied;
                known_ct_facts(state_of(reply_seen), reply_seen, connection)
            }
            // An error doesn't count as a reply.
            CtInfo::Related(connection) => {
                known_ct_facts(CtState::Related, connection.replied, connection)
            }
            CtInfo::New(new_connection) => new_ct_facts(new_connection),
            CtInfo::Invalid => CtFacts::Invalid,
            CtInfo::Untracked => CtFacts::Untracked,
        }
    }
}

fn tracked_connection(found: &ConnectionRef) -> TrackedConnection
    ensures { result ≡ tracked_connection found.now }
{
    TrackedConnection {
        original: found.original,
        reply: found.reply,
        mark: found.mark,
        direction: found.direction,
        replied: found.replied,
    }
}

/// The tuple of the packet's direction as received.
pub(crate) fn incoming(connection: &TrackedConnection) -> Tuple
    ensures { result ≡ incoming connection.now }
{
    match connection.direction {
        Direction::Original => connection.original,
        Direction::Reply => connection.reply,
    }
}

/// The tuple of the packet's direction after NAT.
pub(crate) fn outgoing(connection: &TrackedConnection) -> Tuple
    ensures { result ≡ outgoing connection.now }
{
    match connection.direction {
        Direction::Original => connection.reply.inverse(),
        Direction::Reply => connection.original.inverse(),
    }
}

/// The source of the packet's direction after NAT.
#[inline(always)]
pub(crate) fn outgoing_source(connection: &TrackedConnection) -> Endpoint
    ensures { result ≡ (outgoing connection.now).source }
{
    match connection.direction {
        Direction::Original => connection.reply.destination,
        Direction::Reply => connection.original.destination,
    }
}

/// The destination of the packet's direction after NAT.
#[inline(always)]
pub(crate) fn outgoing_destination(connection: &TrackedConnection) -> Endpoint
    ensures { result ≡ (outgoing connection.now).destination }
{
    match connection.direction {
        Direction::Original => connection.reply.source,
        Direction::Reply => connection.original.source,
    }
}

/// What rules read of an existing connection. An endpoint is translated where NAT changes it.
fn known_ct_facts(state: CtState, seen_reply: bool, connection: &TrackedConnection) -> CtFacts
    ensures { result ≡ known_ct_facts state seen_reply connection.now }
{
    let leaving = connection.reply.inverse();
    let original = connection.original;
    CtFacts::Known(ConnectionFacts {
        state,
        direction: connection.direction,
        mark: connection.mark,
        seen_reply,
        source_translated: leaving.source != original.source,
        destination_translated: leaving.destination != original.destination,
    })
}

/// ESTABLISHED once a packet in direction reply was seen, else NEW.
fn state_of(reply_seen: bool) -> CtState
    ensures { result ≡ (if reply_seen then states.Established else states.New) }
{
    if reply_seen {
        CtState::Established
    } else {
        CtState::New
    }
}

/// What rules read of the connection that a packet will begin.
fn new_ct_facts(new_connection: &NewConnection) -> CtFacts
    ensures { result ≡ ct_facts_of (New new_connection.now) }
{
    CtFacts::Known(new_connection.with_nat_status(ConnectionFacts {
        state: CtState::New,
        direction: Direction::Original,
        mark: 0,
        seen_reply: false,
        source_translated: false,
        destination_translated: false,
    }))
}
