//! NAT mappings: held, found, released, and with allocations refused.
ghost use Rattle.std.specs.Prelude.{◌+◌, ◌<◌, ◌≤◌, length};
ghost use Rattle.ip_headers.specs.declared.tuple.Mapping.{Mapping as Mapped};
ghost use Rattle.nat_mapping.specs.HeldMappings.{holders_of};

use crate::support::check_row;
use ip_headers::{Endpoint, Kind, Mapping};
use nat_mapping::laws::{inbound_is_held, stays_one_to_one};
use nat_mapping::{MapError, Mappings};
use port_pool::CandidateRange;
use std::alloc::{AllocError, Global};
use std::hash::RandomState;
use std::process::Abort;

/// The external address, 203.0.113.1.
const E: u32 = 0xcb00_7101;
/// Two internal hosts.
const A: u32 = 0xc0a8_010a;

const A2: u32 = 0xc0a8_010b;

/// A protocol without ports.
const GRE: Kind = Kind::Other(47);

fn end(address: u32, port: u16) -> Endpoint {
    Endpoint { address, port }
}

/// An empty table.
fn empty(alloc: Global) -> Mappings
    ensures few { (m : Mapped) → holders_of m result.held ≤ 0 }
{
    Mappings::new(alloc)
}

/// An empty table with hash keys of its own.
fn keyed(alloc: Global, hasher: RandomState) -> Mappings
    ensures few { (m : Mapped) → holders_of m result.held ≤ 0 }
{
    Mappings::with_hasher(alloc, hasher)
}

/// Chooses the external port of an internal endpoint, and holds the mapping.
fn held(
    table: &mut Mappings,
    kind: Kind,
    internal: Endpoint,
    address: u32,
    number: usize,
) -> Result<Option<u16>, AllocError>
    requires number { number < 1000 }
    requires few { (m : Mapped) → holders_of m table.old.held ≤ number }
    ensures few { (m : Mapped) → holders_of m table.new.held ≤ number + 1 }
{
    stays_one_to_one();
    table.one_to_one();
    let Ok(port) = table.source(kind, internal, address, None) else {
        return Ok(None);
    };
    table.hold(Mapping {
        kind,
        internal,
        external: Endpoint { address, port },
    })?;
    Ok(Some(port))
}

/// Releases the mapping of an external endpoint, if there is one.
fn released(table: &mut Mappings, kind: Kind, external: Endpoint, number: usize) -> bool
    requires few { (m : Mapped) → holders_of m table.old.held ≤ number }
    ensures few { (m : Mapped) → holders_of m table.new.held ≤ number }
{
    inbound_is_held();
    match table.inbound(kind, external) {
        Some(internal) => {
            table.release(Mapping {
                kind,
                internal,
                external,
            });
            true
        }
        None => false,
    }
}

/// An endpoint.
type AddressPort = (u32, u16);

/// A call with its expected answer.
#[derive(Clone, Copy)]
enum Call {
    /// The endpoint's mapping at the external address is held with this port.
    Hold(Kind, AddressPort, u16),
    /// The mapping of an external port is released.
    Release(Kind, u16),
    /// The internal endpoint of an external port.
    Inbound(Kind, u16, Option<AddressPort>),
    /// The external port of an endpoint, within a range.
    Source(Kind, AddressPort, u32, Option<CandidateRange>, Result<u16, MapError>),
    /// The number of pools.
    Pools(usize),
}

/// Endpoint-independent mapping without port overloading (RFC 4787, section 4.1 and section 4.2.1);
/// the last holder frees the port.
static PORTS: [Call; 15] = [
    Call::Inbound(Kind::Udp, 5000, None),
    Call::Hold(Kind::Udp, (A, 5000), 5000),
    Call::Hold(Kind::Udp, (A, 5000), 5000),
    Call::Hold(Kind::Udp, (A2, 5000), 5002),
    Call::Inbound(Kind::Udp, 5000, Some((A, 5000))),
    Call::Inbound(Kind::Udp, 5002, Some((A2, 5000))),
    Call::Release(Kind::Udp, 5000),
    Call::Inbound(Kind::Udp, 5000, Some((A, 5000))),
    Call::Release(Kind::Udp, 5000),
    Call::Inbound(Kind::Udp, 5000, None),
    Call::Source(Kind::Udp, (A2, 6000), E, None, Ok(6000)),
    Call::Source(Kind::Udp, (A2, 5000), E, None, Ok(5002)),
    Call::Pools(2),
    Call::Release(Kind::Udp, 5002),
    Call::Pools(2),
];

/// Kinds don't share ports; a protocol without ports has one mapping.
static KINDS: [Call; 11] = [
    Call::Hold(Kind::Udp, (A, 5000), 5000),
    Call::Hold(Kind::Tcp, (A2, 5000), 5000),
    Call::Hold(Kind::EchoRequest, (A2, 5000), 5000),
    Call::Hold(GRE, (A, 0), 0),
    Call::Source(GRE, (A2, 0), E, None, Err(MapError::NoPort)),
    Call::Source(GRE, (A2, 0), E + 1, None, Ok(0)),
    Call::Source(Kind::EchoRequest, (A, 5000), E, None, Ok(5001)),
    Call::Inbound(Kind::EchoRequest, 5000, Some((A2, 5000))),
    Call::Pools(4),
    Call::Release(GRE, 0),
    Call::Source(GRE, (A2, 0), E, None, Ok(0)),
];

/// The range of port 5000 alone.
const ONE: Option<CandidateRange> = Some(CandidateRange {
    low: 5000,
    high: 5000,
});

/// If all ports of a range are held there is none, except for an endpoint that already has one.
static RANGE: [Call; 6] = [
    Call::Source(Kind::Tcp, (A2, 5000), E, ONE, Ok(5000)),
    Call::Hold(Kind::Tcp, (A, 5000), 5000),
    Call::Hold(Kind::Tcp, (A, 7000), 7000),
    Call::Source(Kind::Tcp, (A2, 5000), E, ONE, Err(MapError::NoPort)),
    Call::Source(Kind::Tcp, (A, 7000), E, ONE, Ok(7000)),
    Call::Source(Kind::Udp, (A2, 5000), E, ONE, Ok(5000)),
];

/// Whether the table answers as expected.
fn answers(table: &mut Mappings, call: &Call, number: usize) -> bool
    requires number { number < 1000 }
    requires few { (m : Mapped) → holders_of m table.old.held ≤ number }
    ensures few { (m : Mapped) → holders_of m table.new.held ≤ number + 1 }
{
    match *call {
        Call::Hold(kind, (host, port), wanted) => {
            held(table, kind, end(host, port), E, number) == Ok(Some(wanted))
        }
        Call::Release(kind, port) => released(table, kind, end(E, port), number),
        Call::Inbound(kind, port, wanted) => match table.inbound(kind, end(E, port)) {
            Some(found) => wanted == Some((found.address, found.port)),
            None => wanted.is_none(),
        },
        Call::Source(kind, (host, port), address, range, wanted) => {
            table.source(kind, end(host, port), address, range) == wanted
        }
        Call::Pools(wanted) => table.pools() == wanted,
    }
}

/// Makes the calls one after another on an empty table.
fn answers_all<R: Abort>(rt: &R, mut table: Mappings, calls: &[Call])
    requires short { length calls.now < 1000 }
    requires few { (m : Mapped) → holders_of m table.held ≤ 0 }
{
    for number in 0..calls.len() {
        check_row(rt, number, answers(&mut table, &calls[number], number));
    }
}

#[test]
fn mappings_are_held_found_and_released(rt: HostRuntime) {
    let hasher = RandomState::new(&rt).expect(&rt, "a hasher");
    answers_all(&rt, keyed(rt.alloc(), hasher), &PORTS);
    answers_all(&rt, keyed(rt.alloc(), hasher), &KINDS);
    answers_all(&rt, keyed(rt.alloc(), hasher), &RANGE);
}

/// Whether a connection's two mappings are held at new addresses, with capacity reserved. Only
/// `reserve_one` may allocate, and if it is refused nothing has changed.
fn holds_two(table: &mut Mappings, address: u32, number: usize) -> bool
    requires address { address < 1000 }
    requires number { number < 900 }
    requires few { (m : Mapped) → holders_of m table.old.held ≤ number }
    ensures few { (m : Mapped) → holders_of m table.new.held ≤ number + 2 }
{
    if table.reserve_one().is_err() {
        // Only one allocation of the run is refused.
        let kept = table.inbound(Kind::Udp, end(E, 5000));
        if kept != Some(end(A, 5000)) || table.reserve_one().is_err() {
            return false;
        }
    }
    let first = held(table, Kind::EchoRequest, end(A, 80), address, number);
    let second = held(table, Kind::Tcp, end(A2, 80), address + 1, number + 1);
    first == Ok(Some(80)) && second == Ok(Some(80))
}

fn connection<R: Abort>(rt: &R, table: &mut Mappings, address: u32, number: usize)
    requires address { address < 1000 }
    requires number { number < 900 }
    requires few { (m : Mapped) → holders_of m table.old.held ≤ number }
    ensures few { (m : Mapped) → holders_of m table.new.held ≤ number + 2 }
{
    check_row(rt, number, holds_two(table, address, number));
}

/// Five connections are held.
fn connections<R: Abort>(rt: &R, table: &mut Mappings)
    requires few { (m : Mapped) → holders_of m table.old.held ≤ 1 }
    ensures few { (m : Mapped) → holders_of m table.new.held ≤ 11 }
{
    connection(rt, table, 1, 1);
    connection(rt, table, 3, 3);
    connection(rt, table, 5, 5);
    connection(rt, table, 7, 7);
    connection(rt, table, 9, 9);
}

/// The last one is released, and held again.
fn connection_again<R: Abort>(rt: &R, table: &mut Mappings)
    requires few { (m : Mapped) → holders_of m table.old.held ≤ 11 }
{
    check_row(rt, 10, released(table, Kind::Tcp, end(10, 80), 11));
    check_row(rt, 9, released(table, Kind::EchoRequest, end(9, 80), 11));
    connection(rt, table, 9, 11);
    check_row(rt, table.pools(), table.pools() <= 13);
}

/// With each allocation refused in turn.
#[test]
fn only_reserving_wants_memory(rt: HostRuntime) {
    let mut table = empty(rt.alloc());
    if held(&mut table, Kind::Udp, end(A, 5000), E, 0).is_ok() {
        connections(&rt, &mut table);
        connection_again(&rt, &mut table);
    } else {
        let found = table.inbound(Kind::Udp, end(E, 5000));
        check_row(&rt, 0, found == None);
    }
}
