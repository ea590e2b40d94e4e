//! The connections that an engine lists, with the plain list tracker and with the aged one.
use crate::run_support::{ROUTER, started, take};
use crate::support::{bytes, check_row};
use aged_tracker::AgedTracker;
use conntrack::{Connection, ListTracker, Tracker};
use ip_headers::{Endpoint, Kind, Mapping, Tuple};
use pcap_io::LinkType;
use std::process::Abort;
use stepping::Engine;

/// Packets that leave by `wan` are masqueraded, and their connections marked.
const MARKING: &[u8] =
    b"table ip nat { chain post { type nat hook postrouting priority srcnat; oifname \"wan\" ct mark set 7 masquerade } }";

/// The rules of a router, and the mark of each of its connections.
static ROUTERS: [(&[u8], u32); 2] = [(MARKING, 7), (ROUTER, 0)];

/// SLL2 headers of packets from `lan` and from `wan`.
const BY_LAN: &str = "0800000000000002000100060200000000010000";

const BY_WAN: &str = "0800000000000003000100060200000000010000";

/// A time in nanoseconds, a link header and a packet.
type Sent = (u64, &'static str, &'static str);

/// From 192.168.1.11:6000 to 198.51.100.7:53; then to its external endpoint 203.0.113.1:6000, from
/// 192.168.1.10:5000 and from itself.
static TO_OWN_EXTERNAL: [Sent; 3] = [
    (
        0,
        BY_LAN,
        "4500001c0000000040118ee3c0a8010bc63364071770003500080000",
    ),
    (
        0,
        BY_LAN,
        "4500001c0000000040117d1dc0a8010acb0071011388177000080000",
    ),
    (
        0,
        BY_LAN,
        "4500001c0000000040117d1cc0a8010bcb0071011770177000080000",
    ),
];

/// UDP from 192.168.1.10:5000 to 198.51.100.7:53 and to 198.51.100.9:53, and from 192.168.1.11:5000 to
/// 198.51.100.7:53.
const FIRST: &str = "4500001c0000000040118ee4c0a8010ac63364071388003500080000";

const ELSEWHERE: &str = "4500001c0000000040118ee2c0a8010ac63364091388003500080000";

const OF_ANOTHER: &str = "4500001c0000000040118ee3c0a8010bc63364071388003500080000";

/// TCP between 192.168.1.10:5000 and 198.51.100.7:80: a SYN, and a RST with ACK to 203.0.113.1:5000.
const SYN: &str =
    "450000280000000040068ee3c0a8010ac63364071388005000000000000000005002000000000000";

const REFUSED: &str =
    "450000280000000040061494c6336407cb0071010050138800000000000000005014000000000000";

const BEFORE_THE_LIMIT: u64 = 299_999_999_999;

pub const AT_THE_LIMIT: u64 = 300_000_000_000;

/// 192.168.1.10:5000, .11:5000 and .11:6000, and the last one's external endpoint.
pub const OTHER: Endpoint = Endpoint {
    address: 0xc0a8_010a,
    port: 5000,
};

const NEIGHBOUR: Endpoint = Endpoint {
    address: 0xc0a8_010b,
    port: 5000,
};

const HOST: Endpoint = Endpoint {
    address: 0xc0a8_010b,
    port: 6000,
};

const EXTERNAL: Endpoint = Endpoint {
    address: 0xcb00_7101,
    port: 6000,
};

pub const NAME_SERVER: Endpoint = Endpoint {
    address: 0xc633_6407,
    port: 53,
};

const OTHER_SERVER: Endpoint = Endpoint {
    address: 0xc633_6409,
    port: 53,
};

const WEB_SERVER: Endpoint = Endpoint {
    address: 0xc633_6407,
    port: 80,
};

/// A connection from inside: its kind, its source and destination, its external port, and the time
/// of its last packet.
pub type Masqueraded = (Kind, Endpoint, Endpoint, u16, u64);

/// The connections listed after these records, in the order of their creation. Whatever it sends
/// to, an internal endpoint has one external port; another host gets the next port of that parity,
/// unless the first one's connection has expired; a SYN recreates a connection that was reset.
static LISTED: [(&[Sent], &[Masqueraded]); 4] = [
    (
        &[
            (0, BY_LAN, FIRST),
            (0, BY_LAN, ELSEWHERE),
            (0, BY_LAN, OF_ANOTHER),
        ],
        &[
            (Kind::Udp, OTHER, NAME_SERVER, 5000, 0),
            (Kind::Udp, OTHER, OTHER_SERVER, 5000, 0),
            (Kind::Udp, NEIGHBOUR, NAME_SERVER, 5002, 0),
        ],
    ),
    (
        &[(0, BY_LAN, FIRST), (BEFORE_THE_LIMIT, BY_LAN, OF_ANOTHER)],
        &[
            (Kind::Udp, OTHER, NAME_SERVER, 5000, 0),
            (Kind::Udp, NEIGHBOUR, NAME_SERVER, 5002, BEFORE_THE_LIMIT),
        ],
    ),
    (
        &[(0, BY_LAN, FIRST), (AT_THE_LIMIT, BY_LAN, OF_ANOTHER)],
        &[(Kind::Udp, NEIGHBOUR, NAME_SERVER, 5000, AT_THE_LIMIT)],
    ),
    (
        &[(0, BY_LAN, SYN), (1, BY_WAN, REFUSED), (2, BY_LAN, SYN)],
        &[(Kind::Tcp, OTHER, WEB_SERVER, 5000, 2)],
    ),
];

/// The connections that the engine lists after these records.
fn listed_by<R: Abort + AllocGlobal, T: Tracker>(
    rt: &R,
    engine: &mut Engine<T>,
    records: &[Sent],
) -> Vec<Connection> {
    for &(moment, link, packet) in records {
        let bytes = bytes(rt, &[link, packet]);
        take(rt, engine, moment, LinkType::Sll2, &bytes);
    }
    engine.connections(rt.alloc()).expect(rt, "memory")
}

/// The connections that a router with these rules lists after these records.
fn listed_after<R: Abort + AllocGlobal, T: Tracker>(
    rt: &R,
    rules: &[u8],
    records: &[Sent],
) -> Vec<Connection> {
    let mut engine: Engine<T> = started(rt, rules);
    listed_by(rt, &mut engine, records)
}

fn between(kind: Kind, source: Endpoint, destination: Endpoint) -> Tuple {
    Tuple {
        kind,
        source,
        destination,
    }
}

/// A masqueraded connection of an internal host, with this mark.
pub fn masqueraded(connection: Masqueraded, mark: u32) -> Connection {
    let (kind, internal, peer, port, last) = connection;
    let external = Endpoint { port, ..EXTERNAL };
    Connection {
        original: between(kind, internal, peer),
        reply: between(kind, peer, external),
        mark,
        last,
        source: Some(Mapping {
            kind,
            internal,
            external,
        }),
        dest: None,
    }
}

/// Whether exactly these are listed, in this order and with this mark.
fn are_listed(all: &[Connection], expected: &[Masqueraded], mark: u32) -> bool {
    for index in 0..all.len() {
        match expected.get(index) {
            Some(wanted) if all[index] == masqueraded(*wanted, mark) => {}
            _ => return false,
        }
    }
    all.len() == expected.len()
}

/// A router with these rules lists the connections of each row.
fn lists<R: Abort + AllocGlobal, T: Tracker>(rt: &R, rules: &[u8], mark: u32) {
    for row in 0..LISTED.len() {
        let (records, expected) = LISTED[row];
        let all = listed_after::<_, T>(rt, rules, records);
        check_row(rt, row, are_listed(&all, expected, mark));
    }
}

#[test]
fn live_connections_are_listed(rt: HostRuntime) {
    for &(rules, mark) in &ROUTERS {
        lists::<_, ListTracker>(&rt, rules, mark);
        lists::<_, AgedTracker>(&rt, rules, mark);
    }
}

/// Whether the host, its neighbour and itself are listed, by the mapping of the host's external
/// endpoint.
fn are_hairpins_to_the_own_host(all: &[Connection]) -> bool {
    if all.len() != 3 {
        return false;
    }
    let mapping = Some(Mapping {
        kind: Kind::Udp,
        internal: HOST,
        external: EXTERNAL,
    });
    let neighbour = Endpoint {
        port: 5000,
        ..EXTERNAL
    };
    all[0].source == mapping
        && all[0].dest == None
        && all[1].dest == mapping
        && all[1].original == between(Kind::Udp, OTHER, EXTERNAL)
        && all[1].reply == between(Kind::Udp, HOST, neighbour)
        && all[2].original == all[2].reply
        && all[2].source == mapping
        && all[2].dest == mapping
}

/// A router with these rules lists the hairpins.
fn lists_hairpins<R: Abort + AllocGlobal, T: Tracker>(rt: &R, rules: &[u8]) {
    let all = listed_after::<_, T>(rt, rules, &TO_OWN_EXTERNAL);
    assert!(rt; are_hairpins_to_the_own_host(&all));
}

/// Hairpinning to the host's own external endpoint: replies have the first packet's tuple, and the
/// connection doesn't clash with itself.
#[test]
fn a_hairpin_to_the_own_host_is_listed(rt: HostRuntime) {
    for &(rules, _) in &ROUTERS {
        lists_hairpins::<_, ListTracker>(&rt, rules);
        lists_hairpins::<_, AgedTracker>(&rt, rules);
    }
}
