//! The statements that an engine counts, record by record.
use crate::run_support::{started, take};
use crate::support::{bytes, check_row};
use conntrack::ListTracker;
use pcap_io::LinkType;
use std::process::Abort;
use stepping::Engine;

/// A rule ends at its first match that fails. A policy is no statement.
const RULES: &[u8] = b"table ip filter {
    chain names {
        ip saddr 192.168.1.10 accept
    }
    chain raw {
        type filter hook prerouting priority raw
        ip saddr 192.168.1.11 counter counter
    }
    chain forward {
        type filter hook forward priority filter; policy drop;
        ip protocol tcp accept
        udp dport 53 counter jump names
        counter
    }
}
";

/// Packets, each with the statements that it starts: UDP from 192.168.1.10 to 198.51.100.7, ports
/// 53 and 80; UDP from 192.168.1.11 to port 53 there, and to the box itself; TCP from 192.168.1.10
/// to port 80; and a record of one byte.
static STARTED: [(&str, u64); 6] = [
    // In raw the match; in forward the match of the first rule, the three of the second, and the
    // match and the verdict in names.
    (
        "4500001c0000000040118ee4c0a8010ac63364071388003500080000",
        1 + 1 + 3 + 2,
    ),
    // In raw the match; in forward the match of the first rule, that of the second, and the
    // counter of the third.
    (
        "4500001c0000000040118ee4c0a8010ac63364071388005000080000",
        1 + 1 + 1 + 1,
    ),
    // In raw all three; in forward the match of the first rule, the second rule, the match in
    // names, and the third rule.
    (
        "4500001c0000000040118ee3c0a8010bc63364071388003500080000",
        3 + 1 + 3 + 1 + 1,
    ),
    // In raw all three. No chain is on input.
    (
        "4500001c0000000040117d1cc0a8010bcb0071011770177000080000",
        3,
    ),
    // In raw the match; in forward the first rule.
    (
        "450000280000000040068ee3c0a8010ac63364071388005000000000000000005002000000000000",
        1 + 2,
    ),
    ("45", 0),
];

/// Steps a record of this packet; how many statements it started.
fn started_by<R: Abort + AllocGlobal>(
    rt: &R,
    engine: &mut Engine<ListTracker>,
    packet: &str,
) -> u64 {
    let before = engine.ticks();
    let bytes = bytes(rt, &[packet]);
    take(rt, engine, 0, LinkType::Raw, &bytes);
    engine.ticks().saturating_sub(before)
}

#[test]
fn each_statement_is_counted_once(rt: HostRuntime) {
    let mut engine = started(&rt, RULES);
    assert!(&rt; engine.ticks() == 0);
    for row in 0..STARTED.len() {
        let (packet, statements) = STARTED[row];
        check_row(&rt, row, started_by(&rt, &mut engine, packet) == statements);
    }
}
