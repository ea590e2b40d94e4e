//! The lists of an engine that holds as many connections and mappings as a busy box.
use crate::connection_lists::{AT_THE_LIMIT, NAME_SERVER, OTHER, masqueraded};
use crate::run_support::{ROUTER, started, take};
use aged_tracker::AgedTracker;
use conntrack::Connection;
use ip_headers::{Endpoint, Kind};
use pcap_io::LinkType;
use std::process::Abort;
use stepping::Engine;

/// UDP from 192.168.1.10 to 198.51.100.7 without a checksum, behind an SLL2 header of `lan`. The
/// ports stand at bytes 40 to 43.
const PACKET: [u8; 48] = [
    0x08, 0x00, 0x00, 0x00, 0x00, 0x00, 0x00, 0x02, 0x00, 0x01, 0x00, 0x06, 0x02, 0x00, 0x00, 0x00,
    0x00, 0x01, 0x00, 0x00, 0x45, 0x00, 0x00, 0x1c, 0x00, 0x00, 0x00, 0x00, 0x40, 0x11, 0x8e, 0xe4,
    0xc0, 0xa8, 0x01, 0x0a, 0xc6, 0x33, 0x64, 0x07, 0x13, 0x88, 0x00, 0x35, 0x00, 0x08, 0x00, 0x00,
];

/// Two for each mapping: the host sends from half as many ports, each time to two of the server.
const CONNECTIONS: usize = 100_000;

const FIRST_PORT: u16 = 1024;

/// The packet from this port of the host to this one of the server.
fn packet_between(port: u16, to: u16) -> [u8; 48] {
    let mut packet = PACKET;
    let [high, low] = port.to_be_bytes();
    packet[40] = high;
    packet[41] = low;
    let [high, low] = to.to_be_bytes();
    packet[42] = high;
    packet[43] = low;
    packet
}

/// Steps a packet from this port of the host to this one of the server.
fn send<R: Abort + AllocGlobal>(
    rt: &R,
    engine: &mut Engine<AgedTracker>,
    moment: u64,
    port: u16,
    to: u16,
) {
    let packet = packet_between(port, to);
    take(rt, engine, moment, LinkType::Sll2, &packet);
}

/// The port of the host, and that of the server, of the connection of this number.
fn ports_of(number: usize) -> (u16, u16) {
    let port = FIRST_PORT.wrapping_add(u16::try_from(number / 2).unwrap_or(0));
    (port, if number % 2 == 0 { 53 } else { 54 })
}

/// The connection of this number, whose only packet came at this moment.
fn connection_of(number: usize, moment: u64) -> Connection {
    let (port, to) = ports_of(number);
    let host = Endpoint { port, ..OTHER };
    let server = Endpoint {
        port: to,
        ..NAME_SERVER
    };
    masqueraded((Kind::Udp, host, server, port, moment), 0)
}

/// Whether these are the connections of the first numbers, in their order.
fn are_first(all: &[Connection], moment: u64) -> bool {
    for number in 0..all.len() {
        if all[number] != connection_of(number, moment) {
            return false;
        }
    }
    true
}

/// Only the first connections are listed, so many, each of a packet at this moment.
fn lists<R: Abort + AllocGlobal>(rt: &R, engine: &Engine<AgedTracker>, count: usize, moment: u64) {
    let all = engine.connections(rt.alloc()).expect(rt, "memory");
    assert!(rt; all.len() == count && are_first(&all, moment));
}

/// A hundred thousand connections with fifty thousand mappings are listed; when all have expired, a
/// further one alone.
#[test]
fn many_connections_are_listed(rt: HostRuntime) {
    let mut engine: Engine<AgedTracker> = started(&rt, ROUTER);
    for number in 0..CONNECTIONS {
        let (port, to) = ports_of(number);
        send(&rt, &mut engine, 0, port, to);
    }
    lists(&rt, &engine, CONNECTIONS, 0);
    send(&rt, &mut engine, AT_THE_LIMIT, FIRST_PORT, 53);
    lists(&rt, &engine, 1, AT_THE_LIMIT);
}
