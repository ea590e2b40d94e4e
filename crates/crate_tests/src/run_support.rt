//! Shared by the tests of runs: a packet and its records, engines and their steps, runs with slow
//! and failing calls, and the line of a status.
use crate::calls::Calls;
use crate::support::checked;
use conntrack::Tracker;
use devices::{Failing, Slow};
use engine::{RunFault, run};
use pcap_io::{Counted, LinkType, Record};
use program::Status;
use std::alloc::Global;
use std::hash::RandomState;
use std::io;
use std::io::{Read, Write};
use std::process::Abort;
use std::random::RandomSource;
use stepping::Engine;

pub const BOX: &[u8] = b"interface 2 lan 192.168.1.1/24
interface 3 wan 203.0.113.1/24
route 0.0.0.0/0 wan
default lan
";

/// A masquerading firewall: hosts of `lan` share the box's address, and only replies come in.
pub const ROUTER: &[u8] = b"table ip nat {
 chain post { type nat hook postrouting priority srcnat; policy accept;
  oifname \"wan\" masquerade
 }
}
table ip fw {
 chain in { type filter hook input priority filter; policy drop;
 }
 chain fwd { type filter hook forward priority filter; policy drop;
  ct state established,related accept
  iifname \"lan\" accept
 }
}
";

/// Magic a1b2c3d4 (microseconds), version 2.4, LINKTYPE_RAW.
pub const HEADER: &str = "d4c3b2a1020004000000000000000000ffff000065000000";

/// 1 s and 500000 microseconds, 28 bytes.
pub const AT_1_5: &str = "0100000020a107001c0000001c000000";

/// UDP from 192.168.1.10:5000 to 198.51.100.7:53, TTL 64.
pub const PLAIN: &str = "4500001c0001000040118ee3c0a8010ac63364071388003500080000";

/// Whether the status has this line.
pub fn shows(alloc: Global, status: Status, line: &str) -> bool {
    match format!(in alloc; "{status}") {
        Ok(text) => text.strip_prefix("nftrun: ") == Some(line),
        Err(_) => false,
    }
}

/// A random source that leaves bytes as they are, so that all runs have the same hash keys. No result
/// depends on them.
struct Fixed;

impl RandomSource for Fixed {
    fn fill_bytes(&self, _buf: &mut [u8]) -> io::Result<()> {
        Ok(())
    }
}

/// An engine with these rules, before its first record.
pub fn started<R: Abort + AllocGlobal, T: Tracker>(rt: &R, rules: &[u8]) -> Engine<T> {
    let checked = checked(rt.alloc(), rules, BOX).expect(rt, "an accepted ruleset");
    Engine::new(rt.alloc(), checked).expect(rt, "memory")
}

/// Steps a record of these bytes at this time in nanoseconds, as long as there may be more.
pub fn take<R: Abort, T: Tracker>(
    rt: &R,
    engine: &mut Engine<T>,
    moment: u64,
    link_type: LinkType,
    bytes: &[u8],
) {
    if engine.records() < 4_294_967_296 && moment < 4_294_967_296_000_000_000 {
        let record = Record {
            moment,
            link_type,
            bytes,
        };
        engine.step(&record).expect(rt, "memory");
    }
}

/// The settings of the reader and the two writers.
#[derive(Clone, Copy)]
pub struct DeviceSettings {
    /// The most bytes of a call.
    pub most: usize,
    /// The number of calls before one fails: of the reader, of the packets' writer and of the
    /// report's.
    pub calls: [usize; 3],
}

/// No call fails.
pub const NO_FAILURES: DeviceSettings = DeviceSettings {
    most: 99,
    calls: [usize::MAX; 3],
};

/// The result of a run.
pub struct RunResult {
    /// The status of the program.
    pub status: Status,
    /// The packets written.
    pub sent: Vec<u8>,
    /// The report written.
    pub report: Vec<u8>,
    /// The failed calls of each device.
    pub failures: [u64; 3],
    /// The calls of each device, including flushes.
    pub calls: [u64; 3],
}

// Written out, so that dropping one is a call.
impl Drop for RunResult {
    fn drop(self) {
        let RunResult {
            status: _,
            sent: _,
            report: _,
            failures: _,
            calls: _,
        } = self;
    }
}

/// A reader or writer that fails once, behind so many calls of at most these bytes.
fn device<T>(inner: T, most: usize, calls: usize) -> Counted<Calls<Failing<Slow<T>>>> {
    let slow = Slow::new(inner, most);
    Counted::new(Calls::new(Failing::new(slow, calls)))
}

/// The failed calls of a writer, all of them, and its bytes.
fn ended(writer: Counted<Calls<Failing<Slow<Vec<u8>>>>>) -> (u64, u64, Vec<u8>) {
    let failures = writer.failures();
    let writer = writer.into_inner();
    let calls = writer.calls();
    let failing = writer.into_inner();
    (failures, calls, failing.into_inner().into_inner())
}

/// The status of a run of these rules on this box.
fn status_of<R: Read, W: Write>(
    alloc: Global,
    rules: &[u8],
    network: &[u8],
    reader: &mut Counted<R>,
    sent: &mut Counted<W>,
    report: &mut Counted<W>,
    trace: bool,
) -> Status {
    let Ok(hasher) = RandomState::new(&Fixed) else {
        return Status::of(Err(&RunFault::Device));
    };
    match run(alloc, hasher, rules, network, reader, sent, report, trace) {
        Ok(summary) => Status::of(Ok(summary.torn)),
        Err(fault) => Status::of(Err(&fault)),
    }
}

/// Runs these rules on this box over this capture.
pub fn run_over(
    alloc: Global,
    rules: &[u8],
    network: &[u8],
    capture: &[u8],
    trace: bool,
    device_settings: DeviceSettings,
) -> RunResult {
    let [reads, sends, reports] = device_settings.calls;
    let most = device_settings.most;
    let mut reader = device(capture, most, reads);
    let mut sent = device(Vec::new(alloc), most, sends);
    let mut report = device(Vec::new(alloc), most, reports);
    let status = status_of(
        alloc,
        rules,
        network,
        &mut reader,
        &mut sent,
        &mut report,
        trace,
    );
    let failed_reads = reader.failures();
    let reads = reader.into_inner().calls();
    let (failed_sends, sends, sent) = ended(sent);
    let (failed_reports, reports, report) = ended(report);
    RunResult {
        status,
        sent,
        report,
        failures: [failed_reads, failed_sends, failed_reports],
        calls: [reads, sends, reports],
    }
}
