//! A record whose step was refused memory is stepped again. Nothing is refused here: `test-refuse`
//! runs this test over and over, and refuses each request of its steps in turn.
ghost use Rattle.std.specs.Prelude.{◌≡◌, ◌<◌, IsSome, IsTrue, false};

use crate::run_support::{AT_1_5, BOX, HEADER, NO_FAILURES, PLAIN, ROUTER, run_over, started};
use crate::support::bytes;
use aged_tracker::AgedTracker;
use conntrack::Connection;
use pcap_io::{Capture, Counted, Record, Sink};
use program::Status;
use report::Report;
use std::fs;
use std::process::Abort;
use std::rt::Files;
use stepping::{Engine, Processed};

/// A run: rules, trace, and capture.
#[derive(Clone, Copy)]
struct Row {
    name: &'static str,
    rules: &'static [u8],
    trace: bool,
    capture: &'static [&'static str],
}

/// Each forwarded packet is logged and traced.
const LOGS: &[u8] = b"table t { chain fwd { type filter hook forward priority 0; log accept; } }";

/// Magic a1b23c4d (nanoseconds), version 2.4, snaplen 65,535, LINKTYPE_LINUX_SLL2.
const COOKED: &str = "4d3cb2a1020004000000000000000000ffff000014010000";

/// A record of 48 bytes from `lan` at 0 s.
const AT_0: &str = "000000000000000030000000300000000800000000000002000100060000000000000000";

/// UDP from 192.168.1.10:5000 to 198.51.100.7:53.
const QUESTION: &str = "4500001c0000000040118ee4c0a8010ac63364071388003500080000";

/// The reply to 203.0.113.1:5000.
const ANSWER: &str = "4500001c0000000040111495c6336407cb0071010035138800080000";

static ROWS: [Row; 8] = [
    Row {
        name: "a packet without rules",
        rules: b"",
        trace: false,
        capture: &[HEADER, AT_1_5, PLAIN],
    },
    Row {
        name: "a packet through the router",
        rules: ROUTER,
        trace: true,
        capture: &[HEADER, AT_1_5, PLAIN],
    },
    Row {
        name: "a reply just before its connection expires",
        rules: ROUTER,
        trace: false,
        capture: &[
            COOKED,
            AT_0,
            QUESTION,
            "2b01000018c69a3b30000000300000000800000000000003000100060000000000000000",
            ANSWER,
        ],
    },
    Row {
        name: "a reply just when its connection expires",
        rules: ROUTER,
        trace: true,
        capture: &[
            COOKED,
            AT_0,
            QUESTION,
            "2c0100000000000030000000300000000800000000000003000100060000000000000000",
            ANSWER,
        ],
    },
    Row {
        name: "one port to two hosts, and that of another host",
        rules: ROUTER,
        trace: false,
        capture: &[
            COOKED,
            AT_0,
            QUESTION,
            AT_0,
            "4500001c0000000040118ee2c0a8010ac63364091388003500080000",
            AT_0,
            "4500001c0000000040118ee3c0a8010bc63364071388003500080000",
        ],
    },
    Row {
        name: "an ICMP error about a forwarded packet",
        rules: ROUTER,
        trace: false,
        capture: &[
            COOKED,
            AT_0,
            "4500001c0001000040118ee3c0a8010ac63364071388003500081000",
            "00000000000000004c0000004c0000000800000000000003000100060200000000010000",
            "45000038000200004001148dc6336401cb0071010301538900000000",
            "4500001c000100003f111594cb007101c633640713880035000895b0",
        ],
    },
    Row {
        name: "a torn end",
        rules: ROUTER,
        trace: false,
        capture: &[HEADER, AT_1_5, PLAIN, AT_1_5, "4500001c0001"],
    },
    Row {
        name: "lines written during the run",
        rules: LOGS,
        trace: true,
        capture: &[HEADER, AT_1_5, PLAIN, AT_1_5, PLAIN],
    },
];

/// The runs. One function alone names them, since each that does pays for them in its proof.
fn rows() -> &'static [Row] {
    &ROWS
}

/// The greatest number of records in a capture.
const MOST_RECORDS: u64 = 4_294_967_296;

/// The last record's number and length, the number of its events, and whether it created a
/// connection.
type LastRecord = (u64, u16, usize, bool);

/// The state of an engine between two records, as its calls show it.
#[derive(Drop)]
struct EngineState {
    records: u64,
    entry: Option<LastRecord>,
    packet: Vec<u8>,
    connections: Vec<Connection>,
}

fn state_of<R: Abort + AllocGlobal>(rt: &R, engine: &Engine<AgedTracker>) -> EngineState {
    let entry = match engine.entry() {
        Some(entry) => Some((entry.number, entry.length, entry.events.len(), entry.begun)),
        None => None,
    };
    EngineState {
        records: engine.records(),
        entry,
        packet: engine.packet().to_vec(rt.alloc()).expect(rt, "memory"),
        connections: engine.connections(rt.alloc()).expect(rt, "memory"),
    }
}

fn are_same(one: &EngineState, other: &EngineState) -> bool {
    one.records == other.records
        && one.entry == other.entry
        && one.packet == other.packet
        && one.connections == other.connections
}

fn open_file<R: Abort + AllocGlobal + Files>(rt: &R) {
    fs::open(rt, "/dev/null").expect(rt, "a file");
}

/// Steps the record; whether there was memory for it. A file is opened before and after the step,
/// so that `tests/refuse/test-refuse` can tell its requests from all others.
fn try_step<R: Abort + AllocGlobal + Files>(
    rt: &R,
    engine: &mut Engine<AgedTracker>,
    record: &Record,
) -> bool
    requires few { engine.old.records < 4294967296 }
    ensures taken { IsTrue result → IsSome engine.new.newest }
    ensures kept { result ≡ false → engine.new ≡ engine.old }
{
    open_file(rt);
    let is_taken = engine.step(record).is_ok();
    open_file(rt);
    is_taken
}

/// Steps the record, and once more if there was no memory for it; between the two the engine's
/// state is as before.
fn step_again<R: Abort + AllocGlobal + Files>(
    rt: &R,
    engine: &mut Engine<AgedTracker>,
    record: &Record,
)
    requires few { engine.old.records < 4294967296 }
    ensures { IsSome engine.new.newest }
{
    let before = state_of(rt, engine);
    if try_step(rt, engine, record) {
        return;
    }
    let is_unchanged = are_same(&state_of(rt, engine), &before);
    assert!(rt; is_unchanged);
    engine.step(record).expect(rt, "memory");
}

/// A run in progress.
#[derive(Drop)]
struct Replayed {
    engine: Engine<AgedTracker>,
    report: Report,
    sink: Sink,
    sent: Counted<Vec<u8>>,
}

impl Replayed {
    /// Steps the record, notes its entry in the report, and writes the packet that it forwards.
    fn take<R: Abort + AllocGlobal + Files>(&mut self, rt: &R, record: &Record) {
        if self.engine.records() < MOST_RECORDS && self.report.records() < MOST_RECORDS {
            step_again(rt, &mut self.engine, record);
            let Processed { entry, leaving } = self.engine.newest();
            self.report.note(&entry).expect(rt, "room");
            if let Some(leaving) = leaving {
                let put = self.sink.put(&mut self.sent, &leaving);
                put.expect(rt, "a write");
            }
        }
    }

    /// Takes each record of the capture (no row has as many as 9); whether its end is torn.
    fn take_all<R: Abort + AllocGlobal + Files>(&mut self, rt: &R, capture: &[u8]) -> bool {
        let mut reader = Counted::new(capture);
        let mut records = Capture::open(rt.alloc(), &mut reader).expect(rt, "a capture");
        for _ in 0..9u8 {
            if records.next(&mut reader) != Ok(true) {
                break;
            }
            if let Some(record) = records.record() {
                self.take(rt, &record);
            }
        }
        records.next(&mut reader).is_err()
    }

    /// Writes the packets that the sink still holds. Returns the report of the whole run.
    fn finish<R: Abort + AllocGlobal>(&mut self, rt: &R, torn: bool) -> Vec<u8> {
        self.sink.finish(&mut self.sent).expect(rt, "a write");
        let mut report = Counted::new(Vec::new(rt.alloc()));
        let live = self.engine.live() as u64;
        let rules = self.engine.rules();
        let written = self.report.lines(rules, live, torn, &mut report);
        written.expect(rt, "a write");
        report.into_inner()
    }
}

/// The packets and the report of the row, stepped so.
fn packets_and_report<R: Abort + AllocGlobal + Files>(
    rt: &R,
    row: &Row,
    capture: &[u8],
) -> (Vec<u8>, Vec<u8>) {
    let engine = started(rt, row.rules);
    let report = Report::new(rt.alloc(), engine.rules(), row.trace).expect(rt, "memory");
    let mut sent = Counted::new(Vec::new(rt.alloc()));
    let sink = Sink::open(rt.alloc(), &mut sent).expect(rt, "a write");
    let mut replayed = Replayed {
        engine,
        report,
        sink,
        sent,
    };
    let torn = replayed.take_all(rt, capture);
    let report = replayed.finish(rt, torn);
    (replayed.sent.into_inner(), report)
}

/// They are those of `engine::run`.
fn replays<R: Abort + AllocGlobal + Files>(rt: &R, row: &Row) {
    let capture = bytes(rt, row.capture);
    let whole = run_over(rt.alloc(), row.rules, BOX, &capture, row.trace, NO_FAILURES);
    assert!(rt; !matches!(whole.status, Status::Memory));
    let (sent, report_bytes) = packets_and_report(rt, row, &capture);
    let name = row.name;
    assert!(rt;
        sent == whole.sent && report_bytes == whole.report,
        "{name}"
    );
}

#[test]
fn a_refused_record_is_retried(rt: HostRuntime) {
    for row in rows() {
        replays(&rt, row);
    }
}
