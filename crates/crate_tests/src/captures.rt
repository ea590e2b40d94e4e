//! Captures in the classic pcap format (draft-ietf-opsawg-pcap), read and written.
ghost use Rattle.std.specs.Prelude.{◌≤◌, length};

use crate::calls::Calls;
use crate::support::{bytes, check_row, repeated};
use devices::{Failing, Slow};
use pcap_io::{Capture, CaptureError, CaptureFault, Counted, Leaving, Sink};
use std::alloc::Global;
use std::io::{Read, Write};
use std::process::Abort;

/// Magic a1b2c3d4 (microseconds), version 2.4, LINKTYPE_RAW.
const HEADER: &str = "d4c3b2a1020004000000000000000000ffff000065000000";

/// 1 s and 500000 microseconds, 28 bytes.
const AT_1_5: &str = "0100000020a107001c0000001c000000";

/// UDP from 192.168.1.10:5000 to 198.51.100.7:53, TTL 64.
const PLAIN: &str = "4500001c0001000040118ee3c0a8010ac63364071388003500080000";

/// Whether that fault is reported, and leaves no record.
fn is_reported_again<I: Read>(
    capture: &mut Capture,
    reader: &mut Counted<I>,
    fault: CaptureError,
) -> bool {
    capture.next(reader) == Err(fault) && capture.record().is_none()
}

/// Whether that is the number of records, or the first fault, which is reported again.
fn reads<I: Read>(
    capture: &mut Capture,
    reader: &mut Counted<I>,
    wanted: Result<u64, CaptureError>,
) -> bool {
    for count in 0..9 {
        match capture.next(reader) {
            Ok(true) => {}
            Ok(false) => return wanted == Ok(count),
            Err(fault) => {
                return wanted == Err(fault) && is_reported_again(capture, reader, fault);
            }
        }
    }
    wanted == Ok(9)
}

/// Whether that is the answer after opening the capture, and a fault is reported again.
fn answers<I: Read>(
    alloc: Global,
    reader: &mut Counted<I>,
    wanted: Result<u64, CaptureError>,
) -> bool {
    match Capture::open(alloc, reader) {
        Ok(mut capture) => reads(&mut capture, reader, wanted),
        Err(fault) => wanted == Err(fault),
    }
}

const MALFORMED: Result<u64, CaptureError> = Err(CaptureError::Refused(CaptureFault::Malformed));

const TORN_END: Result<u64, CaptureError> = Err(CaptureError::Refused(CaptureFault::TornEnd));

/// What follows a capture's header, the capture's length, and its fault; what lacks is filled up.
type Row = (&'static str, usize, Result<u64, CaptureError>);

static ROWS: [Row; 9] = [
    // Fractions of 1,024,288 and of 1,000,000 microseconds.
    ("0100000020a10f001c0000001c000000", 85, MALFORMED),
    ("0000000040420f000000000000000000", 40, MALFORMED),
    // Captured lengths of 262,172 and of 262,145.
    ("0100000020a107001c0004001c000000", 85, MALFORMED),
    ("00000000000000000100040000000000", 262_185, MALFORMED),
    // Ends in a record's header, in its packet, in a longer one, and in that of a second record.
    (AT_1_5, 25, TORN_END),
    (AT_1_5, 67, TORN_END),
    ("0100000020a107001c0001001c000000", 85, TORN_END),
    ("00000000000000000000040000000000", 262_183, TORN_END),
    (
        "000000000000000001000000010000004500000000000000000100000004000000",
        57,
        TORN_END,
    ),
];

/// Whether the capture has the row's fault, and has it again.
fn has_fault<R: Abort + AllocGlobal>(rt: &R, row: &Row) -> bool {
    let mut capture = bytes(rt, &[HEADER, row.0]);
    capture.resize(row.1, b'x').expect(rt, "memory");
    answers(rt.alloc(), &mut Counted::new(capture.as_slice()), row.2)
}

/// A fault of a record is reported again.
#[test]
fn a_fault_is_reported_again(rt: HostRuntime) {
    for row in 0..ROWS.len() {
        check_row(&rt, row, has_fault(&rt, &ROWS[row]));
    }
}

/// Whether that is the answer over reads of 9 bytes of which one fails, and the number of calls.
fn answers_slowly(
    alloc: Global,
    capture: &[u8],
    fails: usize,
    wanted: Result<u64, CaptureError>,
    calls: u64,
) -> bool {
    let slow = Slow::new(capture, 9);
    let mut reader = Counted::new(Calls::new(Failing::new(slow, fails)));
    answers(alloc, &mut reader, wanted) && reader.into_inner().calls() == calls
}

/// Whether the answer is that of the read of this number, which fails. 112 bytes take 13 reads, and
/// one more sees the end.
fn is_reported(alloc: Global, capture: &[u8], fails: u8) -> bool {
    let number = usize::from(fails);
    if fails < 14 {
        let calls = u64::from(fails) + 1;
        answers_slowly(alloc, capture, number, Err(CaptureError::Device), calls)
    } else {
        answers_slowly(alloc, capture, number, Ok(2), 14)
    }
}

/// If a read fails, that is the answer, and the answer from then on; nothing is read again.
#[test]
fn a_failed_read_is_reported_again(rt: HostRuntime) {
    let capture = bytes(&rt, &[HEADER, AT_1_5, PLAIN, AT_1_5, PLAIN]);
    for fails in 0..15u8 {
        check_row(
            &rt,
            usize::from(fails),
            is_reported(rt.alloc(), &capture, fails),
        );
    }
}

/// The number of packets that the buffer holds.
const WAITING: usize = 2_048;

/// Magic a1b23c4d (nanoseconds), version 2.4, snaplen 262,144, LINKTYPE_LINUX_SLL2.
static OUT_HEADER: [u8; 24] = [
    0x4d, 0x3c, 0xb2, 0xa1, 2, 0, 4, 0, 0, 0, 0, 0, 0, 0, 0, 0, 0, 0, 4, 0, 0x14, 1, 0, 0,
];

/// 1 s and 500000000 nanoseconds, 48 bytes, interface 3; the packet starts at 36.
static RECORD: [u8; 64] = [
    1, 0, 0, 0, 0, 0x65, 0xcd, 0x1d, 0x30, 0, 0, 0, 0x30, 0, 0, 0, 8, 0, 0, 0, 0, 0, 0, 3, 0, 1, 4,
    0, 0, 0, 0, 0, 0, 0, 0, 0, 0x45, 0x00, 0x00, 0x1c, 0x00, 0x01, 0x00, 0x00, 0x40, 0x11, 0x8e,
    0xe3, 0xc0, 0xa8, 0x01, 0x0a, 0xc6, 0x33, 0x64, 0x07, 0x13, 0x88, 0x00, 0x35, 0x00, 0x08, 0x00,
    0x00,
];

/// Buffers packets until no further one has room; whether all but that one were taken.
fn fills(sink: &mut Sink, writer: &mut Counted<Failing<Vec<u8>>>, packet: &[u8]) -> bool
    requires { length packet.now ≤ 65535 }
{
    let leaving = Leaving {
        moment: 1_500_000_000,
        interface: 3,
        packet,
    };
    for _ in 0..WAITING {
        if sink.put(writer, &leaving).is_err() {
            return false;
        }
    }
    sink.put(writer, &leaving).is_err()
}

/// Whether the write for the packet without room fails, once, and all others are written after it.
fn keeps_packets<R: Abort + AllocGlobal>(
    rt: &R,
    writer: &mut Counted<Failing<Vec<u8>>>,
    packet: &[u8],
) -> bool
    requires { length packet.now ≤ 65535 }
{
    let mut sink = Sink::open(rt.alloc(), writer).expect(rt, "a write");
    fills(&mut sink, writer, packet) && writer.failures() == 1 && sink.finish(writer).is_ok()
}

/// Whether that is so, and these bytes are written.
fn survives<R: Abort + AllocGlobal>(rt: &R, packet: &[u8], wanted: &[u8]) -> bool
    requires { length packet.now ≤ 65535 }
{
    let mut writer = Counted::new(Failing::new(Vec::new(rt.alloc()), 1));
    let is_kept = keeps_packets(rt, &mut writer, packet);
    is_kept && writer.into_inner().into_inner().as_slice() == wanted
}

/// A failed flush of the buffer loses no packet.
#[test]
fn buffered_packets_survive_a_failed_put(rt: HostRuntime) {
    let wanted = repeated(&rt, &OUT_HEADER, &RECORD, WAITING, b"");
    check_row(&rt, 0, survives(&rt, &RECORD[36..], &wanted));
}

/// Whether the call of this number fails alone, of six writes and flushes in turn.
fn fails_once<W: Write>(writer: &mut W, fails: usize) -> bool {
    let mut is_right = true;
    for call in 0..6usize {
        let has_failed = if call % 2 == 0 {
            writer.write(b"byte").is_err()
        } else {
            writer.flush().is_err()
        };
        is_right &= has_failed == (call == fails);
    }
    is_right
}

/// Whether the call of this number fails alone, of six calls of a writer, and is counted.
fn counts_writes(alloc: Global, fails: usize) -> bool {
    let mut writer = Counted::new(Calls::new(Failing::new(Vec::new(alloc), fails)));
    let is_right = fails_once(&mut writer, fails);
    is_right && writer.failures() == 1 && writer.into_inner().calls() == 6
}

/// The same for a reader.
fn counts_reads(fails: usize) -> bool {
    let mut reader = Counted::new(Calls::new(Failing::new(&b"some bytes"[..], fails)));
    let mut is_right = true;
    for call in 0..6usize {
        is_right &= reader.read(&mut [0u8; 3]).is_err() == (call == fails);
    }
    is_right && reader.failures() == 1 && reader.into_inner().calls() == 6
}

/// Each call is passed on once, whether it fails or not; only a failed one is counted.
#[test]
fn a_counted_call_is_made_once(rt: HostRuntime) {
    for fails in 0..6usize {
        check_row(&rt, fails, counts_writes(rt.alloc(), fails));
        check_row(&rt, fails, counts_reads(fails));
    }
}
