//! A flush that fails stops the run. A file's flush never fails, so the built program can't show
//! it; `tests/refuse/test-refuse` refuses that program's reads and writes.
use crate::run_support::{AT_1_5, BOX, DeviceSettings, HEADER, PLAIN, RunResult, run_over, shows};
use crate::support::bytes;
use std::alloc::Global;
use std::process::Abort;

/// A run over a packet: two reads; two writes of packets and a flush; a write of the report and a
/// flush. `calls` says how many calls of each device come before one that fails.
fn run_of(alloc: Global, capture: &[u8], calls: [usize; 3]) -> RunResult {
    let device_settings = DeviceSettings {
        most: usize::MAX,
        calls,
    };
    run_over(alloc, b"", BOX, capture, false, device_settings)
}

/// Whether the run has this line, so many failed calls of each device, and so many calls.
fn has_made(
    alloc: Global,
    given: &RunResult,
    line: &str,
    failures: [u64; 3],
    calls: [u64; 3],
) -> bool {
    shows(alloc, given.status, line) && given.failures == failures && given.calls == calls
}

/// The run over the packet stops at the flush that fails, with so many failed calls and calls of each
/// device, and these outputs.
fn stops<R: Abort + AllocGlobal>(
    rt: &R,
    capture: &[u8],
    flush: [usize; 3],
    failures: [u64; 3],
    calls: [u64; 3],
    outputs: [&[u8]; 2],
) {
    let given = run_of(rt.alloc(), capture, flush);
    let has_stopped = has_made(rt.alloc(), &given, "device", failures, calls);
    let [sent, report] = outputs;
    assert!(rt; has_stopped && given.sent.as_slice() == sent && given.report.as_slice() == report);
}

#[test]
fn a_flush_that_fails_stops_the_run(rt: HostRuntime) {
    let capture = bytes(&rt, &[HEADER, AT_1_5, PLAIN]);
    let whole = run_of(rt.alloc(), &capture, [usize::MAX; 3]);
    assert!(&rt; has_made(rt.alloc(), &whole, "done", [0, 0, 0], [2, 3, 2]));
    let (sent, report) = (whole.sent.as_slice(), whole.report.as_slice());
    // The last call on OUT is a flush: behind it nothing is called, and the report is empty.
    let flush = [usize::MAX, 2, usize::MAX];
    stops(&rt, &capture, flush, [0, 1, 0], [2, 3, 0], [sent, b""]);
    // The last call on the report is a flush: both outputs are whole.
    let flush = [usize::MAX, usize::MAX, 1];
    stops(&rt, &capture, flush, [0, 0, 1], [2, 3, 2], [sent, report]);
}
