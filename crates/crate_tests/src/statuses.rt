//! Statuses that no run of the built program shows: those without a line, that of more records than
//! a test can have, and that of words that the system refuses.
use crate::run_support::shows;
use crate::support::check_row;
use pcap_io::CaptureFault;
use program::Status;
use std::io;

/// Each status, its line after `nftrun: `, and its exit status.
static STATUSES: [(Status, &str, u8); 3] = [
    (Status::Success, "done", 0),
    (Status::Usage, "usage", 2),
    (Status::Capture(CaptureFault::TooMany), "capture P7", 4),
];

#[test]
fn each_status_has_its_line_and_its_code(rt: HostRuntime) {
    for row in 0..STATUSES.len() {
        let (status, line, code) = STATUSES[row];
        let is_right = shows(rt.alloc(), status, line) && status.code() == code;
        check_row(&rt, row, is_right);
    }
}

#[test]
fn words_that_are_refused_are_a_device_fault(rt: HostRuntime) {
    let refused = io::Error::from(io::ErrorKind::PermissionDenied);
    let status = Status::of_words(&refused);
    assert!(rt; shows(rt.alloc(), status, "device") && status.code() == 5);
}
