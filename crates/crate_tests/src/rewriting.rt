//! A rewritten packet, appended to a buffer.
use crate::support::{PACKET, check_row};
use ip_headers::View;
use rewrite::{Change, PortsOrIdentifier, emit};
use std::alloc::{AllocError, Global};

/// Source 203.0.113.1:5002, TTL 63.
static CHANGE: Change = Change {
    source: Some(0xcb00_7101),
    destination: None,
    numbers: Some(PortsOrIdentifier::Ports(5002, 53)),
    ttl: Some(63),
    inner: None,
};

/// The byte that the buffer held, and the rewritten packet.
static SENT: [u8; 29] = [
    0xaa, 0x45, 0x00, 0x00, 0x1c, 0x00, 0x01, 0x00, 0x00, 0x3f, 0x11, 0x15, 0x94, 0xcb, 0x00, 0x71,
    0x01, 0xc6, 0x33, 0x64, 0x07, 0x13, 0x8a, 0x00, 0x35, 0x00, 0x08, 0x00, 0x00,
];

/// Appends a byte and the rewritten packet.
fn put(view: &View, out: &mut Vec<u8>) -> Result<(), AllocError> {
    out.push(0xaa)?;
    emit(view, &CHANGE, out)
}

/// Whether that is what a buffer has then.
fn is_sent(alloc: Global, view: &View) -> bool {
    let mut out = Vec::new(alloc);
    put(view, &mut out).is_ok() && out.as_slice() == SENT.as_slice()
}

#[test]
fn appends_what_is_sent_on(rt: HostRuntime) {
    let view = View::read(&PACKET).expect(&rt, "a packet");
    check_row(&rt, 0, is_sent(rt.alloc(), &view));
}
