//! Rewrites packets.
ghost use Rattle.std.specs.Prelude.{◌≡◌, ◌+◌, ◌<◌, ◌≤◌, ◌++◌, ℕ, length, slice_index, OnOk, OnErr, vec_len, vec_capacity};
ghost use Rattle.std.specs.Option.{option_and};
ghost use Rattle.ip_headers.specs.Header.{payload_at};
ghost use Rattle.ip_headers.specs.Tuple.{inner_tuple_of};
ghost use Rattle.rewrite.specs.Rewritten.{payload_in, inner_start, update_checksum, replaced, rewritten, update_checksums, with_endpoints};
ghost use Rattle.rewrite.specs.steps.Fields.{HasFields, fields_at};

use crate::Memory;
use crate::change::Change;
use crate::fields::Fields;
use byteorder::{BigEndian, ByteOrder};
use ip_headers::laws::no_fault;
use ip_headers::{PartsMut, Tuple, View};

/// Appends the rewritten packet: the given fields replaced, each checksum over a changed word
/// updated incrementally (RFC 1624), all else as received. A wrong checksum stays wrong by as much.
/// The datagram that an ICMP error quotes is rewritten likewise (RFC 5508, section 4.2).
///
/// # Errors
///
/// Where the buffer had no room for the packet and memory ran out; then its bytes are unchanged.
#[tactic(auto, using(crate::proofs::Rewritten::length_rewritten))]
pub fn emit(view: &View, change: &Change, out: &mut Vec<u8>) -> Result<(), Memory>
    ensures ok { OnOk result (out.new.items
        ≡ out.old.items ++ rewritten view.now.packet.now change.now) }
    // The length doesn't change.
    ensures same_length { length (rewritten view.now.packet.now change.now)
        ≡ length view.now.packet.now }
    ensures err { OnErr result (out.new.items ≡ out.old.items) }
    ensures full { OnErr result (vec_capacity out.old
        < vec_len out.old + length view.now.packet.now) }
    // So a buffer that was reserved once stays large enough for every packet.
    ensures capacity { vec_capacity out.old ≤ vec_capacity out.new }
{
    let before = out.len();
    out.extend_from_slice(view.packet)?;
    rewrite_packet(&mut out[before..], view, change);
    Ok(())
}

/// Rewrites a packet, given its view: first the quoted datagram, if that can be translated, then
/// the packet's own fields.
#[inline(always)]
pub fn rewrite_packet(packet: &mut [u8], view: &View, change: &Change)
    requires { packet.old ≡ view.now.packet.now }
    ensures { packet.new ≡ rewritten packet.old change.now }
{
    no_fault();
    let fields = match quoted_endpoints(view, change) {
        Some(tuple) => {
            rewrite_inner(packet, view.header.len(), tuple);
            Fields::read(packet, 0)
        }
        None => Fields::of(view, packet),
    };
    rewrite(packet, 0, fields, change);
}

/// The new endpoints of the quoted datagram, if the packet quotes one that can be translated.
#[inline(always)]
fn quoted_endpoints(view: &View, change: &Change) -> Option<Tuple>
    ensures { result ≡ option_and (inner_tuple_of view.now.packet.now) change.now.inner }
{
    match change.inner {
        Some(tuple) => view.inner_tuple().and(Some(tuple)),
        None => None,
    }
}

/// Rewrites the datagram that an ICMP error quotes, and updates the error's checksum, which covers
/// it. `payload` is the offset of the packet's payload.
fn rewrite_inner(packet: &mut [u8], payload: usize, tuple: Tuple)
    requires payload { payload ≡ payload_at 0 packet.old }
    requires long { 20 ≤ payload }
    requires fields { HasFields (inner_start packet.old) packet.old }
    ensures { packet.new ≡ update_checksum (payload_in 0) (payload_at 0 packet.old + 2) packet.old
        (with_endpoints (inner_start packet.old) packet.old tuple) }
{
    // The datagram follows the error's 8 bytes.
    let start = payload + 8;
    let old = Fields::read(packet, start);
    let new = old.changed(&Change::between(tuple, None));
    let checksum = BigEndian::read_u16(&packet[payload + 2..]);
    new.write(packet, start);
    let mut parts = PartsMut::new(packet, 0);
    parts.set_icmp_checksum(old.words_to(&new).update(checksum));
}

/// Rewrites the datagram that begins at `start`, given its fields, with its checksums.
#[inline(always)]
fn rewrite(packet: &mut [u8], start: usize, fields: Fields, change: &Change)
    requires room { HasFields start packet.old }
    requires small { (i : ℕ) → slice_index packet.old i < 256 }
    requires fields { fields ≡ fields_at start packet.old }
    ensures { packet.new ≡ update_checksums start packet.old
        (replaced start packet.old change.now) }
{
    // Most packets that are forwarded aren't translated.
    if fields.keeps_endpoints(change) {
        fields.write_ttl(packet, start, change.ttl);
    } else {
        fields.changed(change).write(packet, start);
    }
}
