//! Laws about rewritten packets, each as the contract of a function that does nothing.
ghost use Rattle.std.specs.Prelude.{◌≡◌, ◌≢◌, ◌+◌, ◌%◌, ℕ, List, None, Option, Some};
ghost use Rattle.ip_headers.specs.declared.tuple.Tuple.{Tuple};
ghost use Rattle.ip_headers.specs.Header.{fault_of, payload_at, payload_of, protocol};
ghost use Rattle.ip_headers.specs.Bytes.{u16_at};
ghost use Rattle.ip_headers.specs.Sum.{words_sum};
ghost use Rattle.ip_headers.specs.Tuple.{kind_of, tuple_of};
ghost use Rattle.rewrite.specs.declared.change.Change.{Change};
ghost use Rattle.rewrite.specs.Endpoints.{between, PortsMatchKind};
ghost use Rattle.rewrite.specs.Rewritten.{payload_in, pseudo_header_and_payload, rewritten};

use ip_headers::laws::no_fault;

/// A rewritten packet passes the header tests that the original passed; its header checksum is
/// correct.
pub fn rewritten_is_faultless()
    ensures { (packet : List ℕ) (change : Change) → fault_of packet ≡ None
        → fault_of (rewritten packet change) ≡ None }
{
    no_fault();
}

/// A packet that is rewritten to the endpoints of a tuple of its own kind has that tuple.
pub fn rewritten_has_tuple()
    ensures { (packet : List ℕ) (t : Tuple) (ttl : Option ℕ) → fault_of packet ≡ None
        → kind_of (protocol packet) (payload_of packet) ≡ Some t.kind
        → PortsMatchKind t.kind t.source.port t.destination.port
        → tuple_of (rewritten packet (between t ttl)) ≡ Some t }
{
    no_fault();
}

/// The transport checksum's error doesn't change: modulo 65535 the covered words have the same sum
/// as before. The words of the pseudo header that aren't addresses never change.
pub fn checksum_error_is_kept()
    ensures tcp { (packet : List ℕ) (change : Change) → fault_of packet ≡ None → protocol packet ≡ 6
        → words_sum (pseudo_header_and_payload 0 (rewritten packet change)) % 65535
        ≡ words_sum (pseudo_header_and_payload 0 packet) % 65535 }
    // For UDP if the sender made a checksum.
    ensures udp { (packet : List ℕ) (change : Change) → fault_of packet ≡ None
        → protocol packet ≡ 17 → u16_at packet (payload_at 0 packet + 6) ≢ 0
        → words_sum (pseudo_header_and_payload 0 (rewritten packet change)) % 65535
        ≡ words_sum (pseudo_header_and_payload 0 packet) % 65535 }
    ensures icmp { (packet : List ℕ) (change : Change) → fault_of packet ≡ None
        → protocol packet ≡ 1
        → words_sum (payload_in 0 (rewritten packet change)) % 65535
        ≡ words_sum (payload_in 0 packet) % 65535 }
{
    no_fault();
}
