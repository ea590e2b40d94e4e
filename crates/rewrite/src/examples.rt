//! Examples of rewritten packets, each as the contract of a function that does nothing.
#![tactic(auto, unfolding(crate::specs::Rewritten::rewritten))]

ghost use Rattle.std.specs.Prelude.{◌≡◌};
ghost use Rattle.ip_headers.specs.declared.tuple.Kind.TheVariants.{Tcp, Udp};
ghost use Rattle.rewrite.specs.Rewritten.{rewritten};
ghost use Rattle.rewrite.specs.Examples.{a, a_to_b, inner_tcp, inner_udp, b_to_a, back_to_a, e, e_to_b, echo, from_e};
ghost use Rattle.rewrite.specs.Examples.{from_e_port_8000, identifier_2, odd, one_hop, swapped, tcp, udp};
ghost use Rattle.rewrite.specs.Examples.{unreachable};

/// Forwarding, and translation: UDP without a checksum stays without one.
pub fn plain_packet()
    ensures one_hop { rewritten (udp 0x4011 0x8ee3 0xc0a8 0x010a 0) one_hop
        ≡ udp 0x3f11 0x8fe3 0xc0a8 0x010a 0 }
    ensures translated { rewritten (udp 0x4011 0x8ee3 0xc0a8 0x010a 0) from_e
        ≡ udp 0x3f11 0x1594 0xcb00 0x7101 0 }
{}

/// The transport checksum is updated for the source; a computed UDP checksum of 0 is written as
/// ffff.
pub fn checksum_change()
    ensures tcp { rewritten (tcp 0x4006 0x8ee2 a_to_b 0x1000) from_e
        ≡ tcp 0x3f06 0x1593 e_to_b 0x95b0 }
    ensures tcp_zero { rewritten (tcp 0x4006 0x8ee2 a_to_b 0x7a4f) from_e
        ≡ tcp 0x3f06 0x1593 e_to_b 0 }
    ensures udp { rewritten (udp 0x4011 0x8ee3 0xc0a8 0x010a 0x1000) from_e
        ≡ udp 0x3f11 0x1594 0xcb00 0x7101 0x95b0 }
    ensures udp_zero { rewritten (udp 0x4011 0x8ee3 0xc0a8 0x010a 0x7a4f) from_e
        ≡ udp 0x3f11 0x1594 0xcb00 0x7101 0xffff }
    // Exchanged words are changed words, though their sum is the same.
    ensures swapped { rewritten (tcp 0x4006 0x8ee2 a_to_b 0xffff) swapped
        ≡ tcp 0x4006 0x8ee2 b_to_a 0 }
{}

/// IP options with an odd last byte, and an ICMP identifier, which only echo messages have: an
/// error stays as it was received.
pub fn other_packets()
    ensures odd { rewritten (odd 0x4011 0x8bd8 0xc0a8 0x010a 5000 0x025b) from_e_port_8000
        ≡ odd 0x3f11 0x1289 0xcb00 0x7101 8000 0x7c53 }
    ensures echo { rewritten (echo 0x4001 0x8ef3 0xe5ca 0x1234) identifier_2
        ≡ echo 0x4001 0x8ef3 0xf7fc 2 }
    ensures error { rewritten (unreachable 0x4001 0x148d e 0x5389 (inner_udp 0x1594 e 0x95b0))
        identifier_2 ≡ unreachable 0x4001 0x148d e 0x5389 (inner_udp 0x1594 e 0x95b0) }
{}

/// An ICMP error that comes back through the NAT quotes the datagram as it was sent. A quoted TCP
/// segment of 8 bytes has no checksum.
pub fn error_back()
    ensures udp { rewritten (unreachable 0x4001 0x148d e 0x5389 (inner_udp 0x1594 e 0x95b0))
        (back_to_a Udp 53) ≡ unreachable 0x3f01 0x8fdc a 0xd939 (inner_udp 0x8fe3 a 0x1000) }
    ensures cut { rewritten (unreachable 0x4001 0x148d e 0xe926 (inner_tcp 0x1593 e))
        (back_to_a Tcp 80) ≡ unreachable 0x3f01 0x8fdc a 0xe926 (inner_tcp 0x8fe2 a) }
{}
