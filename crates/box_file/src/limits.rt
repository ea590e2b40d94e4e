//! The idle timeouts.
ghost use Rattle.std.specs.Prelude.{◌&&◌, IsTrue, nat_lt};

use crate::idle_line::IdleKind;

// Defaults in seconds. TCP, established: two hours and four minutes, the minimum of RFC 5382,
// REQ-5.
const USUAL_ESTABLISHED: u32 = 7_440;
// TCP, opening or closing: four minutes, the minimum of RFC 5382, REQ-5.
const USUAL_TRANSITORY: u32 = 240;
// UDP: five minutes, as RFC 4787, REQ-5 recommends.
const USUAL_UDP: u32 = 300;
// ICMP echo: one minute, the minimum of RFC 5508, REQ-2.
const USUAL_ECHO: u32 = 60;
// Other protocols: ten minutes; no RFC has a number.
const USUAL_OTHER: u32 = 600;

/// The idle timeouts of connections in seconds: a connection is live for so long after its last
/// packet. No timeout is 0, so a connection is live at the moment of its packet.
#[derive(Clone, Copy)]
pub struct Limits {
    /// TCP, once established.
    pub established: u32,
    /// TCP, while opening or closing.
    pub transitory: u32,
    /// UDP.
    pub udp: u32,
    /// ICMP echo.
    pub echo: u32,
    /// Other protocols.
    pub other: u32,
    pub ghost positive: { IsTrue (nat_lt 0 established && nat_lt 0 transitory && nat_lt 0 udp
        && nat_lt 0 echo && nat_lt 0 other) },
}

impl Limits {
    ghost use Rattle.std.specs.Prelude.{◌≡◌};
    ghost use Rattle.box_file.specs.Idle.{limit_for, usual_limits};

    /// The defaults.
    pub fn usual() -> Self
        ensures { result ≡ usual_limits }
    {
        Limits {
            established: USUAL_ESTABLISHED,
            transitory: USUAL_TRANSITORY,
            udp: USUAL_UDP,
            echo: USUAL_ECHO,
            other: USUAL_OTHER,
        }
    }

    /// The timeout of a kind, in seconds.
    pub fn of(self, kind: IdleKind) -> u32
        ensures { result ≡ limit_for self kind }
    {
        match kind {
            IdleKind::Udp => self.udp,
            IdleKind::Established => self.established,
            IdleKind::Transitory => self.transitory,
            IdleKind::Echo => self.echo,
            IdleKind::Other => self.other,
        }
    }
}
