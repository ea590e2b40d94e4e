//! Timeouts of connections.
ghost use Rattle.std.specs.Prelude.{◌≡◌};
ghost use Rattle.conntrack.specs.Phases.{idle_kind, limit_in, limit_by};

use crate::connection::Phase;
use box_file::{IdleKind, Limits};
use ip_headers::Kind;

const NANOSECONDS_IN_SECOND: u64 = 1_000_000_000;

/// The timeout that a connection has, by its kind and, for TCP, its phase.
pub fn idle_kind(kind: Kind, phase: Phase) -> IdleKind
    ensures { result ≡ idle_kind kind phase }
{
    match (kind, phase) {
        (Kind::Udp, _) => IdleKind::Udp,
        (Kind::Tcp, Phase::Established) => IdleKind::Established,
        (Kind::Tcp, Phase::Opening | Phase::Closing) => IdleKind::Transitory,
        (Kind::EchoRequest | Kind::EchoReply, _) => IdleKind::Echo,
        (Kind::Other(_), _) => IdleKind::Other,
    }
}

/// A timeout in nanoseconds.
pub fn limit_in(limits: Limits, idle: IdleKind) -> u64
    ensures { result ≡ limit_in limits idle }
{
    u64::from(limits.of(idle)) * NANOSECONDS_IN_SECOND
}

/// The timeout of a connection in nanoseconds, by its kind and, for TCP, its phase.
pub fn limit_by(limits: Limits, kind: Kind, phase: Phase) -> u64
    ensures { result ≡ limit_by limits kind phase }
{
    limit_in(limits, idle_kind(kind, phase))
}
