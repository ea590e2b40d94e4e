//! The choice where no number is taken, without a bitmap.
ghost use Rattle.std.specs.Prelude.{◌≡◌, ◌≤◌, ◌<◌, true, find};
ghost use Rattle.port_pool.specs.Candidates.{candidates, starting_at};
ghost use Rattle.port_pool.specs.steps.First.{IsFirst};
ghost use Rattle.port_pool.specs.steps.Spans.{matches_parity, members};

use crate::order::Order;
use crate::range::CandidateRange;
use crate::span::{Parity, Span, ports_span};

/// The number that is chosen for `s` where none is taken: its first candidate. `None` where the
/// range has no port.
pub fn choose_unused(order: Order, s: u16, range: Option<CandidateRange>) -> Option<u16>
    ensures { result ≡ find (λ p. true) (candidates order s range) }
{
    match order {
        Order::Ports => first_member(s, ports_span(s, range)),
        Order::Identifiers => Some(s),
        Order::Zero => Some(0),
    }
}

/// The first number of the span, from `s` on and then from its start.
fn first_member(s: u16, span: Span) -> Option<u16>
    ensures { result ≡ find (λ p. true) (starting_at s (members span)) }
{
    let low = usize::from(span.low);
    let end = usize::from(span.high) + 1;
    let at = usize::from(s);
    match first_within(span.parity, low.max(at), end) {
        Some(found) => Some(found),
        None => first_within(span.parity, low, end.min(at)),
    }
}

/// The first number in `from..to` that has the parity.
fn first_within(parity: Parity, from: usize, to: usize) -> Option<u16>
    requires from { from < 65536 }
    requires to { to ≤ 65536 }
    ensures { IsFirst (matches_parity parity) from to result }
{
    if to <= from {
        return None;
    }
    if matches_parity(parity, from) {
        return Some(from as u16);
    }
    // One of two neighbours has the parity.
    let next = from + 1;
    if next < to { Some(next as u16) } else { None }
}

/// Whether a number has the parity.
fn matches_parity(parity: Parity, k: usize) -> bool
    ensures { result ≡ matches_parity parity k }
{
    match parity {
        Parity::All => true,
        Parity::Even => k % 2 == 0,
        Parity::Odd => k % 2 == 1,
    }
}
