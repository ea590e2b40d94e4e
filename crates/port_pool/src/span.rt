//! The preferred ports as one interval and a parity.
ghost use Rattle.std.specs.Prelude.{◌≡◌, ◌<◌, ℕ, if◌then◌else◌};
ghost use Rattle.std.specs.Bool.{OnTrue, OnFalse};
ghost use Rattle.std.specs.Int.{bit_at};
ghost use Rattle.port_pool.specs.Candidates.{numbers, ports_of, same_parity, preferred};
ghost use Rattle.port_pool.specs.steps.Spans.{matches_parity, members, HasParity, NoParity, IsClassPart, SameFinds};

use crate::range::CandidateRange;

/// A parity, or any.
#[derive(Clone, Copy)]
pub(crate) enum Parity {
    All,
    Even,
    Odd,
}

/// The numbers from `low` to `high` with this parity.
#[derive(Clone, Copy)]
pub(crate) struct Span {
    pub(crate) low: u16,
    pub(crate) high: u16,
    pub(crate) parity: Parity,
}

impl Span {
    /// All numbers.
    pub(crate) const ALL: Span = Span {
        low: 0,
        high: u16::MAX,
        parity: Parity::All,
    };
}

impl Parity {
    /// The parity of `s`.
    fn like(s: u16) -> Parity
        ensures { (k : ℕ) → matches_parity result k ≡ same_parity s k }
    {
        if s % 2 == 0 {
            Parity::Even
        } else {
            Parity::Odd
        }
    }

    /// A word with the bits of the positions that have the parity.
    pub(crate) fn mask(self) -> u64
        ensures { (b : ℕ) → b < 64 → bit_at result b ≡ (if matches_parity self b then 1 else 0) }
    {
        match self {
            Parity::All => u64::MAX,
            Parity::Even => 0x5555_5555_5555_5555,
            Parity::Odd => 0xaaaa_aaaa_aaaa_aaaa,
        }
    }
}

/// Whether some number from `low` to `high` has the parity of `s`.
fn has_parity(s: u16, low: u16, high: u16) -> bool
    ensures some { OnTrue result (HasParity s low high) }
    ensures none { OnFalse result (NoParity s low high) }
{
    low < high || (low == high && low % 2 == s % 2)
}

/// The part of the interval that has the class of `s`; empty where its end is less than its start.
fn class_part(s: u16, low: u16, high: u16) -> (u16, u16)
    ensures { IsClassPart s low high result.0 result.1 }
{
    if s < 1024 {
        (low, high.min(1023))
    } else {
        (low.max(1024), high)
    }
}

/// The preferred ports for `s` from `low` to `high`.
fn preferred_span(s: u16, low: u16, high: u16) -> Span
    ensures { SameFinds (members result) (preferred s (numbers low high)) }
{
    let parity = Parity::like(s);
    let part = class_part(s, low, high);
    if has_parity(s, part.0, part.1) {
        Span {
            low: part.0,
            high: part.1,
            parity,
        }
    } else if has_parity(s, low, high) {
        Span { low, high, parity }
    } else {
        Span {
            low,
            high,
            parity: Parity::All,
        }
    }
}

/// The preferred ports for `s`.
pub(crate) fn ports_span(s: u16, range: Option<CandidateRange>) -> Span
    ensures { SameFinds (members result) (preferred s (ports_of range)) }
{
    match range {
        Some(range) => preferred_span(s, range.low.max(1), range.high),
        None => preferred_span(s, 1, u16::MAX),
    }
}
