//! A bitmap of 65,536 bits that counts its set bits.
ghost use Rattle.std.specs.Prelude.{◌≡◌, ◌≤◌, ◌<◌, ◌+◌, ◌*◌, ℕ, true, false, not, length, Some, None, IfOk, find, nat_lt, if◌then◌else◌, ◌==◌};
ghost use Rattle.std.specs.Bool.{OnTrue, OnFalse};
ghost use Rattle.std.specs.Int.{trailing_zeros, w64};
ghost use Rattle.port_pool.specs.Candidates.{starting_at};
ghost use Rattle.port_pool.specs.steps.Bits.{bit};
ghost use Rattle.port_pool.specs.steps.First.{IsFirst, is_open};
ghost use Rattle.port_pool.specs.steps.Spans.{members};

use crate::span::Span;
use std::alloc::{AllocError as Memory, Global};
use std::marker::Model;

/// How many 64-bit words a bitmap has.
const WORDS: usize = 1024;

/// 65,536 bits.
#[derive(Drop)]
pub(crate) struct Bitmap {
    words: Vec<u64>,
    /// How many bits are set.
    count: u32,
}

impl Model for Bitmap {
    ghost use Rattle.std.specs.Prelude.{ℕ, List};
    ghost use Rattle.port_pool.specs.steps.Bits.{IsCounted};

    ghost Value = { List ℕ };

    ghost view = { λ r. r.words.items };

    ghost invariant = { λ r. IsCounted r.words.items r.count };
}

impl Bitmap {
    /// A bitmap with all bits clear.
    pub(crate) fn new(alloc: Global) -> Result<Bitmap, Memory>
        ensures { IfOk result (λ bitmap. (q : ℕ) → bit bitmap q ≡ false) }
    {
        let words = vec![in alloc; 0u64; WORDS]?;
        Ok(Bitmap { words, count: 0 })
    }

    /// Whether the bit is set.
    pub(crate) fn has(&self, at: u16) -> bool
        ensures { result ≡ bit self.now at }
    {
        let word = self.words[usize::from(at) / 64];
        word >> (at % 64) & 1 == 1
    }

    /// Whether all bits are clear.
    pub(crate) fn is_clear(&self) -> bool
        ensures clear { OnTrue result ((q : ℕ) → bit self.now q ≡ false) }
        ensures some { OnFalse result ((q : ℕ) × (bit self.now q ≡ true)) }
    {
        self.count == 0
    }

    /// Sets a clear bit.
    pub(crate) fn set(&mut self, at: u16)
        requires { bit self.old at ≡ false }
        ensures { (q : ℕ) → bit self.new q ≡ (if q == at then true else bit self.old q) }
    {
        let i = usize::from(at) / 64;
        let word = self.words[i];
        self.words[i] = word | (1 << (at % 64));
        self.count += 1;
    }

    /// Clears a set bit.
    pub(crate) fn clear(&mut self, at: u16)
        requires { bit self.old at ≡ true }
        ensures { (q : ℕ) → bit self.new q ≡ (if q == at then false else bit self.old q) }
    {
        let i = usize::from(at) / 64;
        let word = self.words[i];
        self.words[i] = word & !(1 << (at % 64));
        self.count -= 1;
    }

    /// The first clear bit of the span, from `s` on and then from its start.
    pub(crate) fn first_from(&self, s: u16, span: Span) -> Option<u16>
        ensures { result ≡ find (λ k. not (bit self.now k)) (starting_at s (members span)) }
    {
        first_from(&self.words, s, span)
    }
}

/// The index of the lowest set bit of word `i`, if it is below `to`.
#[inline(always)]
fn lowest_bit_before(word: u64, i: usize, to: usize) -> Option<u16>
    requires i { i < WORDS }
    requires to { to ≤ 65536 }
    ensures { result ≡ (if nat_lt (i * 64 + trailing_zeros w64 word) to
        then Some (i * 64 + trailing_zeros w64 word) else None) }
{
    let at = i * 64 + word.trailing_zeros() as usize;
    if at < to { Some(at as u16) } else { None }
}

/// The first clear bit in `from..to` among those that `mask` has in each word.
fn first_free(words: &[u64], mask: u64, from: usize, to: usize) -> Option<u16>
    requires long { length words.now ≡ WORDS }
    requires to { to ≤ 65536 }
    ensures { IsFirst (is_open words.now mask) from to result }
{
    if to <= from {
        return None;
    }
    let first = from / 64;
    let word = !words[first] & mask & (u64::MAX << (from % 64));
    if word != 0 {
        return lowest_bit_before(word, first, to);
    }
    'words: for i in first + 1..to.div_ceil(64) {
        let word = !words[i] & mask;
        if word != 0 {
            return lowest_bit_before(word, i, to);
        }
    }
    None
}

/// The first clear bit of the span, from `s` on and then from its start.
fn first_from(words: &[u64], s: u16, span: Span) -> Option<u16>
    requires long { length words.now ≡ WORDS }
    ensures { result ≡ find (λ k. not (bit words.now k)) (starting_at s (members span)) }
{
    let mask = span.parity.mask();
    let low = usize::from(span.low);
    let end = usize::from(span.high) + 1;
    let at = usize::from(s);
    match first_free(words, mask, low.max(at), end) {
        Some(found) => Some(found),
        None => first_free(words, mask, low, end.min(at)),
    }
}
