//! The numbers that are taken at one external address, and the choice of the next.
#![tactic(auto, unfolding(crate::specs::Taken::is_taken, crate::specs::Taken::order_of))]

ghost use Rattle.std.specs.Prelude.{◌≡◌, ◌≢◌, ◌↔◌, ℕ, All, true, false, not, Some, None, Contains, IfOk, IsOk, IfSome, find, if◌then◌else◌, ◌==◌};
ghost use Rattle.std.specs.Bool.{OnTrue, OnFalse};
ghost use Rattle.port_pool.specs.Candidates.{candidates, ports_of};

use crate::bitmap::Bitmap;
use crate::order::Order;
use crate::range::CandidateRange;
use crate::span::{Span, ports_span};
use std::alloc::{AllocError as Memory, Global};

/// The ports or identifiers of one external address, for one kind of traffic.
#[derive(Drop)]
pub struct Pool {
    numbers: TakenNumbers,
}

/// The kind of the numbers, and which are taken.
#[derive(Drop)]
enum TakenNumbers {
    Ports(Bitmap),
    Identifiers(Bitmap),
    /// Whether 0, the only number, is taken.
    Zero(bool),
}

impl Pool {
    ghost use Rattle.port_pool.specs.Taken.{is_taken, order_of};

    /// A pool with no number taken. One of `Order::Zero` needs no memory.
    ///
    /// # Errors
    ///
    /// Where memory ran out.
    pub fn new(alloc: Global, order: Order) -> Result<Pool, Memory>
        ensures order { IfOk result (λ pool. order_of pool ≡ order) }
        ensures empty { IfOk result (λ pool. (p : ℕ) → is_taken pool p ≡ false) }
        ensures zero { order ≡ Order.Zero → IsOk result }
    {
        let numbers = match order {
            Order::Ports => TakenNumbers::Ports(Bitmap::new(alloc)?),
            Order::Identifiers => TakenNumbers::Identifiers(Bitmap::new(alloc)?),
            Order::Zero => TakenNumbers::Zero(false),
        };
        Ok(Pool { numbers })
    }

    /// Whether the number is taken.
    pub fn is_taken(&self, p: u16) -> bool
        ensures { result ≡ is_taken self.now p }
    {
        match &self.numbers {
            TakenNumbers::Ports(bitmap) => bitmap.has(p),
            TakenNumbers::Identifiers(bitmap) => bitmap.has(p),
            TakenNumbers::Zero(taken) => *taken && p == 0,
        }
    }

    /// Whether no number is taken.
    pub fn is_unused(&self) -> bool
        ensures unused { OnTrue result ((p : ℕ) → is_taken self.now p ≡ false) }
        ensures used { OnFalse result ((p : ℕ) × (is_taken self.now p ≡ true)) }
    {
        match &self.numbers {
            TakenNumbers::Ports(bitmap) => bitmap.is_clear(),
            TakenNumbers::Identifiers(bitmap) => bitmap.is_clear(),
            TakenNumbers::Zero(taken) => !*taken,
        }
    }

    /// The number for the source port or identifier `s`: the first of its candidates that isn't
    /// taken, `None` where all are. It doesn't take the number.
    pub fn choose(&self, s: u16, range: Option<CandidateRange>) -> Option<u16>
        ensures first { result ≡ find (λ p. not (is_taken self.now p))
            (candidates (order_of self.now) s range) }

        // Consequences. The chosen number may be taken.
        ensures free { IfSome result (λ p. is_taken self.now p ≡ false) }
        ensures number { IfSome result (λ p. order_of self.now ≡ Order.Zero → p ≡ 0) }

        // `None` exactly where all candidates are taken.
        ensures none { (result ≡ None) ↔ All (λ p. is_taken self.now p ≡ true)
            (candidates (order_of self.now) s range) }

        // A free number is kept.
        ensures port { order_of self.now ≡ Order.Ports → Contains (ports_of range) s
            → is_taken self.now s ≡ false → result ≡ Some s }
        ensures identifier { order_of self.now ≡ Order.Identifiers → is_taken self.now s ≡ false
            → result ≡ Some s }
    {
        self.first_candidate(s, range)
    }

    /// The first of the candidates for `s` that isn't taken.
    fn first_candidate(&self, s: u16, range: Option<CandidateRange>) -> Option<u16>
        ensures { result ≡ find (λ p. not (is_taken self.now p))
            (candidates (order_of self.now) s range) }
    {
        match &self.numbers {
            TakenNumbers::Ports(bitmap) => bitmap.first_from(s, ports_span(s, range)),
            TakenNumbers::Identifiers(bitmap) => bitmap.first_from(s, Span::ALL),
            TakenNumbers::Zero(taken) => (!*taken).then_some(0),
        }
    }

    /// Takes a number, which must be free.
    pub fn take(&mut self, p: u16)
        requires free { is_taken self.old p ≡ false }
        requires number { order_of self.old ≡ Order.Zero → p ≡ 0 }
        ensures order { order_of self.new ≡ order_of self.old }
        ensures taken { (q : ℕ) → is_taken self.new q
            ≡ (if q == p then true else is_taken self.old q) }
    {
        match &mut self.numbers {
            TakenNumbers::Ports(bitmap) => bitmap.set(p),
            TakenNumbers::Identifiers(bitmap) => bitmap.set(p),
            TakenNumbers::Zero(taken) => *taken = true,
        }
    }

    /// Gives back a number, which must be taken.
    pub fn give(&mut self, p: u16)
        requires { is_taken self.old p ≡ true }
        ensures order { order_of self.new ≡ order_of self.old }
        ensures taken { (q : ℕ) → is_taken self.new q
            ≡ (if q == p then false else is_taken self.old q) }
    {
        match &mut self.numbers {
            TakenNumbers::Ports(bitmap) => bitmap.clear(p),
            TakenNumbers::Identifiers(bitmap) => bitmap.clear(p),
            TakenNumbers::Zero(taken) => *taken = false,
        }
    }

    /// The same bitmap, with its taken numbers, as a pool of another order.
    pub fn with_order(self, order: Order) -> Pool
        requires bitmap { order_of self ≢ Order.Zero }
        requires order { order ≢ Order.Zero }
        ensures order { order_of result ≡ order }
        ensures taken { (p : ℕ) → is_taken result p ≡ is_taken self p }
    {
        let Pool { numbers } = self;
        let numbers = match (numbers, order) {
            (TakenNumbers::Ports(bitmap) | TakenNumbers::Identifiers(bitmap), Order::Ports) =>
                TakenNumbers::Ports(bitmap),
            (TakenNumbers::Ports(bitmap) | TakenNumbers::Identifiers(bitmap), Order::Identifiers) =>
                TakenNumbers::Identifiers(bitmap),
            // The number 0 alone has no bitmap.
            (numbers, _) => numbers,
        };
        Pool { numbers }
    }
}
