//! Pools of ports and identifiers: numbers are chosen, taken and given back.
use crate::support::check_row;
use port_pool::{CandidateRange, Order, Pool};
use std::process::Abort;

/// A call with its expected answer.
#[derive(Clone, Copy)]
enum Call {
    /// The number chosen for this one, within a range.
    Choose(u16, Option<CandidateRange>, Option<u16>),
    /// The number chosen for this one without a range, which is then taken.
    Take(u16, u16),
    /// A taken number is given back.
    Give(u16),
    IsUnused(bool),
}

const PAIR: Option<CandidateRange> = Some(CandidateRange {
    low: 4999,
    high: 5000,
});

static OF_PORTS: [Call; 8] = [
    Call::IsUnused(true),
    Call::Take(5000, 5000),
    Call::IsUnused(false),
    Call::Choose(5000, None, Some(5002)),
    Call::Choose(5000, PAIR, None),
    Call::Give(5000),
    Call::IsUnused(true),
    Call::Choose(5000, PAIR, Some(5000)),
];

static OF_IDENTIFIERS: [Call; 4] = [
    Call::Take(65_535, 65_535),
    Call::Choose(65_535, None, Some(0)),
    Call::Give(65_535),
    Call::IsUnused(true),
];

static OF_ZERO: [Call; 4] = [
    Call::Take(9, 0),
    Call::Choose(9, None, None),
    Call::Give(0),
    Call::IsUnused(true),
];

/// With all even ports from 1024 on taken: none is left for 1024, one for 1025, and a port that is
/// given back is found wherever it is.
static OF_A_PARITY: [Call; 7] = [
    Call::Choose(1024, None, None),
    Call::Choose(65_534, None, None),
    Call::Choose(1025, None, Some(1025)),
    Call::Choose(1022, None, Some(1022)),
    Call::Give(40_000),
    Call::Choose(1024, None, Some(40_000)),
    Call::Choose(65_534, None, Some(40_000)),
];

/// Whether this number is chosen for the other; it is then taken.
fn takes(pool: &mut Pool, number: u16, wanted: u16) -> bool {
    let Some(chosen) = pool.choose(number, None) else {
        return false;
    };
    pool.take(chosen);
    chosen == wanted && pool.is_taken(chosen)
}

/// Whether the pool answers as expected.
fn answers(pool: &mut Pool, call: &Call) -> bool {
    match *call {
        Call::Choose(number, range, wanted) => pool.choose(number, range) == wanted,
        Call::Take(number, wanted) => takes(pool, number, wanted),
        Call::Give(number) => {
            let is_taken = pool.is_taken(number);
            if is_taken {
                pool.give(number);
            }
            is_taken
        }
        Call::IsUnused(wanted) => pool.is_unused() == wanted,
    }
}

/// Makes the calls one after another.
fn answers_all<R: Abort>(rt: &R, pool: &mut Pool, calls: &[Call]) {
    for row in 0..calls.len() {
        check_row(rt, row, answers(pool, &calls[row]));
    }
}

/// Makes the calls on a new pool.
fn answers_anew<R: Abort + AllocGlobal>(rt: &R, order: Order, calls: &[Call]) {
    let mut pool = Pool::new(rt.alloc(), order).expect(rt, "memory");
    answers_all(rt, &mut pool, calls);
}

#[test]
fn numbers_are_chosen_taken_and_given(rt: HostRuntime) {
    answers_anew(&rt, Order::Ports, &OF_PORTS);
    answers_anew(&rt, Order::Identifiers, &OF_IDENTIFIERS);
    answers_anew(&rt, Order::Zero, &OF_ZERO);
}

/// Takes all even ports from 1024 on.
fn takes_even_ports<R: Abort>(rt: &R, pool: &mut Pool) {
    for half in 512..32_768u16 {
        let port = half * 2;
        check_row(rt, usize::from(port), takes(pool, 1024, port));
    }
}

#[test]
fn all_ports_of_a_parity_are_taken(rt: HostRuntime) {
    let mut pool = Pool::new(rt.alloc(), Order::Ports).expect(&rt, "memory");
    takes_even_ports(&rt, &mut pool);
    answers_all(&rt, &mut pool, &OF_A_PARITY);
}
