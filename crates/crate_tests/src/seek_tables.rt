//! Rule tables: the next rule of a key, and the first one.
use crate::support::check_row;
use seek_table::{FirstTable, KeyRange, SeekTable};
use std::alloc::Global;
use std::process::Abort;

const MOST: u32 = u32::MAX;

/// Rules by their ranges: nested ones, one twice, the least and the greatest key.
static RULES: [(u32, u32); 6] = [
    (10, 29),
    (20, 20),
    (0, MOST),
    (20, 20),
    (30, 9),
    (MOST, MOST),
];

/// A key, the rule to search from, and the answer.
static NEXT: [(u32, u32, Option<u32>); 9] = [
    (9, 0, Some(2)),
    (10, 0, Some(0)),
    (20, 0, Some(0)),
    (20, 1, Some(1)),
    (20, 2, Some(2)),
    (20, 4, None),
    (29, 1, Some(2)),
    (30, 0, Some(2)),
    (MOST, 3, Some(5)),
];

/// Rules with gaps between them.
static APART: [(u32, u32); 6] = [(9, 8), (20, 20), (30, 39), (30, 34), (20, 20), (MOST, MOST)];

/// A key, and the first rule of it.
type First = (u32, Option<u32>);

static FIRST_APART: [First; 7] = [
    (0, None),
    (19, None),
    (20, Some(1)),
    (21, None),
    (30, Some(2)),
    (39, Some(2)),
    (MOST, Some(5)),
];

static FIRST_OF_NONE: [First; 1] = [(0, None)];

/// The greatest number of rules of a chain; each range contains all before it, and one more key at
/// both ends.
const NESTED: u32 = 16_384;

static FIRST_NESTED: [First; 4] = [
    (16_384, Some(0)),
    (1, Some(16_383)),
    (32_766, Some(16_382)),
    (32_768, None),
];

/// Adds a rule of these keys.
fn push<R: Abort>(rt: &R, pairs: &mut Vec<(KeyRange, u32)>, low: u32, high: u32, rule: u32) {
    let pair = (KeyRange { low, high }, rule);
    pairs.push(pair).expect(rt, "memory");
}

fn pairs_of<R: Abort + AllocGlobal>(rt: &R, rules: &[(u32, u32)]) -> Vec<(KeyRange, u32)> {
    let mut pairs = Vec::new(rt.alloc());
    let mut number: u32 = 0;
    for &(low, high) in rules {
        push(rt, &mut pairs, low, high, number);
        number = number.saturating_add(1);
    }
    pairs
}

/// Checks all rows on the table.
fn finds_next<R: Abort>(rt: &R, table: &SeekTable) {
    for row in 0..NEXT.len() {
        let (key, from, wanted) = NEXT[row];
        check_row(rt, row, table.next(key, from) == wanted);
    }
}

/// Checks all rows on the table of the pairs, if it has at most this many entries. Whether it has.
fn is_built<R: Abort + AllocGlobal>(rt: &R, pairs: &[(KeyRange, u32)], most: usize) -> bool {
    match SeekTable::build(rt.alloc(), pairs, most).expect(rt, "memory") {
        Some(table) => {
            finds_next(rt, &table);
            true
        }
        None => false,
    }
}

/// The table has more than two entries.
#[test]
fn the_next_rule_is_found(rt: HostRuntime) {
    let pairs = pairs_of(&rt, &RULES);
    check_row(&rt, 2, !is_built(&rt, &pairs, 2));
    check_row(&rt, 64, is_built(&rt, &pairs, 64));
}

/// Checks all rows on the table.
fn finds_first<R: Abort>(rt: &R, table: &FirstTable, rows: &[First]) {
    for row in 0..rows.len() {
        let (key, wanted) = rows[row];
        check_row(rt, row, table.first(key) == wanted);
    }
}

/// Whether these are the rules that are the first of some key.
fn are_first(alloc: Global, table: &FirstTable, wanted: &[u32]) -> bool {
    match table.rules(alloc) {
        Ok(rules) => rules.as_slice() == wanted,
        Err(_) => false,
    }
}

/// Checks all rows on the table of the pairs, and which rules are the first of some key.
fn finds<R: Abort + AllocGlobal>(rt: &R, pairs: &[(KeyRange, u32)], rows: &[First], rules: &[u32]) {
    let table = FirstTable::build(rt.alloc(), pairs).expect(rt, "a table");
    finds_first(rt, &table, rows);
    check_row(rt, rows.len(), are_first(rt.alloc(), &table, rules));
}

#[test]
fn the_first_rule_is_found(rt: HostRuntime) {
    finds(&rt, &[], &FIRST_OF_NONE, &[]);
    let mut pairs = pairs_of(&rt, &APART);
    pairs.reverse();
    finds(&rt, &pairs, &FIRST_APART, &[1, 2, 5]);
}

#[test]
fn nested_rules_are_found_by_the_least(rt: HostRuntime) {
    let mut pairs = Vec::new(rt.alloc());
    for number in 0..NESTED {
        push(&rt, &mut pairs, NESTED - number, NESTED + number, number);
    }
    let table = FirstTable::build(rt.alloc(), &pairs).expect(&rt, "a table");
    finds_first(&rt, &table, &FIRST_NESTED);
}
