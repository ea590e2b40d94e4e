//! Interval tables: built, counted and searched.
use crate::support::check_row;
use set_intervals::{Intervals, Range, SetError};
use std::alloc::Global;
use std::process::Abort;

const MOST: u128 = u128::MAX;

/// Ranges with their values, whether two of them clash, the number of runs where the first range
/// with a number wins, and the values at some keys.
#[derive(Clone, Copy)]
struct Row {
    ranges: &'static [(u128, u128, u32)],
    clash: bool,
    count: usize,
    values: &'static [(u128, Option<u32>)],
}

/// Adds a range with its value.
fn push<R: Abort>(rt: &R, pairs: &mut Vec<(Range, u32)>, low: u128, high: u128, value: u32) {
    let range = Range::new(low, high).expect(rt, "a range");
    pairs.push((range, value)).expect(rt, "memory");
}

/// Whether the table has this number of runs, and these values.
fn shows(table: &Intervals<u32>, row: &Row) -> bool {
    for (key, value) in row.values {
        if table.find(*key).copied() != *value {
            return false;
        }
    }
    table.count() == row.count
}

/// No range; all keys; the least and the greatest; three address ranges that overlap or touch;
/// adjacent ranges of a map, of which two have equal values; overlapping ranges with equal values;
/// all addresses; a range under two earlier ones, and one that starts under another's end.
static ROWS: [Row; 8] = [
    Row {
        ranges: &[],
        clash: false,
        count: 0,
        values: &[(0, None), (MOST, None)],
    },
    Row {
        ranges: &[(0, MOST, 1)],
        clash: false,
        count: 1,
        values: &[(0, Some(1)), (1, Some(1)), (MOST, Some(1))],
    },
    Row {
        ranges: &[(MOST, MOST, 2), (0, 0, 1)],
        clash: false,
        count: 2,
        values: &[(0, Some(1)), (1, None), (MOST - 1, None), (MOST, Some(2))],
    },
    Row {
        ranges: &[
            (0x0a00_0000, 0x0a00_00ff, 1),
            (0x0a00_0100, 0x0a00_01ff, 1),
            (0x0a00_0080, 0x0a00_0105, 1),
        ],
        clash: false,
        count: 1,
        values: &[
            (0x09ff_ffff, None),
            (0x0a00_0000, Some(1)),
            (0x0a00_01ff, Some(1)),
            (0x0a00_0200, None),
        ],
    },
    Row {
        ranges: &[
            (0x0a00_0000, 0x0a00_00ff, 1),
            (0x0a00_0100, 0x0a00_01ff, 1),
            (0x0a00_0200, 0x0a00_02ff, 2),
        ],
        clash: false,
        count: 2,
        values: &[
            (0x0a00_01ff, Some(1)),
            (0x0a00_0200, Some(2)),
            (0x0a00_0300, None),
        ],
    },
    Row {
        ranges: &[(0x0a00_0000, 0x0aff_ffff, 1), (0x0a01_0000, 0x0a01_ffff, 1)],
        clash: false,
        count: 1,
        values: &[(0x0a01_0000, Some(1)), (0x0aff_ffff, Some(1))],
    },
    Row {
        ranges: &[(0, 0xffff_ffff, 1)],
        clash: false,
        count: 1,
        values: &[(0, Some(1)), (0xffff_ffff, Some(1)), (0x1_0000_0000, None)],
    },
    Row {
        ranges: &[(5, 10, 1), (0, 20, 2), (8, 30, 3), (30, 30, 4), (31, 31, 3)],
        clash: true,
        count: 4,
        values: &[
            (0, Some(2)),
            (4, Some(2)),
            (5, Some(1)),
            (10, Some(1)),
            (11, Some(2)),
            (20, Some(2)),
            (21, Some(3)),
            (30, Some(3)),
            (31, Some(3)),
            (32, None),
        ],
    },
];

/// Whether the table that is built of the ranges has what the row says, or they clash.
fn is_built(alloc: Global, pairs: &[(Range, u32)], row: &Row) -> bool {
    match Intervals::build(alloc, pairs) {
        Ok(table) => !row.clash && shows(&table, row),
        Err(fault) => row.clash && matches!(fault, SetError::Clash),
    }
}

/// Whether the table in which the first range with a number wins has what the row says.
fn is_first(alloc: Global, pairs: &[(Range, u32)], row: &Row) -> bool {
    match Intervals::first_wins(alloc, pairs) {
        Ok(table) => shows(&table, row),
        Err(_) => false,
    }
}

/// Whether the tables of the row's ranges have what it says.
fn is_right<R: Abort + AllocGlobal>(rt: &R, row: &Row) -> bool {
    let mut pairs = Vec::new(rt.alloc());
    for &(low, high, value) in row.ranges {
        push(rt, &mut pairs, low, high, value);
    }
    is_built(rt.alloc(), &pairs, row) && is_first(rt.alloc(), &pairs, row)
}

#[test]
fn tables_have_what_their_ranges_say(rt: HostRuntime) {
    for row in 0..ROWS.len() {
        check_row(&rt, row, is_right(&rt, &ROWS[row]));
    }
}

/// What the tables of many ranges have. That from 16 on is of number 37,679.
static MANY: Row = Row {
    ranges: &[],
    clash: false,
    count: 60_000,
    values: &[(16, Some(5)), (20, None)],
};

/// Whether the tables of 60,000 ranges sixteen apart, unsorted, have that.
fn are_many<R: Abort + AllocGlobal>(rt: &R) -> bool {
    let mut pairs = Vec::new(rt.alloc());
    for number in 0..60_000u32 {
        let low = u128::from(number.wrapping_mul(7919) % 60_000) * 16;
        push(rt, &mut pairs, low, low + 3, number % 7);
    }
    is_built(rt.alloc(), &pairs, &MANY) && is_first(rt.alloc(), &pairs, &MANY)
}

#[test]
fn many_ranges_make_a_table(rt: HostRuntime) {
    check_row(&rt, 0, are_many(&rt));
}
