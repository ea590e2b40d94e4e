//! The numbers that the elements of a set or a map cover.
use nft_tree::{ComparedType, Value, ValueRange, ValueType};

/// The numbers that an element covers, both ends included, and its first token.
#[derive(Clone, Copy)]
pub(crate) struct Interval {
    low: u128,
    high: u128,
    place: usize,
}

/// The number of a literal. None for the name of an interface where its index is meant.
pub(crate) fn number_of(value: &Value, kind: ComparedType) -> Option<u128> {
    let word = match value {
        Value::Number(number) => return Some(u128::from(*number)),
        Value::Address(address) => return Some(u128::from(*address)),
        Value::Word(word) | Value::String(word) => word,
    };
    match kind {
        ComparedType::Named(ValueType::InterfaceName) => Some(name_number(word, 0)),
        ComparedType::Named(named) => Some(u128::from(named.number_of(word)?)),
        ComparedType::Unnamed(_) => None,
    }
}

/// A name of at most 16 bytes as a number, with its missing bytes filled.
fn name_number(name: &[u8], filler: u8) -> u128 {
    let mut bytes = [filler; 16];
    let length = name.len().min(bytes.len());
    bytes[..length].copy_from_slice(&name[..length]);
    u128::from_be_bytes(bytes)
}

/// What a name with a last `*` has before it.
pub(crate) fn wildcard_stem(value: &Value) -> Option<&[u8]> {
    match value {
        Value::String(text) => text.as_slice().strip_suffix(b"*"),
        _ => None,
    }
}

/// Whether nft takes a key for an interval.
pub(crate) fn is_interval(range: &ValueRange) -> bool {
    match range {
        ValueRange::One(value) => wildcard_stem(value).is_some(),
        ValueRange::Between(_, _) | ValueRange::Prefix(_, _) => true,
    }
}

impl Interval {
    /// The interval of an element's key.
    pub(crate) fn of(range: &ValueRange, kind: ComparedType, place: usize) -> Option<Interval> {
        let (low, high) = match range {
            ValueRange::One(value) => match wildcard_stem(value) {
                Some(stem) => (name_number(stem, 0), name_number(stem, 0xff)),
                None => (number_of(value, kind)?, number_of(value, kind)?),
            },
            ValueRange::Between(low, high) => (number_of(low, kind)?, number_of(high, kind)?),
            ValueRange::Prefix(address, length) => {
                let hosts = (u64::from(u32::MAX) >> (*length).min(32)) as u32;
                (u128::from(*address & !hosts), u128::from(*address | hosts))
            }
        };
        Some(Interval { low, high, place })
    }
}

/// How many intervals there are, where equal ones count once, and where they are merged those that
/// overlap or touch; and the place of an element that overlaps another one without being equal.
pub(crate) fn cover(intervals: &mut [Interval], is_merged: bool) -> (usize, Option<usize>) {
    intervals.sort_unstable_by_key(|interval| (interval.low, interval.high, interval.place));
    let Some((first, others)) = intervals.split_first() else {
        return (0, None);
    };
    let (mut count, mut overlapping, mut before) = (1usize, None, *first);
    for interval in others {
        if interval.low == before.low && interval.high == before.high {
            continue;
        }
        if interval.low <= before.high {
            overlapping = Some(interval.place.max(before.place));
        }
        if !is_merged || interval.low.saturating_sub(before.high) > 1 {
            count = count.saturating_add(1);
        }
        before = Interval {
            high: interval.high.max(before.high),
            ..*interval
        };
    }
    (count, overlapping)
}
