//! Numbers and ranges as words.

use crate::lists::{begin_choice, end_choice, put_between};
use crate::words::{ICMP_TYPES, Notation, PROTOCOLS};
use itoa::Buffer;
use nft_tree::ValueType;
use set_lines::Numbers;
use std::alloc::{AllocError, Global};

/// Whether one of the ranges has a number from `from` to `to`.
pub(crate) fn meet(ranges: &[Numbers], from: u32, to: u32) -> bool {
    ranges
        .iter()
        .any(|range| range.low <= to && from <= range.high)
}

/// The numbers from the least to the greatest that are in none of the ranges, which ascend.
pub(crate) fn others(
    alloc: Global,
    ranges: &[Numbers],
    least: u32,
    greatest: u32,
) -> Result<Vec<Numbers>, AllocError> {
    let mut found = Vec::new(alloc);
    let mut next = Some(least);
    for range in ranges {
        let Some(low) = next else {
            break;
        };
        if low < range.low {
            found.push(Numbers {
                low,
                high: range.low - 1,
            })?;
        }
        next = range.high.checked_add(1);
    }
    if let Some(low) = next {
        if low <= greatest {
            found.push(Numbers {
                low,
                high: greatest,
            })?;
        }
    }
    Ok(found)
}

/// Appends ranges, one as it is, more of them in braces.
pub(crate) fn put_ranges(
    text: &mut Vec<u8>,
    notation: Notation,
    ranges: &[Numbers],
) -> Result<(), AllocError> {
    begin_choice(text, ranges.len())?;
    for (place, range) in ranges.iter().enumerate() {
        put_between(text, place, b", ")?;
        put_range(text, notation, *range)?;
    }
    end_choice(text, ranges.len())
}

/// Appends a range.
fn put_range(text: &mut Vec<u8>, notation: Notation, range: Numbers) -> Result<(), AllocError> {
    if range.low == range.high {
        return put_number(text, notation, range.low);
    }
    if notation == Notation::Address {
        return put_addresses(text, range);
    }
    put_decimal(text, range.low)?;
    text.push(b'-')?;
    put_decimal(text, range.high)
}

/// Appends a number, as a word where there is one.
fn put_number(text: &mut Vec<u8>, notation: Notation, number: u32) -> Result<(), AllocError> {
    match notation {
        Notation::Number => put_decimal(text, number),
        Notation::Address => put_address(text, number),
        Notation::Protocol => put_word(text, ValueType::Protocol, &PROTOCOLS, number),
        Notation::IcmpType => put_word(text, ValueType::IcmpType, &ICMP_TYPES, number),
    }
}

/// Appends the word that has this number, or the number.
fn put_word(
    text: &mut Vec<u8>,
    kind: ValueType,
    words: &[&[u8]],
    number: u32,
) -> Result<(), AllocError> {
    for word in words {
        if kind.number_of(word) == Some(number) {
            return text.extend_from_slice(word);
        }
    }
    put_decimal(text, number)
}

fn put_decimal(text: &mut Vec<u8>, number: u32) -> Result<(), AllocError> {
    text.extend_from_slice(Buffer::new().format(number).as_bytes())
}

fn put_address(text: &mut Vec<u8>, address: u32) -> Result<(), AllocError> {
    for (place, octet) in address.to_be_bytes().iter().enumerate() {
        put_between(text, place, b".")?;
        put_decimal(text, u32::from(*octet))?;
    }
    Ok(())
}

/// Appends more than one address, as a prefix where they are one.
fn put_addresses(text: &mut Vec<u8>, range: Numbers) -> Result<(), AllocError> {
    put_address(text, range.low)?;
    let differing = range.low ^ range.high;
    let free = 32 - differing.leading_zeros();
    if range.low.trailing_zeros() >= free && range.high.trailing_ones() >= free {
        text.push(b'/')?;
        return put_decimal(text, differing.leading_zeros());
    }
    text.push(b'-')?;
    put_address(text, range.high)
}
