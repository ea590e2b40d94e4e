//! What to do about a value, or several of a list, that isn't of its type.
use crate::around::Around;
use crate::types::{ADDRESS, MARK, SERVICE, Types, greatest, values_of};
use advice::{
    Advice, DID_YOU_MEAN_ONE_OF, Gap, NO_GAP, constants, filled, fixed, greatest_is, has_constant,
    lists, names, nearest, no_value, one_of, otherwise, with_texts, write_this,
};
use fault_places::Words;
use nft_tree::{ComparedType, Item, ValueType};
use std::alloc::{AllocError, Global};
use std::net::Ipv4Addr;

/// What to do about a value that isn't of its type, if it is known.
pub fn value_advice<'a>(around: &Around<'a>, types: &Types) -> Option<Advice<'a>> {
    match (around.set(), types.data, around.before(1)) {
        (_, _, "prefix") => Some(fixed("A log's prefix has at most 127 bytes.")),
        (_, _, ":" | "-") if around.words.has_before(around.at, "to") => {
            Some(fixed("Ports are 1 to 65535, the lower one first."))
        }
        (Some(Item::Chain(_)), _, _) => Some(fixed(
            "A priority is a number from -2147483648 to 2147483647.",
        )),
        (Some(_), Some(data), ":") => values_advice(around, &[data]),
        (Some(_), _, _) => values_advice(around, &types.keys),
        (None, _, "set") => values_advice(around, &[MARK]),
        (None, _, _) => values_advice(around, &types.compared),
    }
}

/// What to do about the values of the element at the place, whose parts are of these types: a value
/// alone, a range or a prefix, or values with dots between them.
fn values_advice<'a>(around: &Around<'a>, types: &[ComparedType]) -> Option<Advice<'a>> {
    let mut first = match around.before(1) {
        "-" | "/" => around.at.saturating_sub(2),
        _ => around.at,
    };
    for of in types.get(parts_before(around)..)? {
        if let Some(found) = part_advice(&around.words, *of, first) {
            return Some(found);
        }
        first = first.saturating_add(2);
    }
    None
}

/// What to do about the value, the range or the prefix that begins at a word, if it isn't of a type.
fn part_advice<'a>(words: &Words<'a>, of: ComparedType, first: usize) -> Option<Advice<'a>> {
    let (start, last) = (words.get(first), words.get(first.saturating_add(2)));
    match (words.get(first.saturating_add(1)), last.parse::<u64>()) {
        ("/", _) if of != ADDRESS => Some(fixed("Only addresses have prefixes: write a range.")),
        ("/", Ok(33..)) => Some(greatest_is(Gap::Text("length of a prefix"), 32)),
        ("/", _) => None,
        ("-", _) if is_reversed(start, last) => Some(with_texts("Write `{}-{}`.", last, start)),
        ("-", _) => word_advice(of, start).or(word_advice(of, last)),
        _ => word_advice(of, start),
    }
}

/// Whether the first of two numbers or addresses is greater.
fn is_reversed(first: &str, last: &str) -> bool {
    match (first.parse::<u64>(), last.parse::<u64>()) {
        (Ok(first), Ok(last)) => first > last,
        _ => first.parse::<Ipv4Addr>().ok() > last.parse::<Ipv4Addr>().ok(),
    }
}

/// How many parts of its element stand before the place.
fn parts_before(around: &Around<'_>) -> usize {
    let mut parts = 0usize;
    for number in 0..around.at {
        match around.words.get(number) {
            "," | "{" => parts = 0,
            "." => parts = parts.saturating_add(1),
            _ => {}
        }
    }
    parts
}

/// What to do about a word that is no value of a type; none where it is one.
fn word_advice<'a>(of: ComparedType, word: &'a str) -> Option<Advice<'a>> {
    if let Ok(number) = word.parse::<u64>() {
        return number_advice(of, number);
    }
    match word.as_bytes() {
        [b'0'..=b'9', ..] if of != ADDRESS => Some(compared_elsewhere(of, ADDRESS)),
        [b'"', ..] if !is_interface(of) => Some(fixed("Write it without quotes.")),
        _ => named_advice(of, word),
    }
}

/// What to do about a word, where it isn't one that its type lists.
fn named_advice<'a>(of: ComparedType, word: &'a str) -> Option<Advice<'a>> {
    if has_constant(of, word) {
        return None;
    }
    Some(match instead_of(of, word) {
        Some(other) => write_this(other),
        None => unknown_advice(of).unless_near(word, Gap::Constants(of), DID_YOU_MEAN_ONE_OF),
    })
}

/// What to do about a value of another type than the one that is compared.
fn compared_elsewhere<'a>(of: ComparedType, other: ComparedType) -> Advice<'a> {
    let wanted = Gap::Text(values_of(of).0);
    let elsewhere = Gap::Text(values_of(other).1);
    filled(
        "This is no {}: write {}, or compare {}.",
        [Gap::Type(of), wanted, elsewhere, NO_GAP],
    )
}

fn number_advice<'a>(of: ComparedType, number: u64) -> Option<Advice<'a>> {
    match greatest(of) {
        Some(most) if number > most => Some(greatest_is(Gap::Type(of), most)),
        Some(_) => None,
        None if of == ADDRESS => Some(compared_elsewhere(of, SERVICE)),
        None => Some(no_value(of, values_of(of).0)),
    }
}

/// What to do about a word that is like none of those that its type lists.
fn unknown_advice<'a>(of: ComparedType) -> Advice<'a> {
    match of {
        _ if is_interface(of) => fixed("An interface's name has 1 to 15 bytes and no backslash."),
        _ if of == SERVICE => no_value(of, "the port's number"),
        ComparedType::Named(named) if !named.words().is_empty() => one_of(Gap::Constants(of)),
        _ => no_value(of, values_of(of).0),
    }
}

fn is_interface(of: ComparedType) -> bool {
    matches!(
        of,
        ComparedType::Named(ValueType::InterfaceName | ValueType::InterfaceIndex)
    )
}

/// What stands here for a word that others write: a word of the type, or a port's number.
fn instead_of(of: ComparedType, word: &str) -> Option<&'static str> {
    for (own, others) in otherwise() {
        let is_known = has_constant(of, *own) || of == SERVICE && own.parse::<u16>().is_ok();
        if is_known && lists(*others, word) {
            return Some(*own);
        }
    }
    None
}

/// Writes which words of the list around a place its type doesn't have, if there are several; whether
/// there are.
pub fn put_unread(
    alloc: Global,
    around: &Around<'_>,
    types: &Types,
    lines: &mut String,
) -> Result<bool, AllocError> {
    let compared = match around.set() {
        Some(_) => types.keys.as_slice(),
        None => types.compared.as_slice(),
    };
    let [of] = compared else {
        return Ok(false);
    };
    let unread = unread_words(alloc, around, *of)?;
    if unread.len() < 2 {
        return Ok(false);
    }
    let mut mark = "Not read: ";
    for (word, instead) in &unread {
        match *instead {
            "" if *of == SERVICE => write!(lines, "{mark}`{word}` (write its number)")?,
            "" => write!(lines, "{mark}`{word}`")?,
            _ => write!(lines, "{mark}`{word}` (write `{instead}`)")?,
        }
        mark = ", ";
    }
    lines.push_str(".\n")?;
    Ok(true)
}

/// The words of the list around a place that a type doesn't list, each with what may be meant, empty
/// where that isn't known; those first that are near one of the type. None of a map.
fn unread_words<'a>(
    alloc: Global,
    around: &Around<'a>,
    of: ComparedType,
) -> Result<Vec<(&'a str, &'static str)>, AllocError> {
    let Some(brace) = around.last_of("{") else {
        return Ok(Vec::new(alloc));
    };
    let (mut unread, mut others) = (Vec::new(alloc), Vec::new(alloc));
    let known = names(alloc, constants(of))?;
    if known.is_empty() {
        return Ok(unread);
    }
    for number in brace.saturating_add(1)..around.words.len() {
        match around.words.get(number) {
            "}" | ":" => break,
            word if is_word(word) && !known.contains(&word) => match nearest(alloc, word, &known)? {
                Some(near) => unread.push((word, near))?,
                None => others.push((word, instead_of(of, word).unwrap_or("")))?,
            },
            _ => {}
        }
    }
    unread.extend_from_slice(&others)?;
    Ok(unread)
}

fn is_word(word: &str) -> bool {
    matches!(word.as_bytes(), [b'a'..=b'z' | b'A'..=b'Z', ..])
}
