//! What to do about a word that is no token.
use advice::{
    Advice, COMMENT_MARK, NO_VARIABLES, OF_IPTABLES, OF_JSON, ONLY_IPV4, fixed, with_text,
};
use fault_places::{Span, bytes_of, position_at, rest_from, shown};
use nft_lexer::LexFault;

/// What to do about a lexical fault at an offset.
pub fn token_advice<'a>(text: &'a [u8], fault: LexFault, offset: usize) -> Option<Advice<'a>> {
    if offset > text.len() {
        return None;
    }
    let rest = bytes_of(text, rest_from(text, offset));
    let start = position_at(text, offset).start;
    let before = Span { start, end: offset };
    if let Some(sentence) = other_language(shown(text, before), rest) {
        return Some(fixed(sentence));
    }
    Some(match fault {
        LexFault::Byte { .. } => fixed(byte_advice(rest)),
        LexFault::OpenString { .. } => fixed("Close it with `\"` on this line."),
        LexFault::Number { .. } => number_advice(rest),
        LexFault::TooLong => return None,
    })
}

/// What to do about a line of another language than nft's.
fn other_language(before: &str, rest: &[u8]) -> Option<&'static str> {
    let line = before.trim_start();
    match (line.as_bytes(), rest) {
        ([b'{' | b'"', ..], [b'[', ..]) => Some(OF_JSON),
        ([], [b'*', b'a'..=b'z', ..]) | ([b':' | b'-', ..], _) => Some(OF_IPTABLES),
        (_, [b'*', ..]) if line.ends_with("/") => Some(COMMENT_MARK),
        _ if line.starts_with("iptables") => Some(OF_IPTABLES),
        _ if line.starts_with("//") || line.contains(" //") => Some(COMMENT_MARK),
        _ => None,
    }
}

/// What to do about a byte that begins no token.
fn byte_advice(rest: &[u8]) -> &'static str {
    match rest {
        [b'$', ..] => NO_VARIABLES,
        [b'*', ..] => {
            "Write it in quotes behind a name, as `\"ppp*\"`. The element `*` isn't read: leave it out, and add a rule for the rest."
        }
        [b'!', ..] => "Write `!=`.",
        [b'\'', ..] | [b'`', ..] => "Write `\"`.",
        [b'[', ..] | [b']', ..] => ONLY_IPV4,
        [b'\\', ..] => "Nothing may follow `\\` on its line.",
        [0x80..=0xff, ..] => letter_advice(rest),
        _ => "Take it out.",
    }
}

/// What to do about a letter beyond ASCII that looks like a mark or a blank.
fn letter_advice(rest: &[u8]) -> &'static str {
    match rest {
        [0xe2, 0x80, 0x98..=0x9f, ..] => "Write `\"`.",
        [0xe2, 0x80, 0x90..=0x95, ..] | [0xe2, 0x88, 0x92, ..] => "Write `-`.",
        [0xc2, 0xa0, ..] | [0xe2, 0x80, 0x80..=0x8f, ..] => "Write a blank: this one isn't ASCII.",
        [0xef, 0xbb, 0xbf, ..] => "This is a byte order mark: save the file without one.",
        _ => "Outside strings and comments only ASCII is read.",
    }
}

/// What to do about a number or an address.
fn number_advice<'a>(rest: &'a [u8]) -> Advice<'a> {
    // Two digits and a colon stand in a hardware address.
    if matches!(rest, [_, _, b':', ..]) {
        return fixed("Link headers aren't read: take the match out, or the rule.");
    }
    let mut groups = rest.split(|byte| !byte.is_ascii_alphanumeric() && *byte != b'.');
    let word = str::from_utf8(groups.next().unwrap_or(&[])).unwrap_or("");
    if word.contains('.') {
        return fixed("A group of an address is at most 255, without leading zeros.");
    }
    if !word.starts_with("0") {
        return fixed("Numbers are below 2^64.");
    }
    let digits = word.trim_start_matches('0');
    let number = if digits.is_empty() { "0" } else { digits };
    with_text("Write `{}`: a number has no leading zeros.", number)
}
