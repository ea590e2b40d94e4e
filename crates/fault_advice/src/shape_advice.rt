//! What to do about words that aren't read, or don't go together.
use crate::stop::Stop;
use advice::{
    Advice, COMMENT_MARK, Gap, NO_GAP, OF_IPTABLES, ONLY_IPV4, Place, filled, fixed, groups_advice,
    left_out, lists, put_known, with_text, with_texts, with_words, write_this,
};
use fault_places::{Span, position_at, rest_from, shown};
use nft_lexer::Token;
use std::alloc::AllocError;
use unread_parts::{OpenBrace, PartKind, open_braces};

/// What to do about a brace that is left open: of what, on which line, and the word on a line before
/// which it has to be closed.
pub fn brace_advice<'a>(
    text: &'a [u8],
    tokens: &[Token<'a>],
    brace: OpenBrace,
) -> Option<Advice<'a>> {
    let (open, seen) = (tokens.get(brace.brace)?, tokens.get(brace.seen)?);
    if open.start > text.len() || seen.start > text.len() {
        return None;
    }
    let at = position_at(text, open.start);
    let (start, end) = (at.start, open.start);
    let of = Gap::Text(match shown(text, Span { start, end }).trim() {
        "" => "the line",
        words => words,
    });
    let word = str::from_utf8(seen.text).unwrap_or("");
    let sentence = match lists("table chain set map", word) {
        true => "`{` of {}, line {}, isn't closed before `{}` in line {}.",
        false => "`{` of {}, line {}, isn't closed before the end.",
    };
    let seen_line = Gap::Number(position_at(text, seen.start).line as u64);
    let line = Gap::Number(at.line as u64);
    Some(filled(sentence, [of, line, Gap::Text(word), seen_line]))
}

/// What to do about the first word up to the place that is left out.
pub fn left_out_advice<'a>(stop: &Stop<'a>) -> Option<Advice<'a>> {
    for number in stop.allowed..stop.at.saturating_add(1) {
        let place = Place {
            before: stop.words.before(number, 1),
            is_in_rule: stop.is_in_rule(),
            is_behind_log: stop.words.has_before(number, "log"),
        };
        if let Some(sentence) = left_out(stop.words.get(number), place) {
            return Some(fixed(sentence));
        }
    }
    None
}

/// What to do about words that don't go together.
pub fn shape_advice<'a>(stop: &Stop<'a>) -> Option<Advice<'a>> {
    match other_language(stop).or(misplaced(stop)) {
        Some(sentence) => Some(fixed(sentence)),
        // An address, without its length.
        None => groups_advice(stop.run.split('/').next().unwrap_or("")).or(pair_advice(stop)),
    }
}

/// What to do about words of another language than nft's.
fn other_language(stop: &Stop<'_>) -> Option<&'static str> {
    let (before, here) = (stop.before(1), stop.here());
    if here == "/" && stop.words.get(stop.at.saturating_add(1)) == "/" {
        return Some(COMMENT_MARK);
    }
    let is_option = before == "-" && matches!(here.as_bytes(), [b'-'] | [b'a'..=b'z']);
    let is_line = stop.at == 0 && lists("- : iptables iptables-restore COMMIT", here);
    if !stop.part.kind.is_in_list() && (is_option || is_line) {
        return Some(OF_IPTABLES);
    }
    None
}

/// What to do about what stands in a wrong place, or isn't read there: the word at the place, and two
/// before it.
fn misplaced(stop: &Stop<'_>) -> Option<&'static str> {
    let (second, before, here) = (stop.before(2), stop.before(1), stop.here());
    // An address of IPv6.
    if stop.run.split(':').count() > 2 {
        return Some(ONLY_IPV4);
    }
    match (second, before, here) {
        ("dnat" | "snat", "to", ":") => {
            Some("Write the address before the `:`, or `redirect to :PORT` for this box.")
        }
        ("to", _, "-") => Some("Write one address: NAT to a range isn't read."),
        (":", _, "-") => Some("Write one port: `dnat` to a range of them isn't read."),
        ("/", _, "-") | ("-", _, "/") => Some(
            "The ends of a range have no `/`: write one prefix, or two addresses with `-` between them.",
        ),
        ("comment", _, _) if stop.is_in_rule() => {
            Some("Write the comment at the end of its rule.")
        }
        (_, _, "vmap" | "map") if stop.words.has_before(stop.at, ".") => {
            Some("A map has one selector as its key: compare the others before it.")
        }
        _ => misplaced_in_table(stop),
    }
}

/// The same outside of rules.
fn misplaced_in_table(stop: &Stop<'_>) -> Option<&'static str> {
    let first = stop.words.get(0);
    if stop.part.kind == PartKind::Tables && lists("chain set map", first) {
        return Some("It stands in no table: take out the `}` that ends the table too early.");
    }
    if first != "chain" {
        return None;
    }
    match stop.here() {
        "comment" => Some("Write a comment at the end of its rule."),
        "policy" if !has_priority_before(stop) => {
            Some("Write the policy right behind the `type` line.")
        }
        _ => None,
    }
}

/// Whether the place is on the line of a chain's priority, or right behind it.
fn has_priority_before(stop: &Stop<'_>) -> bool {
    for places in 1..5 {
        if stop.before(places) == "priority" {
            return true;
        }
    }
    false
}

/// What to do about the word at the place behind those before it.
fn pair_advice<'a>(stop: &Stop<'a>) -> Option<Advice<'a>> {
    let (second, before, here) = (stop.before(2), stop.before(1), stop.here());
    match before {
        "/" if here.contains('.') => Some(length_advice(here)),
        "to" if stop.words.has_before(stop.at, "masquerade") => Some(with_text(
            "Write `snat to {}`: `masquerade` takes the interface's address.",
            here,
        )),
        "not" => Some(write_this("!=")),
        "to" | "chain" if lists("jump goto", second) => {
            Some(with_texts("Write `{} {}`.", second, here))
        }
        _ if stop.at == 2 && second == "table" && stop.words.get(3) == "{" => Some(with_text(
            "`{}` is no family: the families are `inet`, `ip`.",
            before,
        )),
        _ => None,
    }
}

/// A mask is written as a length.
fn length_advice<'a>(mask: &str) -> Advice<'a> {
    let mut length = 0u32;
    for group in mask.split('.') {
        let bits = group.parse::<u8>().unwrap_or(0);
        length = length.saturating_add(bits.count_ones());
    }
    with_words("Write `/{}`.", Gap::Number(length as u64))
}

/// What to do about two names behind a selector of interfaces.
pub fn names_advice<'a>(stop: &Stop<'a>) -> Option<Advice<'a>> {
    let (name, next) = (stop.before(1), stop.here());
    if !lists("iifname oifname iif oif", stop.before(2)) || !is_name(name) || !is_name(next) {
        return None;
    }
    let (name, next) = (Gap::Text(name), Gap::Text(next));
    Some(filled(
        "Write `{ {}, {} }` for both names, or what is missing before `{}`, as `jump {}`.",
        [name, next, next, next],
    ))
}

/// Whether a word is a name or a string.
fn is_name(word: &str) -> bool {
    matches!(word.as_bytes(), [b'a'..=b'z' | b'A'..=b'Z' | b'_' | b'"', ..])
}

/// Writes values that stand one behind the other in a rule, without braces or without commas, as
/// `{ 80, 443 }`, if the grammar allows that; whether it does.
pub fn put_list_advice(stop: &Stop<'_>, lines: &mut String) -> Result<bool, AllocError> {
    let (part, before) = (stop.part, stop.token.saturating_sub(1));
    let is_list = is_value(stop.before(1)) && (stop.here() == "," || is_value(stop.here()));
    let start = part.tokens_before(stop.tokens, before);
    if !stop.is_in_rule() || !is_list || open_braces(start) > 0 {
        return Ok(false);
    }
    let list = values_in_braces(stop)?;
    if !part.kind.allows(stop.alloc, start, list.as_str())? {
        return Ok(false);
    }
    put_known(stop.alloc, Some(write_this(list.as_str())), lines)
}

/// The values from the one before the place on, with commas between them.
fn values_in_braces(stop: &Stop<'_>) -> Result<String, AllocError> {
    let (mut list, mut mark) = (String::new(stop.alloc), "{ ");
    for number in stop.at.saturating_sub(1)..stop.words.len() {
        match stop.words.get(number) {
            "," => {}
            word if is_value(word) => {
                write!(list, "{mark}{word}")?;
                mark = ", ";
            }
            _ => break,
        }
    }
    list.push_str(" }")?;
    Ok(list)
}

/// Whether a word is a number, an address or a string.
fn is_value(word: &str) -> bool {
    matches!(word.as_bytes(), [b'0'..=b'9' | b'"', ..])
}

/// What is written around an offset, up to the next blanks.
pub fn run_around(text: &[u8], offset: usize) -> &str {
    let mut start = 0;
    for (end, byte) in text.iter().enumerate() {
        if matches!(*byte, b' ' | b'\t' | b'\n' | b'\r' | b';' | b',') {
            if offset <= end {
                return shown(text, Span { start, end });
            }
            start = end.saturating_add(1);
        }
    }
    shown(text, rest_from(text, start))
}
