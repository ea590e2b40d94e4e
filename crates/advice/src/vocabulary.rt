//! The words of the profile by what they are, and what others write for them.
use nft_expressions::{Header, without_header};
use nft_tree::{ComparedType, ValueType};
use std::alloc::{AllocError, Global};

/// The words that begin a verdict, with a blank between two.
pub const VERDICTS: &str = "accept drop continue return jump goto";

/// Those that begin another statement than a match.
const STATEMENTS: &str = "counter log notrack snat dnat masquerade redirect comment";

/// The kinds of words that stand in no table of the language, with a blank between two.
static LISTED: [&str; 14] = [
    VERDICTS,
    STATEMENTS,
    "vmap map",
    "set",
    // The types of chains, hooks, priorities and policies, and what stands before each.
    "filter nat",
    "prerouting input forward output postrouting",
    "raw mangle dstnat filter security srcnat",
    "accept drop",
    "type hook priority policy",
    // What stands for a type where the data of a map are verdicts.
    "verdict",
    // The fields of a set, and its flags.
    "type typeof elements flags size auto-merge comment",
    "interval constant",
    "chain set map",
    "table inet ip prefix packets bytes to flush ruleset",
];

/// Words here, and what other firewalls and habit write for each, with a blank between two.
static OTHERWISE: [(&str, &str); 29] = [
    ("accept", "allow permit pass"),
    ("drop", "deny block discard"),
    ("jump", "call"),
    ("saddr", "src source"),
    ("daddr", "dst dest destination"),
    ("dport", "port ports"),
    ("protocol", "proto"),
    ("l4proto", "proto"),
    ("echo-request", "ping"),
    ("echo-reply", "pong"),
    ("iifname", "in interface dev"),
    ("oifname", "out"),
    ("masquerade", "masq"),
    ("established", "est"),
    ("related", "rel"),
    ("!=", "not ne"),
    ("==", "is = eq"),
    ("domain", "dns"),
    ("21", "ftp"),
    ("23", "telnet"),
    ("67", "bootps"),
    ("68", "bootpc"),
    ("110", "pop3"),
    ("143", "imap"),
    ("161", "snmp"),
    ("514", "syslog"),
    ("993", "imaps"),
    ("3306", "mysql"),
    ("ipv6-icmp", "icmpv6"),
];

/// The words of each kind, of which one stands in a place. Which of them may stand there is asked of
/// the parser.
///
/// # Errors
/// `AllocError` for want of memory.
pub fn kinds(alloc: Global) -> Result<Vec<Vec<&'static str>>, AllocError> {
    let mut all = Vec::new(alloc);
    for words in &LISTED {
        all.push(words.split(' ').collect(alloc)?)?;
    }
    all.push(names(alloc, Header::with_names())?)?;
    all.push(names(alloc, without_header())?)?;
    all.push(names(alloc, ValueType::with_names())?)?;
    for row in Header::with_names() {
        all.push(names(alloc, row.1.keywords())?)?;
    }
    for row in ValueType::with_names() {
        all.push(names(alloc, row.1.words())?)?;
    }
    Ok(all)
}

/// The constants of a type, each with its number; a number without a name has none.
pub fn constants(of: ComparedType) -> &'static [(&'static [u8], u32)] {
    match of {
        ComparedType::Named(of) => of.words(),
        ComparedType::Unnamed(_) => &[],
    }
}

/// Whether a word is a constant of a type.
pub fn has_constant(of: ComparedType, word: &str) -> bool {
    is_name(constants(of), word)
}

/// Whether a word begins a match.
pub fn begins_match(word: &str) -> bool {
    is_name(Header::with_names(), word) || is_name(without_header(), word)
}

/// Whether a word begins a statement or a match.
pub fn begins_statement(word: &str) -> bool {
    lists(VERDICTS, word) || lists(STATEMENTS, word) || begins_match(word)
}

/// The name of a type.
pub(crate) fn name_of(of: ValueType) -> &'static str {
    for row in ValueType::with_names() {
        if row.1 == of {
            return str::from_utf8(row.0).unwrap_or("");
        }
    }
    ""
}

/// The names in a table, which are ASCII.
///
/// # Errors
/// `AllocError` for want of memory.
pub fn names<'a, T>(
    alloc: Global,
    table: &[(&'static [u8], T)],
) -> Result<Vec<&'a str>, AllocError> {
    let mut names = Vec::new(alloc);
    for row in table {
        names.push(str::from_utf8(row.0).unwrap_or(""))?;
    }
    Ok(names)
}

/// Whether a word is one of the names in a table.
fn is_name<T>(table: &[(&'static [u8], T)], word: &str) -> bool {
    for row in table {
        if row.0 == word.as_bytes() {
            return true;
        }
    }
    false
}

/// Whether a word is one of those with a blank between two.
pub fn lists(words: &str, word: &str) -> bool {
    for other in words.split(' ') {
        if other == word {
            return true;
        }
    }
    false
}

/// Words of the profile, each with those that other firewalls and habit write for it.
pub fn otherwise() -> &'static [(&'static str, &'static str)] {
    &OTHERWISE
}
