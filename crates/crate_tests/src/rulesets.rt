//! Rulesets: parsed and copied, and lexical faults with their lines. Which tree a text spells, and
//! that a copy is the same tree, is proved; syntax faults are tested with the built program.
use crate::support::{check_row, repeated};
use nft_lexer::LexFault;
use nft_parser::{ParseError, TextFault, parse};
use nft_tree::{Family, Ruleset};
use std::alloc::Global;

const LISTING: &[u8] = b"table inet filter {
\tset lan4 {
\t\ttype ipv4_addr
\t\tflags interval
\t\tauto-merge
\t\telements = { 10.0.0.0/8,
\t\t\t     192.168.0.0/16 }
\t}

\tchain input {
\t\ttype filter hook input priority filter; policy drop;
\t\tct state vmap { invalid : drop, established : accept, related : accept }
\t\tiifname \"lo\" accept
\t\tip saddr @lan4 tcp dport { 22, 80-443 } counter packets 12 bytes 840 accept comment \"in\"
\t\tmeta l4proto { icmp, ipv6-icmp } accept
\t}
}
";

const OTHER_FORMS: &[u8] = b"table nat {
comment \"of the table\"
map hosts { type inet_service : ipv4_addr; size 16; elements = { 8080 comment \"web\" : 10.0.0.5 } }
chain web {
    comment \"one\"; comment \"two\"
    tcp flags syn / syn,ack tcp flags 3 tcp flags == 3 ct status snat
    meta mark set ct mark log prefix \"in\" snat to 192.0.2.1:1-9 dnat to tcp dport map @hosts jump web goto web
}
}";

/// A table's family and name, the number of its items, and the number of rules in its first chain.
type Shape<'a> = (Family, &'a [u8], usize, usize);

/// A table's name may be a family's; listings and other forms; lexical faults.
static TEXTS: [(&[u8], Result<Shape<'static>, LexFault>); 12] = [
    (b"table t { }", Ok((Family::Ip, b"t", 0, 0))),
    (b"table ip { }", Ok((Family::Ip, b"ip", 0, 0))),
    (b"table ip6 { }", Ok((Family::Ip, b"ip6", 0, 0))),
    (b"table inet { }", Ok((Family::Ip, b"inet", 0, 0))),
    (b"table inet inet { }", Ok((Family::Inet, b"inet", 0, 0))),
    (b"table ip ip { }", Ok((Family::Ip, b"ip", 0, 0))),
    (LISTING, Ok((Family::Inet, b"filter", 2, 4))),
    (OTHER_FORMS, Ok((Family::Ip, b"nat", 3, 2))),
    (
        b"table ip t { chain a {\nip saddr 1.2.3.256 drop } }",
        Err(LexFault::Number { line: 2 }),
    ),
    (
        b"table ip t { chain a {\nmeta mark 007 drop } }",
        Err(LexFault::Number { line: 2 }),
    ),
    (
        b"table ip t { chain a { accept $ } }",
        Err(LexFault::Byte { line: 1 }),
    ),
    (
        b"table ip t { comment \"x",
        Err(LexFault::OpenString { line: 1 }),
    ),
];

static LONG: Shape<'static> = (Family::Ip, b"t", 1, 5_000);

/// Whether the ruleset is one table of this shape.
fn has(ruleset: &Ruleset, shape: &Shape<'_>) -> bool {
    let (family, name, items, rules) = *shape;
    let [table] = ruleset.tables.as_slice() else {
        return false;
    };
    let count = match table.chain(0) {
        Some(chain) => chain.rules.len(),
        None => 0,
    };
    table.family == family
        && table.name.as_slice() == name
        && table.items.len() == items
        && count == rules
}

/// Whether the ruleset's copy has this shape.
fn is_copied(ruleset: &Ruleset, shape: &Shape<'_>) -> bool {
    match ruleset.try_clone() {
        Ok(copy) => has(&copy, shape),
        Err(_) => false,
    }
}

/// Whether the text is parsed as a ruleset of this shape, and so is its copy, or has this fault.
fn is_parsed(alloc: Global, text: &[u8], wanted: &Result<Shape<'_>, LexFault>) -> bool {
    match (parse(alloc, text), wanted) {
        (Ok(ruleset), Ok(shape)) => has(&ruleset, shape) && is_copied(&ruleset, shape),
        (Err(ParseError::Refused(TextFault::Lexical(found))), Err(fault)) => found == *fault,
        _ => false,
    }
}

#[test]
fn texts_are_read_and_copied_or_refused(rt: HostRuntime) {
    for row in 0..TEXTS.len() {
        let (text, wanted) = TEXTS[row];
        check_row(&rt, row, is_parsed(rt.alloc(), text, &wanted));
    }
}

/// Thousands of rules.
#[test]
fn a_long_text_is_read_and_copied(rt: HostRuntime) {
    let rule = b"ip saddr 10.0.0.0/8 tcp dport { 22, 80-443 } counter accept\n";
    let text = repeated(&rt, b"table t { chain a {\n", rule, 5_000, b"} }");
    check_row(&rt, 0, is_parsed(rt.alloc(), &text, &Ok(LONG)));
}
