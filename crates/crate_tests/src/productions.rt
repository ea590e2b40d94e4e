//! Productions of the grammar, each at its position.
use crate::support::check_row;
use nft_lexer::{Token, lex};
use nft_rules::{anysel, elems, pairs, rule};
use nft_tree::Selector;
use std::alloc::Global;

/// A production, and what it finds at a position: the position behind it, or that of a list's
/// closing brace, and what it has. `None` if it doesn't stand there.
#[derive(Clone, Copy)]
enum Production {
    /// The number of its statements, and whether it has a comment.
    Rule(Option<(usize, usize, bool)>),
    /// The length.
    Elements(Option<(usize, usize)>),
    Pairs(Option<(usize, usize)>),
    Selector(Option<(usize, Selector)>),
}

const RULES: &[u8] = b"accept; tcp dport 22 log prefix \"in\" drop comment \"no\" } drop";

const LIST: &[u8] = b"{ 22,\n10.0.0.0/8 comment \"ten\", }";

const OPEN_LIST: &[u8] = b"{ 22,\n10.0.0.0/8 comment \"ten\",";

const PAIRS: &[u8] = b"1-9 : 10.0.0.1, 10 : drop }";

/// A selector is read whatever follows.
const SELECTORS: &[u8] = b"meta iifname ct state , iif";

/// A text, the position of a token, and the production that is asked there.
static ROWS: [(&[u8], usize, Production); 18] = [
    (RULES, 1, Production::Rule(None)),
    (RULES, 2, Production::Rule(Some((11, 3, true)))),
    (RULES, 12, Production::Rule(None)),
    (RULES, 40, Production::Rule(None)),
    (LIST, 0, Production::Elements(None)),
    (LIST, 1, Production::Elements(Some((10, 2)))),
    (LIST, 10, Production::Elements(None)),
    (OPEN_LIST, 1, Production::Elements(None)),
    (PAIRS, 0, Production::Pairs(Some((9, 2)))),
    (PAIRS, 6, Production::Pairs(Some((9, 1)))),
    (PAIRS, 8, Production::Pairs(None)),
    (
        SELECTORS,
        0,
        Production::Selector(Some((2, Selector::InputName))),
    ),
    (
        SELECTORS,
        1,
        Production::Selector(Some((2, Selector::InputName))),
    ),
    (
        SELECTORS,
        2,
        Production::Selector(Some((4, Selector::CtState))),
    ),
    (SELECTORS, 3, Production::Selector(None)),
    (SELECTORS, 4, Production::Selector(None)),
    (
        SELECTORS,
        5,
        Production::Selector(Some((6, Selector::InputIndex))),
    ),
    (SELECTORS, 6, Production::Selector(None)),
];

/// Whether the rule is at the position, or none.
fn is_rule(
    alloc: Global,
    tokens: &[Token],
    at: usize,
    wanted: Option<(usize, usize, bool)>,
) -> bool {
    match rule(alloc, tokens, at) {
        Ok(Some((found, end))) => {
            wanted == Some((end, found.statements.len(), found.comment.is_some()))
        }
        Ok(None) => wanted.is_none(),
        Err(_) => false,
    }
}

/// Whether the elements are at the position, or none.
fn are_elements(
    alloc: Global,
    tokens: &[Token],
    at: usize,
    wanted: Option<(usize, usize)>,
) -> bool {
    match elems(alloc, tokens, at) {
        Ok(Some((found, brace))) => wanted == Some((brace, found.len())),
        Ok(None) => wanted.is_none(),
        Err(_) => false,
    }
}

/// Whether the pairs are at the position, or none.
fn are_pairs(alloc: Global, tokens: &[Token], at: usize, wanted: Option<(usize, usize)>) -> bool {
    match pairs(alloc, tokens, at) {
        Ok(Some((found, brace))) => wanted == Some((brace, found.len())),
        Ok(None) => wanted.is_none(),
        Err(_) => false,
    }
}

/// Whether the selector is at the position, or none.
fn is_selector(tokens: &[Token], at: usize, wanted: Option<(usize, Selector)>) -> bool {
    match (anysel(tokens, at), wanted) {
        (Some((found, end)), Some((wanted_end, wanted))) => {
            end == wanted_end && found as u8 == wanted as u8
        }
        (None, None) => true,
        _ => false,
    }
}

/// Whether the production is found at the position as it says.
fn is_found(alloc: Global, tokens: &[Token], at: usize, production: Production) -> bool {
    match production {
        Production::Rule(wanted) => is_rule(alloc, tokens, at, wanted),
        Production::Elements(wanted) => are_elements(alloc, tokens, at, wanted),
        Production::Pairs(wanted) => are_pairs(alloc, tokens, at, wanted),
        Production::Selector(wanted) => is_selector(tokens, at, wanted),
    }
}

/// Whether it is found so in the text.
fn is_read(alloc: Global, text: &[u8], at: usize, production: Production) -> bool {
    match lex(alloc, text) {
        Ok(tokens) => is_found(alloc, &tokens, at, production),
        Err(_) => false,
    }
}

#[test]
fn productions_are_read_at_their_positions(rt: HostRuntime) {
    for row in 0..ROWS.len() {
        let (text, at, production) = ROWS[row];
        check_row(&rt, row, is_read(rt.alloc(), text, at, production));
    }
}
