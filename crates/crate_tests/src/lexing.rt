//! The lexer: tokens and faults.
use crate::support::{check_row, repeated};
use nft_lexer::{LexError, LexFault, Punctuator, Token, TokenKind, lex};
use std::alloc::Global;
use std::process::Abort;

/// A token's text and kind.
type ExpectedToken = (&'static [u8], TokenKind);

/// Tokens of all kinds.
const MANY: &[ExpectedToken] = &[
    (b"tcp", TokenKind::Word),
    (b"dport", TokenKind::Word),
    (b"!=", TokenKind::Punctuator(Punctuator::NotEqualTo)),
    (b"22", TokenKind::Number(22)),
    (b"\n", TokenKind::NewLine),
    (b"0x1fF", TokenKind::Number(511)),
    (b"\"a b\"", TokenKind::String),
    (b"1.2.3.4", TokenKind::Address(0x0102_0304)),
    (b".", TokenKind::Punctuator(Punctuator::Dot)),
    (b"80", TokenKind::Number(80)),
    (b"80", TokenKind::Number(80)),
    (b"accept", TokenKind::Word),
    (b"<=", TokenKind::Punctuator(Punctuator::AtMost)),
    (b"=", TokenKind::Punctuator(Punctuator::Equals)),
    (b"<=", TokenKind::Punctuator(Punctuator::AtMost)),
    (b"0", TokenKind::Number(0)),
    (b"x", TokenKind::Word),
];

/// Texts that are nearly one token.
const NEARLY: &[ExpectedToken] = &[
    (b"0", TokenKind::Number(0)),
    (b"X1", TokenKind::Word),
    (b"1", TokenKind::Number(1)),
    (b".", TokenKind::Punctuator(Punctuator::Dot)),
    (b"2", TokenKind::Number(2)),
    (b".", TokenKind::Punctuator(Punctuator::Dot)),
    (b"3", TokenKind::Number(3)),
    (b"a-b./c", TokenKind::Word),
    (b"\"#;{\xff\"", TokenKind::String),
];

/// The largest numbers.
const LARGEST: &[ExpectedToken] = &[
    (
        b"18446744073709551615",
        TokenKind::Number(18_446_744_073_709_551_615),
    ),
    (
        b"0x00ffffffffffffffff",
        TokenKind::Number(18_446_744_073_709_551_615),
    ),
    (b"255.255.255.255", TokenKind::Address(0xffff_ffff)),
];

static LEXED: [(&[u8], &[ExpectedToken]); 4] = [
    (
        b"tcp dport != 22 # x\n0x1fF \"a b\" 1.2.3.4.80 80accept \\\n\t<=\r=<=0x",
        MANY,
    ),
    (b"0X1 1.2.3 a-b./c \"#;{\xff\"", NEARLY),
    (
        b"18446744073709551615 0x00ffffffffffffffff 255.255.255.255",
        LARGEST,
    ),
    (b"# x", &[]),
];

/// Whether the token has this text and kind; the bytes of a string are those between its quotes.
fn is_expected(token: &Token, wanted: &ExpectedToken) -> bool {
    let (text, kind) = *wanted;
    token.text == text
        && match (token.kind, kind) {
            (TokenKind::NewLine, TokenKind::NewLine) | (TokenKind::Word, TokenKind::Word) => true,
            (TokenKind::Punctuator(mark), TokenKind::Punctuator(wanted)) => mark == wanted,
            (TokenKind::Number(number), TokenKind::Number(wanted)) => number == wanted,
            (TokenKind::Address(address), TokenKind::Address(wanted)) => address == wanted,
            (TokenKind::String, TokenKind::String) => {
                text.get(1..text.len().saturating_sub(1)) == Some(token.between_quotes())
            }
            _ => false,
        }
}

/// Whether these are exactly the expected tokens.
fn are_expected(tokens: &[Token], wanted: &[ExpectedToken]) -> bool {
    for index in 0..tokens.len() {
        match wanted.get(index) {
            Some(expected) if is_expected(&tokens[index], expected) => {}
            _ => return false,
        }
    }
    tokens.len() == wanted.len()
}

/// Whether the text has exactly these tokens.
fn lexes_to(alloc: Global, text: &[u8], wanted: &[ExpectedToken]) -> bool {
    match lex(alloc, text) {
        Ok(tokens) => are_expected(&tokens, wanted),
        Err(_) => false,
    }
}

#[test]
fn texts_are_lexed(rt: HostRuntime) {
    for row in 0..LEXED.len() {
        let (text, wanted) = LEXED[row];
        check_row(&rt, row, lexes_to(rt.alloc(), text, wanted));
    }
}

static PUNCTUATORS: [(&[u8], Punctuator); 21] = [
    (b"{", Punctuator::OpenBrace),
    (b"}", Punctuator::CloseBrace),
    (b"(", Punctuator::OpenParenthesis),
    (b")", Punctuator::CloseParenthesis),
    (b",", Punctuator::Comma),
    (b";", Punctuator::Semicolon),
    (b":", Punctuator::Colon),
    (b".", Punctuator::Dot),
    (b"/", Punctuator::Slash),
    (b"-", Punctuator::Minus),
    (b"+", Punctuator::Plus),
    (b"=", Punctuator::Equals),
    (b"@", Punctuator::At),
    (b"&", Punctuator::Ampersand),
    (b"|", Punctuator::Bar),
    (b"==", Punctuator::EqualTo),
    (b"!=", Punctuator::NotEqualTo),
    (b"<=", Punctuator::AtMost),
    (b">=", Punctuator::AtLeast),
    (b"<", Punctuator::Below),
    (b">", Punctuator::Above),
];

#[test]
fn punctuators_are_told_apart(rt: HostRuntime) {
    for row in 0..PUNCTUATORS.len() {
        let (text, mark) = PUNCTUATORS[row];
        let wanted = [(text, TokenKind::Punctuator(mark))];
        check_row(&rt, row, lexes_to(rt.alloc(), text, &wanted));
    }
}

/// Whether the text has as many tokens, or this fault.
fn counts(alloc: Global, text: &[u8], wanted: Result<usize, LexFault>) -> bool {
    match lex(alloc, text) {
        Ok(tokens) => wanted == Ok(tokens.len()),
        Err(LexError::Refused(fault)) => wanted == Err(fault),
        Err(LexError::Memory) => false,
    }
}

static FAULTS: [(&[u8], Result<usize, LexFault>); 14] = [
    (b"{ 22,\n10.0.0.0/8 comment \"ten\", }", Ok(11)),
    (b"accept\n$ 007", Err(LexFault::Byte { line: 2 })),
    (b"!", Err(LexFault::Byte { line: 1 })),
    (b"a \\\nb \\", Err(LexFault::Byte { line: 2 })),
    (
        b"table ip t { comment \"x",
        Err(LexFault::OpenString { line: 1 }),
    ),
    (b"\n\"x\n\"", Err(LexFault::OpenString { line: 2 })),
    (b"ip saddr 1.2.3.256", Err(LexFault::Number { line: 1 })),
    (b"# x\nmeta mark 007", Err(LexFault::Number { line: 2 })),
    (
        b"table ip t { chain a { accept $ } }",
        Err(LexFault::Byte { line: 1 }),
    ),
    (
        b"table ip t { chain a { ip saddr 1.2.3.256 drop } }",
        Err(LexFault::Number { line: 1 }),
    ),
    (
        b"table ip t { chain a { meta mark 007 drop } }",
        Err(LexFault::Number { line: 1 }),
    ),
    (b"1.2.3.0004", Err(LexFault::Number { line: 1 })),
    (b"a \\\r\n", Err(LexFault::Byte { line: 1 })),
    (b"18446744073709551616", Err(LexFault::Number { line: 1 })),
];

#[test]
fn first_faults_are_reported(rt: HostRuntime) {
    for row in 0..FAULTS.len() {
        let (text, wanted) = FAULTS[row];
        check_row(&rt, row, counts(rt.alloc(), text, wanted));
    }
}

/// A text as a beginning, a repeated piece and an end; the number of its tokens, or its fault.
type Long = (
    &'static [u8],
    &'static [u8],
    usize,
    &'static [u8],
    Result<usize, LexFault>,
);

/// A comment of 1,048,576 bytes, a longer one, and thousands of tokens with and without a fault.
static LONG: [Long; 4] = [
    (b"#", b"a", 1_048_575, b"", Ok(0)),
    (b"#", b"a", 1_048_576, b"", Err(LexFault::TooLong)),
    (b"", b"accept;\n", 100_000, b"", Ok(300_000)),
    (
        b"",
        b"accept;\n",
        100_000,
        b"$",
        Err(LexFault::Byte { line: 100_001 }),
    ),
];

/// Whether the text has as many tokens as the row says, or its fault.
fn is_counted<R: Abort + AllocGlobal>(rt: &R, row: &Long) -> bool {
    let (beginning, piece, times, end, wanted) = *row;
    let text = repeated(rt, beginning, piece, times, end);
    counts(rt.alloc(), &text, wanted)
}

#[test]
fn long_texts_are_lexed(rt: HostRuntime) {
    for row in 0..LONG.len() {
        check_row(&rt, row, is_counted(&rt, &LONG[row]));
    }
}
