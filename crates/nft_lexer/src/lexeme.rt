//! Lexemes: blanks, comments, and the spellings of tokens (nft(8), "Lexical conventions").
ghost use Rattle.std.specs.Prelude.{◌≡◌, ◌≤◌, length, option_map};
ghost use Rattle.std.specs.List.{prefix_len};
ghost use Rattle.nft_lexer.specs.Lexing.{continues_word, punctuation, is_string_byte};
ghost use Rattle.nft_lexer.specs.steps.Reading.{after_byte, behind, class_of, continues_run};
ghost use Rattle.nft_lexer.specs.steps.Reading.{dotted_quad_at, hexadecimal_at, is_zero, next_octet_at, number_at};
ghost use Rattle.nft_lexer.specs.steps.Reading.{long_punctuator_at, long_punctuators, punctuator_at, punctuator_from};
ghost use Rattle.nft_lexer.specs.steps.Reading.{lexeme_at, run_at, scanned_kind};
ghost use Rattle.nft_lexer.specs.steps.Reading.{short_punctuators};

use crate::number::{address, decimal, value};
use crate::token::{Punctuator, TokenKind};

/// Bytes by the lexemes that they may start.
#[derive(Clone, Copy)]
pub(crate) enum Class {
    Blank,
    LineEnd,
    Backslash,
    Hash,
    Quote,
    Digit,
    Letter,
    Other,
}

/// A run of bytes, by its members.
#[derive(Clone, Copy)]
enum Run {
    Word,
    /// All bytes before the newline.
    Line,
    /// All bytes before the next quote or the newline.
    String,
    Decimal,
    Hexadecimal,
}

/// A lexeme by its token.
#[derive(Clone, Copy)]
pub(crate) enum LexemeKind {
    /// No token: a blank, a backslash with the newline after it, or a comment.
    Blank,
    Token(TokenKind),
    /// A number; `None` if it is out of range.
    Number(Option<u64>),
    /// An address; `None` if an octet is out of range.
    Address(Option<u32>),
}

fn class_of(byte: u8) -> Class
    ensures { result ≡ class_of byte }
{
    match byte {
        b'0'..=b'9' => Class::Digit,
        b'a'..=b'z' | b'A'..=b'Z' | b'_' => Class::Letter,
        b' ' | b'\t' | b'\r' => Class::Blank,
        b'\n' => Class::LineEnd,
        b'\\' => Class::Backslash,
        b'#' => Class::Hash,
        b'"' => Class::Quote,
        _ => Class::Other,
    }
}

/// The punctuator that is this byte.
fn punctuator_of(byte: u8) -> Option<Punctuator>
    ensures { result ≡ punctuator_from byte short_punctuators }
{
    match byte {
        b'{' => Some(Punctuator::OpenBrace),
        b'}' => Some(Punctuator::CloseBrace),
        b'(' => Some(Punctuator::OpenParenthesis),
        b')' => Some(Punctuator::CloseParenthesis),
        b',' => Some(Punctuator::Comma),
        b';' => Some(Punctuator::Semicolon),
        b':' => Some(Punctuator::Colon),
        b'.' => Some(Punctuator::Dot),
        b'/' => Some(Punctuator::Slash),
        b'-' => Some(Punctuator::Minus),
        b'+' => Some(Punctuator::Plus),
        b'=' => Some(Punctuator::Equals),
        b'@' => Some(Punctuator::At),
        b'&' => Some(Punctuator::Ampersand),
        b'|' => Some(Punctuator::Bar),
        b'<' => Some(Punctuator::Below),
        b'>' => Some(Punctuator::Above),
        _ => None,
    }
}

/// The punctuator that is this byte and `=`.
fn punctuator_before_equals(byte: u8) -> Option<Punctuator>
    ensures { result ≡ punctuator_from byte long_punctuators }
{
    match byte {
        b'=' => Some(Punctuator::EqualTo),
        b'!' => Some(Punctuator::NotEqualTo),
        b'<' => Some(Punctuator::AtMost),
        b'>' => Some(Punctuator::AtLeast),
        _ => None,
    }
}

/// Whether the byte continues a word.
fn continues_word(byte: u8) -> bool
    ensures { result ≡ continues_word byte }
{
    byte.is_ascii_alphanumeric() || byte == b'_' || byte == b'-' || byte == b'.' || byte == b'/'
}

/// Whether the byte continues the run.
fn continues_run(run: Run, byte: u8) -> bool
    ensures { result ≡ continues_run run byte }
{
    match run {
        Run::Word => continues_word(byte),
        Run::Line => byte != b'\n',
        Run::String => byte != b'"' && byte != b'\n',
        Run::Decimal => byte.is_ascii_digit(),
        Run::Hexadecimal => byte.is_ascii_hexdigit(),
    }
}

/// The length of the leading run.
fn run_length(run: Run, text: &[u8]) -> usize
    ensures value { result ≡ prefix_len (continues_run run) text.now }
    ensures within { result ≤ length text.now }
{
    text.iter()
        .take_while(|byte| continues_run(run, **byte))
        .count()
}

/// The leading run, at least one byte, and the rest of the text.
#[tactic(auto, unfolding(crate::specs::steps::Reading::run_at))]
fn some_run<'t>(run: Run, text: &'t [u8]) -> Option<(&'t [u8], &'t [u8])>
    ensures { option_map (λ x. (x.0.now, x.1.now)) result
        ≡ run_at (continues_run run) text.entry.now }
{
    let [first, rest @ ..] = text else {
        return None;
    };
    if !continues_run(run, *first) {
        return None;
    }
    Some(text.split_at(1 + run_length(run, rest)))
}

fn is_zero(digits: &[u8]) -> bool
    ensures { result ≡ is_zero digits.now }
{
    digits.len() == 1 && digits[0] == b'0'
}

/// The hexadecimal number whose digits before the `x` are these, and the rest of the text.
#[tactic(auto, unfolding(crate::specs::steps::Reading::hexadecimal_at))]
fn hexadecimal<'t>(first: &'t [u8], text: &'t [u8]) -> Option<(LexemeKind, &'t [u8])>
    ensures { option_map (λ x. (x.0, x.1.now)) result
        ≡ scanned_kind (hexadecimal_at first.entry.now text.entry.now) }
{
    let [b'x', rest @ ..] = text else {
        return None;
    };
    if !is_zero(first) {
        return None;
    }
    let (digits, rest) = some_run(Run::Hexadecimal, rest)?;
    Some((LexemeKind::Number(value(digits, 16)), rest))
}

/// The digits after a dot, and the rest of the text.
#[tactic(auto, unfolding(crate::specs::steps::Reading::next_octet_at))]
fn next_octet<'t>(text: &'t [u8]) -> Option<(&'t [u8], &'t [u8])>
    ensures { option_map (λ x. (x.0.now, x.1.now)) result ≡ next_octet_at text.entry.now }
{
    let [b'.', rest @ ..] = text else {
        return None;
    };
    some_run(Run::Decimal, rest)
}

/// The address whose first octet has these digits, and the rest of the text. The last octet takes
/// all digits that follow.
#[tactic(auto, unfolding(crate::specs::steps::Reading::dotted_quad_at))]
fn address_after_octet<'t>(first: &'t [u8], text: &'t [u8]) -> Option<(LexemeKind, &'t [u8])>
    ensures { option_map (λ x. (x.0, x.1.now)) result
        ≡ scanned_kind (dotted_quad_at first.entry.now text.entry.now) }
{
    let (second, rest) = next_octet(text)?;
    let (third, rest) = next_octet(rest)?;
    let (fourth, rest) = next_octet(rest)?;
    Some((
        LexemeKind::Address(address(first, second, third, fourth)),
        rest,
    ))
}

/// The leading number or address, and the rest of the text. Both start with digits; what follows
/// them decides.
#[tactic(auto, unfolding(crate::specs::steps::Reading::number_at))]
fn number<'t>(text: &'t [u8]) -> Option<(LexemeKind, &'t [u8])>
    ensures { option_map (λ x. (x.0, x.1.now)) result ≡ scanned_kind (number_at text.entry.now) }
{
    let (digits, rest) = some_run(Run::Decimal, text)?;
    if let Some(found) = hexadecimal(digits, rest) {
        return Some(found);
    }
    if let Some(found) = address_after_octet(digits, rest) {
        return Some(found);
    }
    Some((LexemeKind::Number(decimal(digits)), rest))
}

/// The rest of the text after a string whose first quote is before it.
fn after_string<'t>(text: &'t [u8]) -> Option<&'t [u8]>
    ensures { option_map (λ rest. rest.now) result
        ≡ after_byte 34 (behind is_string_byte text.entry.now) }
{
    let [b'"', rest @ ..] = &text[run_length(Run::String, text)..] else {
        return None;
    };
    Some(rest)
}

/// The punctuator of the byte before the text and a leading `=`, and the rest of the text.
#[tactic(auto, unfolding(crate::specs::steps::Reading::long_punctuator_at))]
fn long_punctuator<'t>(first: u8, text: &'t [u8]) -> Option<(Punctuator, &'t [u8])>
    ensures { option_map (λ x. (punctuation x.0, x.1.now)) result
        ≡ long_punctuator_at first text.entry.now }
{
    let punctuator = punctuator_before_equals(first)?;
    let [b'=', rest @ ..] = text else {
        return None;
    };
    Some((punctuator, rest))
}

/// The punctuator that starts with the byte before the text, of two bytes where that is one, and
/// the rest of the text.
#[tactic(auto, unfolding(crate::specs::steps::Reading::punctuator_at))]
fn punctuator<'t>(first: u8, text: &'t [u8]) -> Option<(Punctuator, &'t [u8])>
    ensures { option_map (λ x. (punctuation x.0, x.1.now)) result
        ≡ punctuator_at first text.entry.now }
{
    if let Some(found) = long_punctuator(first, text) {
        return Some(found);
    }
    Some((punctuator_of(first)?, text))
}

/// The longest leading lexeme, and the rest of the text.
#[tactic(auto, unfolding(crate::specs::steps::Reading::lexemes))]
pub(crate) fn next_lexeme<'t>(text: &'t [u8]) -> Option<(LexemeKind, &'t [u8])>
    ensures { option_map (λ x. (x.0, x.1.now)) result ≡ scanned_kind (lexeme_at text.entry.now) }
{
    let [first, rest @ ..] = text else {
        return None;
    };
    match class_of(*first) {
        Class::Blank => Some((LexemeKind::Blank, rest)),
        Class::LineEnd => Some((LexemeKind::Token(TokenKind::NewLine), rest)),
        Class::Backslash => {
            let [b'\n', rest @ ..] = rest else {
                return None;
            };
            Some((LexemeKind::Blank, rest))
        }
        Class::Hash => Some((LexemeKind::Blank, &rest[run_length(Run::Line, rest)..])),
        Class::Quote => Some((LexemeKind::Token(TokenKind::String), after_string(rest)?)),
        Class::Digit => number(text),
        Class::Letter => Some((
            LexemeKind::Token(TokenKind::Word),
            &rest[run_length(Run::Word, rest)..],
        )),
        Class::Other => {
            let (punctuator, rest) = punctuator(*first, rest)?;
            Some((LexemeKind::Token(TokenKind::Punctuator(punctuator)), rest))
        }
    }
}
