//! The lexer's main loop.
ghost use Rattle.std.specs.Prelude.{◌≡◌, ◌<◌, ◌≤◌, ◌↔◌, ◌⊎◌, ◌++◌, ◌-◌, Err, IfOk, IfSome, OnOk, List, [], length, map, ok_or, option_to_list, take, MatchResult};
ghost use Rattle.nft_lexer.specs.declared.fault.LexFault.{LexFault};
ghost use Rattle.nft_lexer.specs.Terminal.{LexedToken};
ghost use Rattle.nft_lexer.specs.TokenViews.{spelled};
ghost use Rattle.nft_lexer.specs.Places.{AllStand, FaultStandsAt};
ghost use Rattle.nft_lexer.specs.Lexing.{FirstFault, HasLexFault, TokenizesTo, MOST_BYTES, line_after};
ghost use Rattle.nft_lexer.specs.steps.Reading.{listed, next_at, at_line, map_ok, tokens_of};

use crate::fault::{LexError, LexFault};
use crate::lexeme::{LexemeKind, next_lexeme};
use crate::token::{Token, TokenKind};
use std::alloc::{AllocError, Global};

/// The greatest size of a ruleset in bytes.
const MOST_BYTES: usize = 1_048_576;

/// A fault without its line.
#[derive(Clone, Copy)]
enum Fault {
    Byte,
    OpenString,
    Number,
}

/// The fault with its line.
fn at_line(fault: Fault, line: u32) -> LexFault
    ensures { result ≡ at_line fault line }
{
    match fault {
        Fault::Byte => LexFault::Byte { line },
        Fault::OpenString => LexFault::OpenString { line },
        Fault::Number => LexFault::Number { line },
    }
}

/// The number of the line after these bytes, counted from 1.
fn line_after(done: &[u8]) -> u32
    requires { length done.now ≤ MOST_BYTES }
    ensures { result ≡ line_after done.now }
{
    done.iter().filter(|byte| **byte == b'\n').count() as u32 + 1
}

/// The token of a lexeme with these bytes, which begin at `start`; `None` for a blank.
fn token<'t>(lexeme: LexemeKind, text: &'t [u8], start: usize) -> Result<Option<Token<'t>>, Fault>
    ensures read { map_ok (listed spelled) result
        ≡ ok_or (tokens_of lexeme text.entry.now) Fault.Number }
    ensures place { IfOk result (λ o. IfSome o (λ t. (t.start ≡ start)
        × (t.text.now ≡ text.entry.now))) }
{
    let kind = match lexeme {
        LexemeKind::Blank => return Ok(None),
        LexemeKind::Token(kind) => kind,
        LexemeKind::Number(Some(number)) => TokenKind::Number(number),
        LexemeKind::Address(Some(address)) => TokenKind::Address(address),
        LexemeKind::Number(None) | LexemeKind::Address(None) => return Err(Fault::Number),
    };
    Ok(Some(Token { text, start, kind }))
}

/// The token of the leading lexeme of `rest`, if it has one, and what comes after it. The text ends
/// with `rest`.
#[tactic(auto, unfolding(crate::specs::steps::Reading::next_at))]
fn next<'t>(rest: &'t [u8], start: usize) -> Result<(Option<Token<'t>>, &'t [u8]), Fault>
    requires { 0 < length rest.now }
    ensures read { map_ok (λ x. (listed spelled x.0, x.1.now)) result ≡ next_at rest.entry.now }
    ensures place { IfOk result (λ x. IfSome x.0 (λ t. (t.start ≡ start)
        × (t.text.now ≡ take (length rest.entry.now - length x.1.now) rest.entry.now))) }
{
    let Some((lexeme, after)) = next_lexeme(rest) else {
        return Err(if rest[0] == b'"' {
            Fault::OpenString
        } else {
            Fault::Byte
        });
    };
    let token = token(lexeme, &rest[..rest.len() - after.len()], start)?;
    Ok((token, after))
}

/// Appends the token, if there is one.
fn append<'t>(found: &mut Vec<Token<'t>>, token: Option<Token<'t>>) -> Result<(), AllocError>
    ensures { OnOk result (found.new.items ≡ found.old.items ++ option_to_list token.entry) }
{
    if let Some(token) = token {
        found.push(token)?;
    }
    Ok(())
}

/// The tokens of the text, or its first fault. Lines are counted only for a fault.
fn tokens<'t>(alloc: Global, text: &'t [u8]) -> Result<Vec<Token<'t>>, LexError>
    requires { length text.now ≤ MOST_BYTES }
    ensures found { IfOk result (λ tokens. TokenizesTo text.entry.now (map spelled tokens.items)) }
    ensures places { IfOk result (λ tokens. AllStand text.entry.now [] tokens.items) }
    ensures fault { (fault : LexFault) → result ≡ Err (LexError.Refused fault)
        → FirstFault text.entry.now fault }
{
    // Few texts have more than one token for two bytes.
    let mut found = Vec::with_capacity(alloc, text.len() / 2)?;
    let mut rest = text;
    while !rest.is_empty() {
        let (token, after) = match next(rest, text.len() - rest.len()) {
            Ok(read) => read,
            Err(fault) => {
                let done = &text[..text.len() - rest.len()];
                return Err(LexError::Refused(at_line(fault, line_after(done))));
            }
        };
        append(&mut found, token)?;
        rest = after;
    }
    Ok(found)
}

/// Splits the text of a ruleset into tokens by longest match, without blanks and comments (nft(8),
/// "Lexical conventions").
///
/// # Errors
///
/// `Refused(TooLong)` if the text has more than 1,048,576 bytes; otherwise `Refused` with the first
/// fault of the text and its line. `Memory` if an allocation was refused, possible in place of any
/// answer but `TooLong`.
pub fn lex<'t>(alloc: Global, text: &'t [u8]) -> Result<Vec<Token<'t>>, LexError>
    // The tokens are a tokenization of the text.
    ensures found { IfOk result (λ tokens. TokenizesTo text.entry.now (map spelled tokens.items)) }
    // Each token begins where the bytes before it are those of the tokens before it.
    ensures places { IfOk result (λ tokens. AllStand text.entry.now [] tokens.items) }
    // The tokenization is unique: if the text has one, it is the answer, unless memory runs out.
    ensures only { (tokens : List LexedToken) → TokenizesTo text.entry.now tokens
        → MatchResult result (λ answer. map spelled answer.items ≡ tokens)
        (λ error. error ≡ LexError.Memory) }
    // A fault in the answer is the text's first.
    ensures fault { (fault : LexFault) → result ≡ Err (LexError.Refused fault)
        → HasLexFault text.entry.now fault }
    // If the text has a fault, that is the answer, unless memory runs out.
    ensures only_fault { (fault : LexFault) → HasLexFault text.entry.now fault
        → MatchResult result (λ _. ⊥) (λ error. (error ≡ LexError.Refused fault)
        ⊎ (error ≡ LexError.Memory)) }
    // `TooLong` is the answer exactly for a text that is too long.
    ensures long { (result ≡ Err (LexError.Refused LexFault.TooLong))
        ↔ (MOST_BYTES < length text.entry.now) }
{
    if text.len() > MOST_BYTES {
        return Err(LexError::Refused(LexFault::TooLong));
    }
    tokens(alloc, text)
}

/// Where the first fault of a text that isn't too long begins: so many bytes come before the byte,
/// the quote or the number that has it. The length of a text without a fault.
pub fn fault_start(text: &[u8]) -> usize
    ensures { (fault : LexFault) → FirstFault text.now fault → FaultStandsAt text.now result fault }
{
    let mut rest = text;
    while !rest.is_empty() {
        rest = match next(rest, 0) {
            Ok((_, after)) => after,
            Err(_) => return text.len() - rest.len(),
        };
    }
    text.len()
}
