//! Newlines and semicolons: they end statements and fields (nft(8), "Lexical conventions").

ghost use Rattle.std.specs.Prelude.{◌≡◌, ◌≤◌, length, option_map, IfSome};
ghost use Rattle.token_reader.specs.Readers.{IsAfter, remaining};
ghost use Rattle.token_reader.specs.Repeats.{is_rule_end};
ghost use Rattle.token_reader.specs.steps.Reading.{after_end, after_ends, skip_ends};

use nft_lexer::{Punctuator, Token, TokenKind};

/// The position after the newline or semicolon at `at`.
pub fn after_end(tokens: &[Token], at: usize) -> Option<usize>
    ensures read { option_map (remaining tokens.now) result ≡ after_end (remaining tokens.now at) }
    ensures within { IfSome result (IsAfter tokens.now at) }
{
    match tokens.get(at)?.kind {
        TokenKind::NewLine | TokenKind::Punctuator(Punctuator::Semicolon) => Some(at + 1),
        _ => None,
    }
}

/// The position after all newlines and semicolons at `at`.
pub fn skip_ends(tokens: &[Token], at: usize) -> usize
    ensures read { remaining tokens.now result ≡ skip_ends (remaining tokens.now at) }
    ensures within { (at ≤ result) × (at ≤ length tokens.now → result ≤ length tokens.now) }
{
    let mut here = at;
    while let Some(after) = after_end(tokens, here) {
        here = after;
    }
    here
}

/// The same; `None` if there is none.
pub fn after_ends(tokens: &[Token], at: usize) -> Option<usize>
    ensures read { option_map (remaining tokens.now) result ≡ after_ends (remaining tokens.now at) }
    ensures within { IfSome result (IsAfter tokens.now at) }
{
    let at = after_end(tokens, at)?;
    Some(skip_ends(tokens, at))
}

/// Whether the token at `at` is a newline, a semicolon or a closing brace: what ends a rule.
pub fn is_rule_end(tokens: &[Token], at: usize) -> bool
    ensures { result ≡ is_rule_end (remaining tokens.now at) }
{
    match tokens.get(at) {
        Some(token) => matches!(
            token.kind,
            TokenKind::NewLine
                | TokenKind::Punctuator(Punctuator::Semicolon | Punctuator::CloseBrace)
        ),
        None => false,
    }
}
