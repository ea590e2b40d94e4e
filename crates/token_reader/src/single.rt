//! Single tokens.

ghost use Rattle.std.specs.Prelude.{◌≡◌, option_map, IfSome};
ghost use Rattle.token_reader.specs.Grammar.{a_number, a_string, keyword, punctuation, ◌▹◌};
ghost use Rattle.token_reader.specs.Readers.{IsAfter, IsRead, remaining};
ghost use Rattle.token_reader.specs.steps.Reading.{after_word, after_punctuator, word_at, number_at, address_at, string_at};

use nft_lexer::{Punctuator, Token, TokenKind};

/// The position after this word, if it is at `at`.
pub fn after_word(tokens: &[Token], at: usize, word: &[u8]) -> Option<usize>
    ensures read { option_map (remaining tokens.now) result
        ≡ after_word word.now (remaining tokens.now at) }
    ensures within { IfSome result (IsAfter tokens.now at) }
{
    let token = tokens.get(at)?;
    match token.kind {
        TokenKind::Word if token.text == word => Some(at + 1),
        _ => None,
    }
}

/// The position after this punctuator, if it is at `at`.
pub fn after_punctuator(tokens: &[Token], at: usize, punctuator: Punctuator) -> Option<usize>
    ensures read { option_map (remaining tokens.now) result
        ≡ after_punctuator punctuator (remaining tokens.now at) }
    ensures within { IfSome result (IsAfter tokens.now at) }
{
    match tokens.get(at)?.kind {
        TokenKind::Punctuator(found) if found == punctuator => Some(at + 1),
        _ => None,
    }
}

/// The word at `at`, and the position after it.
pub fn word<'t>(tokens: &[Token<'t>], at: usize) -> Option<(&'t [u8], usize)>
    ensures read { option_map (λ x. (x.0.now, remaining tokens.now x.1)) result
        ≡ word_at (remaining tokens.now at) }
    ensures within { IfSome result (λ x. IsAfter tokens.now at x.1) }
{
    let token = tokens.get(at)?;
    match token.kind {
        TokenKind::Word => Some((token.text, at + 1)),
        _ => None,
    }
}

/// The number at `at`, and the position after it.
pub fn number(tokens: &[Token], at: usize) -> Option<(u64, usize)>
    ensures read { option_map (λ x. (x.0, remaining tokens.now x.1)) result
        ≡ number_at (remaining tokens.now at) }
    ensures within { IfSome result (λ x. IsAfter tokens.now at x.1) }
{
    match tokens.get(at)?.kind {
        TokenKind::Number(found) => Some((found, at + 1)),
        _ => None,
    }
}

/// The IPv4 address at `at` in host byte order (the first octet is the most significant), and the
/// position after it.
pub fn address(tokens: &[Token], at: usize) -> Option<(u32, usize)>
    ensures read { option_map (λ x. (x.0, remaining tokens.now x.1)) result
        ≡ address_at (remaining tokens.now at) }
    ensures within { IfSome result (λ x. IsAfter tokens.now at x.1) }
{
    match tokens.get(at)?.kind {
        TokenKind::Address(found) => Some((found, at + 1)),
        _ => None,
    }
}

/// The bytes between the quotes of the string at `at`, and the position after it.
pub fn string<'t>(tokens: &[Token<'t>], at: usize) -> Option<(&'t [u8], usize)>
    ensures read { option_map (λ x. (x.0.now, remaining tokens.now x.1)) result
        ≡ string_at (remaining tokens.now at) }
    ensures within { IfSome result (λ x. IsAfter tokens.now at x.1) }
{
    let token = tokens.get(at)?;
    match token.kind {
        TokenKind::String => Some((token.between_quotes(), at + 1)),
        _ => None,
    }
}

/// The string after this word, if both are at `at`, and the position after it.
pub fn string_after<'t>(tokens: &[Token<'t>], at: usize, word: &[u8]) -> Option<(&'t [u8], usize)>
    ensures { IsRead (λ x. x.now) (keyword word.now ▹ a_string).read tokens.now at result }
{
    let at = after_word(tokens, at, word)?;
    string(tokens, at)
}

/// The number after this punctuator, if both are at `at`, and the position after it.
pub fn number_after(tokens: &[Token], at: usize, punctuator: Punctuator) -> Option<(u64, usize)>
    ensures { IsRead (λ n. n) (punctuation punctuator ▹ a_number).read tokens.now at result }
{
    let at = after_punctuator(tokens, at, punctuator)?;
    number(tokens, at)
}
