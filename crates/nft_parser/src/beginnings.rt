//! The beginnings of rulesets, and unsupported words.
ghost use Rattle.std.specs.Prelude.{◌≡◌, ◌++◌, true, List, IfOk, IfSome};
ghost use Rattle.nft_lexer.specs.TokenViews.{terminals};
ghost use Rattle.nft_lexer.specs.declared.token.Token.{Token};
ghost use Rattle.nft_parser.specs.Beginnings.{BeginsRuleset, IsUnsupportedAt};

use nft_lexer::{LexError, Token, lex};
use nft_rulesets::{has_unsupported, ruleset};
use std::alloc::{AllocError, Global};

/// Some tokens with those of a text behind them; none where that isn't one of tokens.
///
/// # Errors
/// `AllocError` for want of memory.
pub fn joined<'t>(
    alloc: Global,
    start: &[Token<'t>],
    text: &'t str,
) -> Result<Option<Vec<Token<'t>>>, AllocError>
    ensures { IfOk result (λ o. IfSome o (λ all. (more : List Token)
        × (all.items ≡ start.now ++ more))) }
{
    let mut all = start.to_vec(alloc)?;
    match lex(alloc, text.as_bytes()) {
        Ok(tokens) => all.extend_from_slice(&tokens)?,
        Err(LexError::Refused(_)) => return Ok(None),
        Err(LexError::Memory) => return Err(AllocError),
    }
    Ok(Some(all))
}

/// Whether some tokens spell a ruleset with a text behind them. Where they do, it begins with them.
///
/// # Errors
/// `AllocError` for want of memory.
pub fn begins(alloc: Global, start: &[Token<'_>], behind: &str) -> Result<bool, AllocError>
    ensures { IfOk result (λ found. found ≡ true → BeginsRuleset (terminals start.now)) }
{
    match joined(alloc, start, behind)? {
        Some(tokens) => Ok(ruleset(alloc, &tokens)?.is_some()),
        None => Ok(false),
    }
}

/// The first of the tokens from one on, up to another one, that is an unsupported word of nft(8).
pub fn unsupported_word(tokens: &[Token<'_>], first: usize, end: usize) -> Option<usize>
    ensures { IfSome result (IsUnsupportedAt tokens.now) }
{
    for at in first..end.min(tokens.len()) {
        if has_unsupported(&tokens[at..at + 1]) {
            return Some(at);
        }
    }
    None
}
