//! Lists in braces.
ghost use Rattle.std.specs.Prelude.{◌≡◌, ◌+◌, ◌-◌, ◌<◌, ◌≤◌, Some, drop, length, map, take, option_map, IfOk, IfSome};
ghost use Rattle.nft_lexer.specs.TokenViews.{terminal_of, terminals};
ghost use Rattle.token_reader.specs.Readers.{IsRead, remaining};
ghost use Rattle.nft_expressions.specs.steps.Reading.{after_plain, at_brace, enclosed_at, inside_at, comma_separated_at, up_to_brace_at};

use nft_lexer::{Punctuator, Token, TokenKind};
use nft_tree::Memory;
use std::alloc::Global;
use token_reader::{Comma, Production, after_punctuator, found, separated};

/// A production for the parts of a list in braces.
pub(crate) trait InBraces: Production {
    /// The fewest tokens of a part, with the comma after it: sizes the list before it is read, and
    /// means nothing else.
    fn fewest_tokens() -> usize
        ensures { 0 < result };
}

/// The token at `at`, unless it is a closing brace, and the position after it.
fn inside<'t>(tokens: &[Token<'t>], at: usize) -> Option<(Token<'t>, usize)>
    ensures { IsRead (λ t. terminal_of t.kind t.text.now) inside_at tokens.now at result }
{
    let token = tokens.get(at)?;
    match token.kind {
        TokenKind::Punctuator(Punctuator::CloseBrace) => None,
        _ => Some((*token, at + 1)),
    }
}

/// The tokens from `at` up to the first closing brace, without newlines, and the position of that
/// brace, or the end if there is none.
///
/// # Errors
///
/// `Memory` if an allocation was refused.
pub fn enclosed<'t>(
    alloc: Global,
    tokens: &[Token<'t>],
    at: usize,
) -> Result<(Vec<Token<'t>>, usize), Memory>
    ensures read { IfOk result (λ x. enclosed_at (remaining tokens.now at)
        ≡ at_brace (terminals x.0.items) (remaining tokens.now x.1)) }
    ensures within { IfOk result (λ x. at + length x.0.items ≤ x.1) }
{
    let mut kept = Vec::new(alloc);
    let mut here = at;
    while let Some((token, after)) = inside(tokens, here) {
        here = after;
        if let TokenKind::NewLine = token.kind {
            continue;
        }
        kept.push(token)?;
    }
    Ok((kept, here))
}

/// The position after the token at `at`, unless it is a newline or a closing brace.
fn after_plain(tokens: &[Token], at: usize) -> Option<usize>
    ensures read { option_map (remaining tokens.now) result
        ≡ after_plain (remaining tokens.now at) }
    ensures next { IfSome result (λ end. end ≡ at + 1) }
{
    match tokens.get(at)?.kind {
        TokenKind::NewLine | TokenKind::Punctuator(Punctuator::CloseBrace) => None,
        _ => Some(at + 1),
    }
}

/// The position of the first closing brace, if no newline comes before it.
fn unbroken(tokens: &[Token], at: usize) -> Option<usize>
    ensures read { IfSome result (λ brace. enclosed_at (remaining tokens.now at)
        ≡ Some (terminals (take (brace - at) (drop at tokens.now)), remaining tokens.now brace)) }
    ensures within { IfSome result (λ brace. (at ≤ brace) × (brace ≤ length tokens.now)) }
{
    let mut here = at;
    while let Some(after) = after_plain(tokens, here) {
        here = after;
    }
    after_punctuator(tokens, here, Punctuator::CloseBrace)?;
    Some(here)
}

/// x {"," x} [","], all of the tokens
#[tactic(auto, unfolding(crate::specs::steps::Reading::comma_separated_at))]
fn comma_separated<P: InBraces>(
    alloc: Global,
    tokens: &[Token],
) -> Result<Option<Vec<P::Item>>, Memory>
    ensures read { IfOk result (λ o. option_map (λ found. map P.tree found.items) o
        ≡ comma_separated_at P.read_at (terminals tokens.now)) }
    ensures some { IfOk result (λ o. IfSome o (λ _. 0 < length tokens.now)) }
{
    let room = tokens.len().div_ceil(P::fewest_tokens());
    let (found, end) = found!(separated::<Comma, P>(alloc, tokens, 0, room)?);
    if after_punctuator(tokens, end, Punctuator::Comma).unwrap_or(end) < tokens.len() {
        return Ok(None);
    }
    Ok(Some(found))
}

/// x {"," x} [","] up to the closing brace, newlines skipped, and the position of that brace.
#[tactic(auto, unfolding(crate::specs::steps::Reading::up_to_brace_at))]
pub(crate) fn up_to_brace<P: InBraces>(
    alloc: Global,
    tokens: &[Token],
    at: usize,
) -> Result<Option<(Vec<P::Item>, usize)>, Memory>
    ensures { IfOk result (IsRead (λ found. map P.tree found.items) (up_to_brace_at P.read_at)
        tokens.now at) }
{
    if let Some(brace) = unbroken(tokens, at) {
        let found = found!(comma_separated::<P>(alloc, &tokens[at..brace])?);
        return Ok(Some((found, brace)));
    }
    let (inner, brace) = enclosed(alloc, tokens, at)?;
    found!(after_punctuator(tokens, brace, Punctuator::CloseBrace));
    let found = found!(comma_separated::<P>(alloc, &inner)?);
    Ok(Some((found, brace)))
}
