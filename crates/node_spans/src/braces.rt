//! Lists in braces: there may be newlines anywhere among their tokens.
ghost use Rattle.std.specs.Prelude.{◌≡◌, ◌+◌, ◌<◌, ◌≤◌, List, drop, length, option_map, IfOk};
ghost use Rattle.nft_lexer.specs.declared.token.Punctuator.TheVariants as punctuators;
ghost use Rattle.nft_lexer.specs.TokenViews.{terminals};
ghost use Rattle.token_reader.specs.Readers.{remaining};
ghost use Rattle.token_reader.specs.Repeats.{without_newlines};
ghost use Rattle.token_reader.specs.steps.Reading.{after_punctuator};
ghost use Rattle.node_spans.specs.steps.Reading.{AreRead, AreReadInBraces};

use crate::token_range::TokenRange;
use nft_expressions::enclosed;
use nft_lexer::{Punctuator, Token, TokenKind};
use nft_tree::Memory;
use std::alloc::Global;
use token_reader::{Production, after_punctuator};

/// The position of the first token from `at` on that is no newline, or the end.
fn next_token(tokens: &[Token], at: usize) -> usize
    requires { at ≤ length tokens.now }
    ensures here { without_newlines (remaining tokens.now result)
        ≡ without_newlines (remaining tokens.now at) }
    ensures after { without_newlines (remaining tokens.now (result + 1))
        ≡ drop 1 (without_newlines (remaining tokens.now at)) }
    ensures within { (at ≤ result) × (result ≤ length tokens.now) }
{
    for place in at..tokens.len() {
        if !matches!(tokens[place].kind, TokenKind::NewLine) {
            return place;
        }
    }
    tokens.len()
}

/// The position after the next `count` tokens from `at` on, newlines not counted.
fn after_tokens(tokens: &[Token], at: usize, count: usize) -> usize
    requires within { at ≤ length tokens.now }
    requires enough { count ≤ length (without_newlines (remaining tokens.now at)) }
    ensures read { without_newlines (remaining tokens.now result)
        ≡ drop count (without_newlines (remaining tokens.now at)) }
    ensures within { (at + count ≤ result) × (result ≤ length tokens.now) }
{
    let mut here = at;
    for _step in 0..count {
        here = next_token(tokens, here) + 1;
    }
    here
}

/// The ranges of the parts of x {"," x} in the tokens from `at` on, of which `inner` are those that
/// are no newlines.
fn comma_separated<P: Production>(
    alloc: Global,
    tokens: &[Token],
    at: usize,
    inner: &[Token],
) -> Result<Vec<TokenRange>, Memory>
    requires within { at ≤ length tokens.now }
    requires inner { terminals inner.now ≡ without_newlines (remaining tokens.now at) }
    ensures { IfOk result (λ found. AreRead P.read_at (after_punctuator punctuators.Comma)
        (λ place. without_newlines (remaining tokens.now place)) (length tokens.now) at
        found.items) }
{
    let mut found = Vec::new(alloc);
    let mut here = 0;
    let mut place = at;
    while let Some((_part, end)) = P::read(alloc, inner, here)? {
        let first = next_token(tokens, place);
        let last = after_tokens(tokens, first, end - here);
        found.push(TokenRange { first, end: last })?;
        let Some(next) = after_punctuator(inner, end, Punctuator::Comma) else {
            return Ok(found);
        };
        here = next;
        place = after_tokens(tokens, last, next - end);
    }
    Ok(found)
}

/// The ranges of the parts of the list in braces of which the opening one stands before `at`;
/// `None` if it is not closed.
pub(crate) fn in_braces<P: Production>(
    alloc: Global,
    tokens: &[Token],
    at: usize,
) -> Result<Option<Vec<TokenRange>>, Memory>
    ensures { IfOk result (λ o. AreReadInBraces P.read_at tokens.now at
        (option_map (λ found. found.items) o)) }
{
    let (inner, close) = enclosed(alloc, tokens, at)?;
    let Some(_end) = after_punctuator(tokens, close, Punctuator::CloseBrace) else {
        return Ok(None);
    };
    let found = comma_separated::<P>(alloc, &tokens[..close], at, &inner)?;
    Ok(Some(found))
}
