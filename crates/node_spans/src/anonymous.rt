//! The elements of the anonymous sets and maps of statements.
ghost use Rattle.std.specs.Prelude.{◌≡◌, List, IfOk, IfSome, IsSomeAnd, Some, false, option_map};
ghost use Rattle.nft_lexer.specs.TokenViews.{terminal_of};
ghost use Rattle.nft_tree.specs.Tree.{ElementTree, PairTree, Statement};
ghost use Rattle.token_reader.specs.Readers.{IsAfter, remaining};
ghost use Rattle.nft_expressions.specs.Elements.{element, pair};
ghost use Rattle.nft_rules.specs.Rules.{statement};
ghost use Rattle.node_spans.specs.Spans.{AreInBraces, anonymous_map, anonymous_set};
ghost use Rattle.node_spans.specs.steps.Reading.{first_brace, is_map_word};

use crate::braces::in_braces;
use crate::token_range::TokenRange;
use nft_expressions::{MapPair, SetElement};
use nft_lexer::{Punctuator, Token, TokenKind};
use nft_tree::Memory;
use std::alloc::Global;

/// Whether the token is the word "map" or "vmap", behind which a map stands.
fn is_map_word(token: &Token) -> bool
    ensures { result ≡ is_map_word (terminal_of token.now.kind token.now.text.now) }
{
    match token.kind {
        TokenKind::Word => { token.text == b"map".as_slice() || token.text == b"vmap".as_slice() }
        _ => false,
    }
}

/// Whether the word "map" or "vmap" stands before the first opening brace from `at` on, and the
/// position after that brace.
fn first_brace(tokens: &[Token], at: usize) -> Option<(bool, usize)>
    ensures read { option_map (λ x. (x.0, remaining tokens.now x.1)) result
        ≡ first_brace false (remaining tokens.now at) }
    ensures within { IfSome result (λ x. IsAfter tokens.now at x.1) }
{
    let mut after_map = false;
    for place in at..tokens.len() {
        if let TokenKind::Punctuator(Punctuator::OpenBrace) = tokens[place].kind {
            return Some((after_map, place + 1));
        }
        after_map = is_map_word(&tokens[place]);
    }
    None
}

/// The ranges of the elements of the anonymous set, or of the pairs of the anonymous map, of the
/// statement at this range, in text order. `None` only if it has none.
///
/// # Errors
///
/// `Memory` if an allocation was refused.
pub fn anonymous_elements(
    alloc: Global,
    tokens: &[Token],
    range: TokenRange,
) -> Result<Option<Vec<TokenRange>>, Memory>
    ensures of_set { (s : Statement) (es : List ElementTree)
        → statement.spells s (remaining tokens.now range.first) (remaining tokens.now range.end)
        → anonymous_set s ≡ Some es → IfOk result (λ o. IsSomeAnd o (λ ranges.
        AreInBraces element tokens.now range.first range.end es ranges.items)) }
    ensures of_map { (s : Statement) (ps : List PairTree)
        → statement.spells s (remaining tokens.now range.first) (remaining tokens.now range.end)
        → anonymous_map s ≡ Some ps → IfOk result (λ o. IsSomeAnd o (λ ranges.
        AreInBraces pair tokens.now range.first range.end ps ranges.items)) }
{
    let Some((after_map, start)) = first_brace(tokens, range.first) else {
        return Ok(None);
    };
    if range.end <= start {
        return Ok(None);
    }
    if after_map {
        in_braces::<MapPair>(alloc, tokens, start)
    } else {
        in_braces::<SetElement>(alloc, tokens, start)
    }
}
