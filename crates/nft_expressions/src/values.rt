//! Values, ranges and comments.
ghost use Rattle.std.specs.Prelude.{◌≡◌, ◌≤◌, Some, length, option_map, IfOk};
ghost use Rattle.nft_tree.specs.TreeViews.{range_tree, value_tree};
ghost use Rattle.token_reader.specs.Grammar.{punctuation, ◌▹◌};
ghost use Rattle.token_reader.specs.Readers.{IsRead, Reads, remaining};
ghost use Rattle.nft_expressions.specs.Elements.{EndsComment, EndsRange, comment, range, value};
ghost use Rattle.nft_expressions.specs.steps.Reading.{one_or_prefix, range_after};

use nft_lexer::{Punctuator, Token, TokenKind};
use nft_tree::{Memory, Value, ValueRange};
use std::alloc::Global;
use token_reader::{after_punctuator, found, number_after, string_after};

/// A boxed copy of the bytes.
fn boxed(alloc: Global, bytes: &[u8]) -> Result<Box<Vec<u8>>, Memory>
    ensures { IfOk result (λ text. text.value.items ≡ bytes.now) }
{
    Ok(Box::new(alloc, Vec::from_slice(alloc, bytes)?)?)
}

/// value = NUM | ADDR | WORD | STRING
pub(crate) fn value(
    alloc: Global,
    tokens: &[Token],
    at: usize,
) -> Result<Option<(Value, usize)>, Memory>
    ensures { IfOk result (IsRead value_tree value.read tokens.now at) }
{
    let token = found!(tokens.get(at));
    let value = match token.kind {
        TokenKind::Number(number) => Value::Number(number),
        TokenKind::Address(address) => Value::Address(address),
        TokenKind::Word => Value::Word(boxed(alloc, token.text)?),
        TokenKind::String => Value::String(boxed(alloc, token.between_quotes())?),
        TokenKind::NewLine | TokenKind::Punctuator(_) => return Ok(None),
    };
    Ok(Some((value, at + 1)))
}

/// The value after this punctuator, if both are at `at`, and the position after it.
pub(crate) fn value_after(
    alloc: Global,
    tokens: &[Token],
    at: usize,
    punctuator: Punctuator,
) -> Result<Option<(Value, usize)>, Memory>
    ensures { IfOk result (IsRead value_tree (punctuation punctuator ▹ value).read tokens.now at) }
{
    let at = found!(after_punctuator(tokens, at, punctuator));
    value(alloc, tokens, at)
}

/// The value, or the prefix that starts with it, and the position after it.
#[tactic(auto, unfolding(crate::specs::steps::Reading::one_or_prefix))]
fn one_or_prefix(tokens: &[Token], at: usize, first: Value) -> (ValueRange, usize)
    ensures read { (range_tree result.0, remaining tokens.now result.1)
        ≡ one_or_prefix (value_tree first) (remaining tokens.now at) }
    ensures within { (at ≤ result.1) × (at ≤ length tokens.now → result.1 ≤ length tokens.now) }
{
    if let Value::Address(address) = &first
        && let Some((length, end)) = number_after(tokens, at, Punctuator::Slash)
    {
        return (ValueRange::Prefix(*address, length), end);
    }
    (ValueRange::One(first), at)
}

/// The range that starts with this value, and the position after it.
#[tactic(auto, unfolding(crate::specs::steps::Reading::range_after))]
pub(crate) fn range_after(
    alloc: Global,
    tokens: &[Token],
    at: usize,
    first: Value,
) -> Result<(ValueRange, usize), Memory>
    ensures read { IfOk result (λ x. (range_tree x.0, remaining tokens.now x.1)
        ≡ range_after (value_tree first) (remaining tokens.now at)) }
    ensures within { IfOk result (λ x. (at ≤ x.1)
        × (at ≤ length tokens.now → x.1 ≤ length tokens.now)) }
{
    if let Some((high, end)) = value_after(alloc, tokens, at, Punctuator::Minus)? {
        return Ok((ValueRange::Between(first, high), end));
    }
    Ok(one_or_prefix(tokens, at, first))
}

/// The value, range or prefix at `at`, and the position after it; `None` if none is spelled here.
///
/// # Errors
///
/// `Memory` if an allocation was refused.
#[tactic(auto, unfolding(crate::specs::Elements::range))]
pub fn range(
    alloc: Global,
    tokens: &[Token],
    at: usize,
) -> Result<Option<(ValueRange, usize)>, Memory>
    // Soundness and completeness: what is spelled here, with no token after it that continues it,
    // is the answer.
    ensures reads { IfOk result (Reads range EndsRange range_tree tokens.now at) }
    // The answer is what the production's parser gives.
    ensures read { IfOk result (IsRead range_tree range.read tokens.now at) }
{
    let (first, at) = found!(value(alloc, tokens, at)?);
    Ok(Some(range_after(alloc, tokens, at, first)?))
}

/// The comment at `at`, if there is one, and the position after it.
///
/// # Errors
///
/// `Memory` if an allocation was refused.
#[tactic(auto, unfolding(crate::specs::Elements::comment))]
pub fn comment(
    alloc: Global,
    tokens: &[Token],
    at: usize,
) -> Result<(Option<Vec<u8>>, usize), Memory>
    // Soundness and completeness: what is spelled here, with no comment after it, is the answer.
    ensures reads { IfOk result (λ x.
        Reads comment EndsComment (option_map (λ c. c.items)) tokens.now at (Some x)) }
    // From a position within the tokens it ends within them.
    ensures within { IfOk result (λ x. (at ≤ x.1)
        × (at ≤ length tokens.now → x.1 ≤ length tokens.now)) }
    // The answer is what the production's parser gives.
    ensures read { IfOk result (λ x. Some (option_map (λ c. c.items) x.0, remaining tokens.now x.1)
        ≡ comment.read (remaining tokens.now at)) }
{
    match string_after(tokens, at, b"comment") {
        Some((text, after)) => Ok((Some(Vec::from_slice(alloc, text)?), after)),
        None => Ok((None, at)),
    }
}
