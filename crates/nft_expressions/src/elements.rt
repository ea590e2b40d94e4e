//! Elements of sets (nft(8), "Elements").
ghost use Rattle.std.specs.Prelude.{◌≡◌, ◌≤◌, length, IfOk};
ghost use Rattle.nft_tree.specs.Tree.{ElementTree, ValueTree};
ghost use Rattle.nft_tree.specs.TreeViews.{element_tree, key_tree, value_tree};
ghost use Rattle.token_reader.specs.Readers.{remaining};
ghost use Rattle.nft_expressions.specs.Elements.{element};
ghost use Rattle.nft_expressions.specs.steps.Reading.{key_after, next_value_at};

use crate::between_braces::InBraces;
use crate::values::{comment, range_after, value, value_after};
use nft_lexer::{Punctuator, Token};
use nft_tree::{Element, Key, Memory, Value, ValueRange};
use std::alloc::Global;
use token_reader::{Production, after_punctuator, found, more};

/// "." value
struct NextValue;

impl Production for NextValue {
    type Item = Value;

    ghost Tree = { ValueTree };

    ghost tree = { value_tree };

    ghost read_at = { next_value_at };

    fn read(alloc: Global, tokens: &[Token], at: usize) -> Result<Option<(Value, usize)>, Memory> {
        value_after(alloc, tokens, at, Punctuator::Dot)
    }
}

/// The key that starts with this value, and the position after it.
#[tactic(auto, unfolding(crate::specs::steps::Reading::key_after, crate::specs::steps::Reading::joined_after))]
fn key_after(
    alloc: Global,
    tokens: &[Token],
    at: usize,
    first: Value,
) -> Result<(Key, usize), Memory>
    ensures read { IfOk result (λ x. (key_tree x.0, remaining tokens.now x.1)
        ≡ key_after (value_tree first) (remaining tokens.now at)) }
    ensures within { IfOk result (λ x. (at ≤ x.1)
        × (at ≤ length tokens.now → x.1 ≤ length tokens.now)) }
{
    let Some((second, at)) = NextValue::read(alloc, tokens, at)? else {
        let (range, end) = range_after(alloc, tokens, at, first)?;
        return Ok((Key::Single(range), end));
    };
    let mut values = Vec::new(alloc);
    values.push(first)?;
    values.push(second)?;
    let end = more::<NextValue>(alloc, tokens, at, &mut values)?;
    Ok((Key::Joined(values), end))
}

/// elem = key ["comment" STRING]
pub struct SetElement;

#[tactic(auto, unfolding(crate::specs::steps::LookedThrough::elements))]
impl Production for SetElement {
    type Item = Element;

    ghost Tree = { ElementTree };

    ghost tree = { element_tree };

    ghost read_at = { element.read };

    fn read(
        alloc: Global,
        tokens: &[Token],
        at: usize,
    ) -> Result<Option<(Element, usize)>, Memory> {
        let (first, at) = found!(value(alloc, tokens, at)?);
        // Most elements are a single value.
        if after_punctuator(tokens, at, Punctuator::Comma).is_some() {
            let key = Key::Single(ValueRange::One(first));
            return Ok(Some((Element { key, comment: None }, at)));
        }
        let (key, at) = key_after(alloc, tokens, at, first)?;
        let (comment, at) = comment(alloc, tokens, at)?;
        Ok(Some((Element { key, comment }, at)))
    }
}

impl InBraces for SetElement {
    // A value and a comma.
    fn fewest_tokens() -> usize {
        2
    }
}
