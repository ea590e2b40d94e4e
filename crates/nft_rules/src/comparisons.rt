//! Comparisons of a selector with a value, a range or a prefix.
ghost use Rattle.std.specs.Prelude.{◌≡◌, IfOk};
ghost use Rattle.nft_tree.specs.TreeViews.{match_tree, value_tree};
ghost use Rattle.token_reader.specs.Readers.{IsRead};
ghost use Rattle.nft_rules.specs.Matches.{comparison, is_value_for};

use crate::operators::operator;
use nft_expressions::{range, type_has_word};
use nft_lexer::Token;
use nft_tree::{Match, Memory, Operator, Selector, Value, ValueRange};
use std::alloc::Global;
use token_reader::found;

/// Whether the value, if it is a word, is a symbolic constant of the selector's type.
fn is_value_for(selector: Selector, value: &Value) -> bool
    ensures { result ≡ is_value_for selector (value_tree value.now) }
{
    match value {
        Value::Word(word) => type_has_word(selector, word),
        Value::Number(_) | Value::Address(_) | Value::String(_) => true,
    }
}

/// [op] one, each word a symbolic constant; without an operator it is `==`
#[tactic(auto, unfolding(crate::specs::Matches::comparison))]
pub(crate) fn comparison(
    alloc: Global,
    tokens: &[Token],
    at: usize,
    selector: Selector,
) -> Result<Option<(Match, usize)>, Memory>
    ensures { IfOk result (IsRead match_tree (comparison selector).read tokens.now at) }
{
    let (operator, at) = operator(tokens, at).unwrap_or((Operator::Equal, at));
    let (range, at) = found!(range(alloc, tokens, at)?);
    let fits = match &range {
        ValueRange::One(value) => is_value_for(selector, value),
        ValueRange::Between(low, high) => is_value_for(selector, low)
            && is_value_for(selector, high),
        ValueRange::Prefix(..) => true,
    };
    if !fits {
        return Ok(None);
    }
    Ok(Some((Match::Compare(selector, operator, range), at)))
}
