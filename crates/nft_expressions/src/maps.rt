//! Elements of maps (nft(8), "Maps").
ghost use Rattle.std.specs.Prelude.{◌≡◌, option_map, IfOk};
ghost use Rattle.nft_lexer.specs.declared.token.Punctuator.TheVariants as punctuators;
ghost use Rattle.nft_tree.specs.Tree.{PairTree};
ghost use Rattle.nft_tree.specs.TreeViews.{data_tree, pair_tree, range_tree, value_tree};
ghost use Rattle.token_reader.specs.Grammar.{punctuation, ◌⨾◌, ◌◃◌};
ghost use Rattle.token_reader.specs.Readers.{IsRead};
ghost use Rattle.nft_expressions.specs.Elements.{comment, is_data_value, map_data, pair, range};

use crate::between_braces::InBraces;
use crate::values::{comment, range_after, value};
use crate::verdicts::read_verdict;
use nft_lexer::{Punctuator, Token};
use nft_tree::{Data, Memory, Pair, Value, ValueRange};
use std::alloc::Global;
use token_reader::{Production, after_punctuator, found};

/// Whether the value may be data of a map: a word that starts a verdict may not.
fn is_data_value(value: &Value) -> bool
    ensures { result ≡ is_data_value (value_tree value.now) }
{
    let Value::Word(word) = value else {
        return true;
    };
    let word = word.as_slice();
    !(word == b"accept".as_slice()
        || word == b"drop".as_slice()
        || word == b"continue".as_slice()
        || word == b"return".as_slice()
        || word == b"jump".as_slice()
        || word == b"goto".as_slice())
}

/// verdict | value
#[tactic(auto, unfolding(crate::specs::Elements::map_data))]
fn map_data(alloc: Global, tokens: &[Token], at: usize) -> Result<Option<(Data, usize)>, Memory>
    ensures { IfOk result (IsRead data_tree map_data.read tokens.now at) }
{
    if let Some((verdict, at)) = read_verdict(alloc, tokens, at)? {
        return Ok(Some((Data::Verdict(verdict), at)));
    }
    let (value, at) = found!(value(alloc, tokens, at)?);
    if !is_data_value(&value) {
        return Ok(None);
    }
    Ok(Some((Data::Value(value), at)))
}

/// one ["comment" STRING] ":", the key of a pair with its comment
#[tactic(auto, unfolding(crate::specs::steps::LookedThrough::ranges))]
fn map_key(
    alloc: Global,
    tokens: &[Token],
    at: usize,
) -> Result<Option<((ValueRange, Option<Vec<u8>>), usize)>, Memory>
    ensures { IfOk result (IsRead (λ k. (range_tree k.0, option_map (λ c. c.items) k.1))
        (range ⨾ comment ◃ punctuation punctuators.Colon).read tokens.now at) }
{
    let (first, at) = found!(value(alloc, tokens, at)?);
    // Most keys are a single value without a comment.
    if let Some(at) = after_punctuator(tokens, at, Punctuator::Colon) {
        return Ok(Some(((ValueRange::One(first), None), at)));
    }
    let (key, at) = range_after(alloc, tokens, at, first)?;
    let (comment, at) = comment(alloc, tokens, at)?;
    let at = found!(after_punctuator(tokens, at, Punctuator::Colon));
    Ok(Some(((key, comment), at)))
}

/// pair = one ["comment" STRING] ":" (verdict | value)
pub struct MapPair;

impl Production for MapPair {
    type Item = Pair;

    ghost Tree = { PairTree };

    ghost tree = { pair_tree };

    ghost read_at = { pair.read };

    fn read(alloc: Global, tokens: &[Token], at: usize) -> Result<Option<(Pair, usize)>, Memory> {
        let ((key, comment), at) = found!(map_key(alloc, tokens, at)?);
        let (value, at) = found!(map_data(alloc, tokens, at)?);
        let pair = Pair {
            key,
            comment,
            value,
        };
        Ok(Some((pair, at)))
    }
}

impl InBraces for MapPair {
    // A key, a colon, a value and a comma.
    fn fewest_tokens() -> usize {
        4
    }
}
