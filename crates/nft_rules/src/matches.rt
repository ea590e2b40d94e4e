//! Matches (nft(8), "Expressions").
ghost use Rattle.std.specs.Prelude.{◌≡◌, ◌∷◌, IfOk};
ghost use Rattle.nft_lexer.specs.declared.token.Punctuator.TheVariants.{Dot};
ghost use Rattle.nft_tree.specs.declared.selector.Selector.{Selector};
ghost use Rattle.nft_tree.specs.TreeViews.{match_tree};
ghost use Rattle.token_reader.specs.Grammar.{punctuation, ◌▹◌};
ghost use Rattle.token_reader.specs.Readers.{IsRead};
ghost use Rattle.nft_expressions.specs.Selectors.{selector};
ghost use Rattle.nft_rules.specs.steps.Reading.{match_after};
ghost use Rattle.nft_rules.specs.Matches.{one_test, set_test};

use crate::bits::bits;
use crate::comparisons::comparison;
use crate::flags::flag_test;
use crate::operators::equality_if;
use nft_expressions::{anysel, set_ref};
use nft_lexer::{Punctuator, Token};
use nft_tree::{BitField, Match, Memory, Selector};
use std::alloc::Global;
use token_reader::{Production, after_punctuator, found, repeated};

/// A selector with the dot before it.
struct NextSelector {}

impl Production for NextSelector {
    type Item = Selector;

    ghost Tree = { Selector };

    ghost tree = { λ s. s };

    ghost read_at = { (punctuation Dot ▹ selector).read };

    fn read(
        _alloc: Global,
        tokens: &[Token],
        at: usize,
    ) -> Result<Option<(Selector, usize)>, Memory> {
        let at = found!(after_punctuator(tokens, at, Punctuator::Dot));
        Ok(anysel(tokens, at))
    }
}

/// The concatenation of the first selector and the others.
fn concatenation(
    alloc: Global,
    first: Selector,
    others: &[Selector],
) -> Result<Vec<Selector>, Memory>
    ensures { IfOk result (λ keys. keys.items ≡ first ∷ others.now) }
{
    let mut selectors = Vec::new(alloc);
    selectors.push(first)?;
    selectors.extend_from_slice(others)?;
    Ok(selectors)
}

/// ["==" | "!="] setref, after the concatenation of the first selector and the others
#[tactic(auto, unfolding(crate::specs::Matches::set_test))]
fn set_test(
    alloc: Global,
    tokens: &[Token],
    at: usize,
    first: Selector,
    others: &[Selector],
) -> Result<Option<(Match, usize)>, Memory>
    ensures { IfOk result (IsRead match_tree (set_test (first ∷ others.now)).read tokens.now at) }
{
    let (equal, at) = equality_if(tokens, at);
    let (set, at) = found!(set_ref(alloc, tokens, at)?);
    let selectors = concatenation(alloc, first, others)?;
    let test = if equal.unwrap_or(true) {
        Match::In(selectors, set)
    } else {
        Match::NotIn(selectors, set)
    };
    Ok(Some((test, at)))
}

/// The test of one selector.
#[tactic(auto, unfolding(crate::specs::Matches::one_test))]
fn one_test(
    alloc: Global,
    tokens: &[Token],
    at: usize,
    selector: Selector,
) -> Result<Option<(Match, usize)>, Memory>
    ensures { IfOk result (IsRead match_tree (one_test selector).read tokens.now at) }
{
    match selector {
        Selector::CtState => bits(alloc, tokens, at, BitField::State, selector),
        Selector::CtStatus => bits(alloc, tokens, at, BitField::Status, selector),
        Selector::TcpFlags => flag_test(alloc, tokens, at),
        _ => comparison(alloc, tokens, at, selector),
    }
}

/// match = sel [op] one | keys ["==" | "!="] setref | bits and flags
///
/// The match that starts with the selector before `at`, and the position after it; `None` if none
/// goes on here.
#[tactic(auto, unfolding(crate::specs::steps::Reading::match_after))]
pub(crate) fn match_after(
    alloc: Global,
    tokens: &[Token],
    at: usize,
    first: Selector,
) -> Result<Option<(Match, usize)>, Memory>
    ensures { IfOk result (IsRead match_tree (match_after first) tokens.now at) }
{
    let (others, at) = repeated::<NextSelector>(alloc, tokens, at)?;
    if let Some(found) = set_test(alloc, tokens, at, first, &others)? {
        return Ok(Some(found));
    }
    if others.is_empty() {
        one_test(alloc, tokens, at, first)
    } else {
        Ok(None)
    }
}
