//! The bits of `ct state` and `ct status` (nft(8), "Conntrack expressions").
ghost use Rattle.std.specs.Prelude.{ℕ, IfOk, List, map};
ghost use Rattle.std.specs.List.{list_all};
ghost use Rattle.nft_tree.specs.TreeViews.{match_tree};
ghost use Rattle.token_reader.specs.Grammar.{a_word, passing};
ghost use Rattle.token_reader.specs.Readers.{IsRead};
ghost use Rattle.nft_expressions.specs.Selectors.{is_word_for};
ghost use Rattle.nft_rules.specs.Matches.{bits, words};

use crate::operators::equality_if;
use nft_expressions::type_has_word;
use nft_lexer::Token;
use nft_tree::{BitField, BitTest, Match, Memory, Selector};
use std::alloc::Global;
use token_reader::{Comma, Production, found, separated, word};

struct Word {}

impl Production for Word {
    type Item = Vec<u8>;

    ghost Tree = { List ℕ };

    ghost tree = { λ w. w.items };

    ghost read_at = { a_word.read };

    fn read(
        alloc: Global,
        tokens: &[Token],
        at: usize,
    ) -> Result<Option<(Vec<u8>, usize)>, Memory> {
        let (text, at) = found!(word(tokens, at));
        Ok(Some((Vec::from_slice(alloc, text)?, at)))
    }
}

/// WORD {"," WORD}, each a symbolic constant of the selector's type
#[tactic(auto, unfolding(crate::specs::Matches::words))]
fn words(
    alloc: Global,
    tokens: &[Token],
    at: usize,
    selector: Selector,
) -> Result<Option<(Vec<Vec<u8>>, usize)>, Memory>
    ensures { IfOk result (IsRead (λ found. map (λ w. w.items) found.items)
        (passing (list_all (is_word_for selector)) words).read tokens.now at) }
{
    let (words, at) = found!(separated::<Comma, Word>(alloc, tokens, at, 1)?);
    for word in &words {
        if !type_has_word(selector, word) {
            return Ok(None);
        }
    }
    Ok(Some((words, at)))
}

/// ["==" | "!="] WORD {"," WORD}
#[tactic(auto, unfolding(crate::specs::Matches::bits))]
pub(crate) fn bits(
    alloc: Global,
    tokens: &[Token],
    at: usize,
    field: BitField,
    selector: Selector,
) -> Result<Option<(Match, usize)>, Memory>
    ensures { IfOk result (IsRead match_tree (bits field selector).read tokens.now at) }
{
    let (equal, at) = equality_if(tokens, at);
    let (words, at) = found!(words(alloc, tokens, at, selector)?);
    let test = match equal {
        Some(true) => BitTest::Exactly,
        Some(false) => BitTest::None,
        None => BitTest::Any,
    };
    Ok(Some((Match::Bits(field, test, words), at)))
}
