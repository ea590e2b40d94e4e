//! Lists of elements and of pairs.
ghost use Rattle.std.specs.Prelude.{◌≡◌, List, IfOk, IfSome, IsSomeAnd, map};
ghost use Rattle.nft_lexer.specs.Terminal.{Terminal};
ghost use Rattle.nft_tree.specs.Tree.{ElementTree, PairTree};
ghost use Rattle.nft_tree.specs.TreeViews.{element_tree, pair_tree};
ghost use Rattle.token_reader.specs.Readers.{IsAfter, IsRead, remaining};
ghost use Rattle.nft_expressions.specs.Elements.{SpellsElements, SpellsPairs, elements, pairs};

use crate::between_braces::up_to_brace;
use crate::elements::SetElement;
use crate::maps::MapPair;
use nft_lexer::Token;
use nft_tree::{Element, Memory, Pair};
use std::alloc::Global;

/// The list of elements from `at` up to its closing brace, newlines skipped, and the position of
/// that brace; `None` if none is spelled here.
///
/// # Errors
///
/// `Memory` if an allocation was refused.
#[tactic(auto, unfolding(crate::specs::Elements::elements))]
pub fn elems(
    alloc: Global,
    tokens: &[Token],
    at: usize,
) -> Result<Option<(Vec<Element>, usize)>, Memory>
    // Soundness: the answer is spelled from here up to the brace.
    ensures found { IfOk result (λ o.
        IfSome o (λ x. SpellsElements (map element_tree x.0.items) (remaining tokens.now at)
        (remaining tokens.now x.1))) }
    // The position is after `at`, and within the tokens.
    ensures within { IfOk result (λ o. IfSome o (λ x. IsAfter tokens.now at x.1)) }
    // Completeness: what is spelled so is the answer; so it is unique, and `None` means that there
    // is none.
    ensures only { (es : List ElementTree) (to : List Terminal)
        → SpellsElements es (remaining tokens.now at) to
        → IfOk result (λ o. IsSomeAnd o (λ x. (map element_tree x.0.items ≡ es)
        × (remaining tokens.now x.1 ≡ to))) }
    // The answer is what the production's parser gives.
    ensures read { IfOk result (IsRead (λ found. map element_tree found.items) elements.read
        tokens.now at) }
{
    up_to_brace::<SetElement>(alloc, tokens, at)
}

/// The same for the pairs of a map.
#[tactic(auto, unfolding(crate::specs::Elements::pairs))]
pub fn pairs(
    alloc: Global,
    tokens: &[Token],
    at: usize,
) -> Result<Option<(Vec<Pair>, usize)>, Memory>
    ensures found { IfOk result (λ o.
        IfSome o (λ x. SpellsPairs (map pair_tree x.0.items) (remaining tokens.now at)
        (remaining tokens.now x.1))) }
    ensures within { IfOk result (λ o. IfSome o (λ x. IsAfter tokens.now at x.1)) }
    ensures only { (ps : List PairTree) (to : List Terminal)
        → SpellsPairs ps (remaining tokens.now at) to
        → IfOk result (λ o. IsSomeAnd o (λ x. (map pair_tree x.0.items ≡ ps)
        × (remaining tokens.now x.1 ≡ to))) }
    ensures read { IfOk result (IsRead (λ found. map pair_tree found.items) pairs.read
        tokens.now at) }
{
    up_to_brace::<MapPair>(alloc, tokens, at)
}
