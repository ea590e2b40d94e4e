//! The elements of sets and maps.
ghost use Rattle.std.specs.Prelude.{◌≡◌, ◌≤◌, List, IfOk, IfSome, IsSomeAnd, [], length, option_map};
ghost use Rattle.std.specs.Option.{unwrap_or};
ghost use Rattle.nft_tree.specs.Tree as tree;
ghost use Rattle.nft_tree.specs.Tree.{MapTree, SetTree};
ghost use Rattle.token_reader.specs.Readers.{remaining};
ghost use Rattle.nft_expressions.specs.Elements.{element, pair};
ghost use Rattle.nft_rulesets.specs.Rulesets.{item};
ghost use Rattle.nft_rulesets.specs.Sets.{any_field};
ghost use Rattle.nft_rulesets.specs.steps.Reading.{read_by};
ghost use Rattle.node_spans.specs.Spans.{AreInBraces};
ghost use Rattle.node_spans.specs.steps.Reading.{AreElementsRead, first_elements};

use crate::braces::in_braces;
use crate::reading::{RuleEnds, ranges};
use crate::token_range::TokenRange;
use nft_expressions::{MapPair, SetElement};
use nft_lexer::Token;
use nft_rulesets::{AnyField, Elements, MapTypes, Pairs, SetTypes, block_start, elements_start};
use nft_tree::Memory;
use std::alloc::Global;
use token_reader::Production;

/// The position after "elements" "=" "{" in the first of these fields that begins so.
fn first_elements(tokens: &[Token], fields: &[TokenRange]) -> Option<usize>
    ensures { option_map (remaining tokens.now) result
        ≡ first_elements (remaining tokens.now) fields.now }
{
    for field in fields {
        if let Some(at) = elements_start(tokens, field.first) {
            return Some(at);
        }
    }
    None
}

/// The ranges of the elements P of a set or a map of which the fields begin at `at`: K is the
/// production of its types, E of all its elements.
fn block_elements<K: Production, E: Production, P: Production>(
    alloc: Global,
    tokens: &[Token],
    at: usize,
) -> Result<Option<Vec<TokenRange>>, Memory>
    ensures { IfOk result (λ o. AreElementsRead
        (any_field (read_by K.read_at) (read_by E.read_at)).read P.read_at tokens.now at
        (option_map (λ found. found.items) o)) }
{
    let fields = ranges::<AnyField<K, E>, RuleEnds>(alloc, tokens, at)?;
    match first_elements(tokens, &fields) {
        Some(start) => in_braces::<P>(alloc, tokens, start),
        None => Ok(Some(Vec::new(alloc))),
    }
}

/// The ranges of the elements of the set, or of the pairs of the map, that is the item at this
/// range, in text order. `None` only if that item is no set and no map.
///
/// # Errors
///
/// `Memory` if an allocation was refused.
pub fn elements(
    alloc: Global,
    tokens: &[Token],
    range: TokenRange,
) -> Result<Option<Vec<TokenRange>>, Memory>
    ensures of_set { (s : SetTree) → item.spells (tree.set s) (remaining tokens.now range.first)
        (remaining tokens.now range.end)
        → IfOk result (λ o. IsSomeAnd o (λ ranges. AreInBraces element tokens.now range.first
        range.end (unwrap_or s.elements []) ranges.items)) }
    ensures of_map { (m : MapTree) → item.spells (tree.map_item m)
        (remaining tokens.now range.first) (remaining tokens.now range.end)
        → IfOk result (λ o. IsSomeAnd o (λ ranges. AreInBraces pair tokens.now range.first
        range.end (unwrap_or m.elements []) ranges.items)) }
{
    if let Some((_name, at)) = block_start(tokens, range.first, b"set") {
        return block_elements::<SetTypes, Elements, SetElement>(alloc, tokens, at);
    }
    if let Some((_name, at)) = block_start(tokens, range.first, b"map") {
        return block_elements::<MapTypes, Pairs, MapPair>(alloc, tokens, at);
    }
    Ok(None)
}
