//! Map lookups, and the operands of mark statements (nft(8), "Meta statement", "Conntrack
//! statement").
#![tactic(auto, unfolding(crate::specs::Rules::map_lookup, crate::specs::Rules::operand))]

ghost use Rattle.std.specs.Prelude.{◌≡◌, IfOk};
ghost use Rattle.nft_tree.specs.TreeViews.{map_lookup_tree, operand_tree};
ghost use Rattle.token_reader.specs.Readers.{IsRead};
ghost use Rattle.nft_rules.specs.Rules.{map_lookup, mark_field, operand};

use nft_expressions::{anysel, map_ref};
use nft_lexer::Token;
use nft_tree::{MapLookup, MarkField, Memory, Operand, Selector};
use std::alloc::Global;
use token_reader::{after_word, found, number};

/// anysel "map" mapref
pub(crate) fn map_lookup(
    alloc: Global,
    tokens: &[Token],
    at: usize,
) -> Result<Option<(MapLookup, usize)>, Memory>
    ensures { IfOk result (IsRead map_lookup_tree map_lookup.read tokens.now at) }
{
    let (selector, at) = found!(anysel(tokens, at));
    let at = found!(after_word(tokens, at, b"map"));
    let (map, at) = found!(map_ref(alloc, tokens, at)?);
    Ok(Some((MapLookup { selector, map }, at)))
}

/// The mark that the selector reads, if it reads one.
pub(crate) fn mark_field(selector: Selector) -> Option<MarkField>
    ensures { result ≡ mark_field selector }
{
    match selector {
        Selector::MetaMark => Some(MarkField::Meta),
        Selector::CtMark => Some(MarkField::Ct),
        _ => None,
    }
}

/// NUM | anysel ["map" mapref]
pub(crate) fn operand(
    alloc: Global,
    tokens: &[Token],
    at: usize,
) -> Result<Option<(Operand, usize)>, Memory>
    ensures { IfOk result (IsRead operand_tree operand.read tokens.now at) }
{
    if let Some((constant, end)) = number(tokens, at) {
        return Ok(Some((Operand::Number(constant), end)));
    }
    let (selector, at) = found!(anysel(tokens, at));
    if let Some(after) = after_word(tokens, at, b"map")
        && let Some((map, end)) = map_ref(alloc, tokens, after)?
    {
        return Ok(Some((Operand::MapLookup(MapLookup { selector, map }), end)));
    }
    let mark = found!(mark_field(selector));
    Ok(Some((Operand::Mark(mark), at)))
}
