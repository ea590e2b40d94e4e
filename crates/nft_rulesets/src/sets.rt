//! Named sets and maps.
ghost use Rattle.std.specs.Prelude.{IfOk};
ghost use Rattle.nft_tree.specs.TreeViews.{map_tree, set_tree};
ghost use Rattle.token_reader.specs.Readers.{IsRead};
ghost use Rattle.nft_rulesets.specs.Sets.{named_map, named_set};

use crate::element_lists::{Elements, Pairs};
use crate::fields::block;
use crate::types::{MapTypes, SetTypes};
use nft_lexer::Token;
use nft_tree::{MapDecl, Memory, SetDecl};
use std::alloc::Global;
use token_reader::found;

/// "set" NAME "{" {end} field {end {end} field} {end} "}"
#[tactic(auto, using(crate::specs::steps::SetLaws::same_block), unfolding(crate::specs::Sets::named_set))]
pub(crate) fn set_decl(
    alloc: Global,
    tokens: &[Token],
    at: usize,
) -> Result<Option<(SetDecl, usize)>, Memory>
    ensures { IfOk result (IsRead set_tree named_set.read tokens.now at) }
{
    let ((name, mut all), at) = found!(block::<SetTypes, Elements>(alloc, tokens, at, b"set")?);
    let decl = SetDecl {
        name,
        key: found!(all.key.take()),
        flags: all.flags,
        size: all.size,
        auto_merge: all.auto_merge,
        comment: all.comment,
        elements: all.elements,
    };
    Ok(Some((decl, at)))
}

/// "map" NAME "{" {end} field {end {end} field} {end} "}"
#[tactic(auto, using(crate::specs::steps::SetLaws::same_block), unfolding(crate::specs::Sets::named_map))]
pub(crate) fn map_decl(
    alloc: Global,
    tokens: &[Token],
    at: usize,
) -> Result<Option<(MapDecl, usize)>, Memory>
    ensures { IfOk result (IsRead map_tree named_map.read tokens.now at) }
{
    let ((name, mut all), at) = found!(block::<MapTypes, Pairs>(alloc, tokens, at, b"map")?);
    let decl = MapDecl {
        name,
        types: found!(all.key.take()),
        flags: all.flags,
        size: all.size,
        auto_merge: all.auto_merge,
        comment: all.comment,
        elements: all.elements,
    };
    Ok(Some((decl, at)))
}
