//! References to sets and maps, named or anonymous.
ghost use Rattle.std.specs.Prelude.{map, IfOk};
ghost use Rattle.nft_lexer.specs.declared.token.Punctuator.TheVariants as punctuators;
ghost use Rattle.nft_tree.specs.TreeViews.{map_ref_tree, set_ref_tree};
ghost use Rattle.token_reader.specs.Grammar.{a_word, punctuation, ◌▹◌};
ghost use Rattle.token_reader.specs.Readers.{Anything, IsRead, Reads};
ghost use Rattle.nft_expressions.specs.Elements.{map_ref, set_ref};
ghost use Rattle.nft_expressions.specs.steps.Reading.{braced_at};

use crate::between_braces::{InBraces, up_to_brace};
use crate::elements::SetElement;
use crate::maps::MapPair;
use nft_lexer::{Punctuator, Token};
use nft_tree::{MapRef, Memory, SetRef};
use std::alloc::Global;
use token_reader::{after_punctuator, found, word};

/// "@" NAME
fn name<'t>(tokens: &[Token<'t>], at: usize) -> Option<(&'t [u8], usize)>
    ensures { IsRead (λ x. x.now) (punctuation punctuators.At ▹ a_word).read tokens.now at result }
{
    let at = after_punctuator(tokens, at, Punctuator::At)?;
    word(tokens, at)
}

/// "{" list "}"
#[tactic(auto, unfolding(crate::specs::steps::Reading::braced_at))]
fn braced<P: InBraces>(
    alloc: Global,
    tokens: &[Token],
    at: usize,
) -> Result<Option<(Vec<P::Item>, usize)>, Memory>
    ensures { IfOk result (IsRead (λ found. map P.tree found.items) (braced_at P.read_at)
        tokens.now at) }
{
    let at = found!(after_punctuator(tokens, at, Punctuator::OpenBrace));
    let (found, at) = found!(up_to_brace::<P>(alloc, tokens, at)?);
    let at = found!(after_punctuator(tokens, at, Punctuator::CloseBrace));
    Ok(Some((found, at)))
}

/// The set at `at`, named or anonymous, and the position after it; `None` if none is spelled here.
///
/// # Errors
///
/// `Memory` if an allocation was refused.
#[tactic(auto, unfolding(crate::specs::Elements::set_ref, crate::specs::Elements::elements, crate::specs::steps::Reading::braced_at))]
pub fn set_ref(
    alloc: Global,
    tokens: &[Token],
    at: usize,
) -> Result<Option<(SetRef, usize)>, Memory>
    // Soundness and completeness: the answer is spelled here, and what is spelled here is the
    // answer.
    ensures reads { IfOk result (Reads set_ref Anything set_ref_tree tokens.now at) }
    // The answer is what the production's parser gives.
    ensures read { IfOk result (IsRead set_ref_tree set_ref.read tokens.now at) }
{
    if let Some((name, at)) = name(tokens, at) {
        return Ok(Some((SetRef::Named(Vec::from_slice(alloc, name)?), at)));
    }
    let (elements, at) = found!(braced::<SetElement>(alloc, tokens, at)?);
    Ok(Some((SetRef::Anonymous(elements), at)))
}

/// The map at `at`, named or anonymous, and the position after it; `None` if none is spelled here.
///
/// # Errors
///
/// `Memory` if an allocation was refused.
#[tactic(auto, unfolding(crate::specs::Elements::map_ref, crate::specs::Elements::pairs, crate::specs::steps::Reading::braced_at))]
pub fn map_ref(
    alloc: Global,
    tokens: &[Token],
    at: usize,
) -> Result<Option<(MapRef, usize)>, Memory>
    // Soundness and completeness: the answer is spelled here, and what is spelled here is the
    // answer.
    ensures reads { IfOk result (Reads map_ref Anything map_ref_tree tokens.now at) }
    // The answer is what the production's parser gives.
    ensures read { IfOk result (IsRead map_ref_tree map_ref.read tokens.now at) }
{
    if let Some((name, at)) = name(tokens, at) {
        return Ok(Some((MapRef::Named(Vec::from_slice(alloc, name)?), at)));
    }
    let (pairs, at) = found!(braced::<MapPair>(alloc, tokens, at)?);
    Ok(Some((MapRef::Anonymous(pairs), at)))
}
