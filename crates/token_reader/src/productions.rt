//! Repetitions and lists of a production's parts.
ghost use Rattle.std.specs.Prelude.{◌≡◌, ◌≤◌, List, Option, length, map, IfOk};
ghost use Rattle.nft_lexer.specs.Terminal.{Terminal};
ghost use Rattle.token_reader.specs.Readers.{IsRead, remaining};
ghost use Rattle.nft_lexer.specs.declared.token.Punctuator.{Punctuator};
ghost use Rattle.nft_lexer.specs.declared.token.Punctuator.TheVariants as punctuators;
ghost use Rattle.token_reader.specs.steps.Reading.{after_at, all_at, lines_at, separated_at, punctuation_at, some_ends_at, with_front};

use crate::ends::{after_ends, skip_ends};
use crate::single::after_punctuator;
use nft_lexer::{Punctuator, Token};
use nft_tree::Memory;
use std::alloc::Global;
use std::marker::PhantomData;

/// A production of a grammar: the type of its parts, and its parsing function.
pub trait Production {
    /// The code's type of a part.
    type Item: Drop;

    ghost Tree: { Type 0 };

    /// The model of a part: what contracts compare.
    ghost tree: { Self.Item → Tree };

    ghost read_at: { List Terminal → Option (Tree × List Terminal) };

    /// The part at `at`, and the position after it.
    fn read(
        alloc: Global,
        tokens: &[Token],
        at: usize,
    ) -> Result<Option<(Self::Item, usize)>, Memory>
        ensures { IfOk result (IsRead tree read_at tokens.now at) };
}

/// Appends the parts of {x} to `found`, and gives the position after them.
pub fn more<P: Production>(
    alloc: Global,
    tokens: &[Token],
    at: usize,
    found: &mut Vec<P::Item>,
) -> Result<usize, Memory>
    ensures read { IfOk result (λ end. (map P.tree found.new.items, remaining tokens.now end)
        ≡ with_front (map P.tree found.old.items) (all_at P.read_at (remaining tokens.now at))) }
    ensures within { IfOk result (λ end. (at ≤ end)
        × (at ≤ length tokens.now → end ≤ length tokens.now)) }
{
    let mut here = at;
    while let Some((part, after)) = P::read(alloc, tokens, here)? {
        found.push(part)?;
        here = after;
    }
    Ok(here)
}

/// {x}, and the position after it.
pub fn repeated<P: Production>(
    alloc: Global,
    tokens: &[Token],
    at: usize,
) -> Result<(Vec<P::Item>, usize), Memory>
    ensures read { IfOk result (λ x. (map P.tree x.0.items, remaining tokens.now x.1)
        ≡ all_at P.read_at (remaining tokens.now at)) }
    ensures within { IfOk result (λ x. (at ≤ x.1)
        × (at ≤ length tokens.now → x.1 ≤ length tokens.now)) }
{
    let mut found = Vec::new(alloc);
    let end = more::<P>(alloc, tokens, at, &mut found)?;
    Ok((found, end))
}

/// A punctuator between two parts.
pub trait Separator {
    ghost punctuator: { Punctuator };

    fn punctuator() -> Punctuator
        ensures { result ≡ punctuator };
}

/// `,`
pub struct Comma;

impl Separator for Comma {
    ghost punctuator = { punctuators.Comma };

    fn punctuator() -> Punctuator {
        Punctuator::Comma
    }
}

/// `.`
pub struct Dot;

impl Separator for Dot {
    ghost punctuator = { punctuators.Dot };

    fn punctuator() -> Punctuator {
        Punctuator::Dot
    }
}

/// A part with the separator before it.
struct After<S, P> {
    parts: PhantomData<(S, P)>,
}

impl<S: Separator, P: Production> Production for After<S, P> {
    type Item = P::Item;

    ghost Tree = { P.Tree };

    ghost tree = { P.tree };

    ghost read_at = { after_at (punctuation_at S.punctuator) P.read_at };

    fn read(
        alloc: Global,
        tokens: &[Token],
        at: usize,
    ) -> Result<Option<(P::Item, usize)>, Memory> {
        match after_punctuator(tokens, at, S::punctuator()) {
            Some(at) => P::read(alloc, tokens, at),
            None => Ok(None),
        }
    }
}

/// x {s x}, and the position after it. The list has capacity for `room` parts before it grows.
pub fn separated<S: Separator, P: Production>(
    alloc: Global,
    tokens: &[Token],
    at: usize,
    room: usize,
) -> Result<Option<(Vec<P::Item>, usize)>, Memory>
    ensures { IfOk result (IsRead (λ found. map P.tree found.items)
        (separated_at (punctuation_at S.punctuator) P.read_at) tokens.now at) }
{
    let Some((first, at)) = P::read(alloc, tokens, at)? else {
        return Ok(None);
    };
    let mut found = Vec::with_capacity(alloc, room)?;
    found.push(first)?;
    let end = more::<After<S, P>>(alloc, tokens, at, &mut found)?;
    Ok(Some((found, end)))
}

/// A part on a line of its own, with the ends before it.
struct NextLine<P> {
    part: PhantomData<P>,
}

impl<P: Production> Production for NextLine<P> {
    type Item = P::Item;

    ghost Tree = { P.Tree };

    ghost tree = { P.tree };

    ghost read_at = { after_at some_ends_at P.read_at };

    fn read(
        alloc: Global,
        tokens: &[Token],
        at: usize,
    ) -> Result<Option<(P::Item, usize)>, Memory> {
        match after_ends(tokens, at) {
            Some(at) => P::read(alloc, tokens, at),
            None => Ok(None),
        }
    }
}

/// x {end {end} x} {end}, and the position after it.
pub fn lines<P: Production>(
    alloc: Global,
    tokens: &[Token],
    at: usize,
) -> Result<Option<(Vec<P::Item>, usize)>, Memory>
    ensures { IfOk result (IsRead (λ found. map P.tree found.items) (lines_at P.read_at)
        tokens.now at) }
{
    let Some((first, at)) = P::read(alloc, tokens, at)? else {
        return Ok(None);
    };
    // Capacity for one: many lists have one part.
    let mut found = Vec::with_capacity(alloc, 1)?;
    found.push(first)?;
    let end = more::<NextLine<P>>(alloc, tokens, at, &mut found)?;
    Ok(Some((found, skip_ends(tokens, end))))
}
