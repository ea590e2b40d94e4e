//! The pieces of a set that lead to one set, together.
ghost use Rattle.std.specs.Prelude.{◌≡◌, ◌+◌, ◌^◌, ◌<◌, ◌≤◌, ◌||◌, ℕ, All, IfOk, IfSome, length};
ghost use Rattle.packet_sets.specs.Sets.{DiagramsView, IsSet};
ghost use Rattle.packet_sets.specs.declared.fields.Field.{Field};
ghost use Rattle.packet_sets.specs.declared.packet_set.PacketSet.{PacketSet};
ghost use Rattle.set_lines.specs.Lines.{lies, lies_in};
ghost use Rattle.set_lines.specs.steps.Parts.{pieces_with, ways_with, AreWays, IsAdded, IsPiece, IsPlace, IsWay};

use crate::line::Numbers;
use crate::pieces::{Piece, pieces};
use packet_sets::{Diagrams, Field, PacketSet};
use std::alloc::{AllocError, Global};

/// How many steps one field may take: some hundreds of ranges.
const MOST_CUTS: u32 = 8_192;

/// The set to which packets go on behind a field, by these numbers in it.
#[derive(Drop)]
pub(crate) struct Way {
    pub(crate) ranges: Vec<Numbers>,
    pub(crate) rest: PacketSet,
}

/// The ways of a set by the number in a field; `None` where they can't be told in so many steps.
/// These are counted down.
pub(crate) fn ways(
    alloc: Global,
    diagrams: &Diagrams,
    set: PacketSet,
    field: Field,
    steps: &mut u32,
) -> Result<Option<Vec<Way>>, AllocError>
    requires { IsSet diagrams.now set }
    ensures { IfOk result (λ found. IfSome found (λ ways. AreWays diagrams.now set field ways.items)) }
{
    let Some(numbers) = numbers_of(field) else {
        return Ok(None);
    };
    let most = MOST_CUTS.min(*steps);
    let mut left = most;
    let Some(pieces) = pieces(alloc, diagrams, set, field, numbers, &mut left)? else {
        *steps = steps.saturating_sub(most);
        return Ok(None);
    };
    *steps = steps.saturating_sub(most.saturating_sub(left));
    let mut ways = Vec::new(alloc);
    for piece in &pieces {
        add(alloc, &mut ways, *piece)?;
    }
    Ok(Some(ways))
}

/// All numbers of a field; `None` where it is wider than 32 bits.
fn numbers_of(field: Field) -> Option<Numbers>
    ensures low { IfSome result (λ numbers. numbers.low ≡ 0) }
    ensures high { IfSome result (λ numbers. numbers.high + 1 ≡ 2 ^ field.width) }
{
    if field.width > 32 {
        return None;
    }
    let count = 2u64.pow(field.width);
    Some(Numbers {
        low: 0,
        high: (count - 1) as u32,
    })
}

/// Adds a piece to the way that leads to its set, or a way of its own.
fn add(alloc: Global, ways: &mut Vec<Way>, piece: Piece) -> Result<(), AllocError>
    ensures ways { (d : DiagramsView) (set : PacketSet) (field : Field) → All (IsWay d set field) ways.old.items
        → IsPiece d set field 0 piece → IfOk result (λ done. All (IsWay d set field) ways.new.items) }
    ensures added { IfOk result (λ done. (n : ℕ) → IsAdded ways.old.items ways.new.items piece n) }
{
    let Some(place) = place_of(ways, piece.rest) else {
        let ranges = vec![in alloc; piece.numbers]?;
        let rest = piece.rest;
        ways.push(Way { ranges, rest })?;
        return Ok(());
    };
    add_range(&mut ways[place].ranges, piece.numbers)?;
    Ok(())
}

/// The place of the way that leads to the set.
fn place_of(ways: &[Way], rest: PacketSet) -> Option<usize>
    ensures { IfSome result (λ place. IsPlace ways.now rest place) }
{
    for (place, way) in ways.iter().enumerate() {
        if way.rest == rest {
            return Some(place);
        }
    }
    None
}

/// Adds a range behind the others, joined to the last where it begins right behind it.
fn add_range(ranges: &mut Vec<Numbers>, numbers: Numbers) -> Result<(), AllocError>
    ensures { IfOk result (λ done. (n : ℕ) → lies_in ranges.new.items n
        ≡ (lies_in ranges.old.items n || lies numbers n)) }
{
    match ranges.pop() {
        None => ranges.push(numbers)?,
        Some(last) => {
            if u64::from(last.high) + 1 == u64::from(numbers.low) {
                ranges.push(Numbers {
                    low: last.low,
                    high: numbers.high,
                })?;
            } else {
                ranges.push(last)?;
                ranges.push(numbers)?;
            }
        }
    }
    Ok(())
}
