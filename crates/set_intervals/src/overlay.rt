//! Overlaying sorted intervals: where an upper and a lower interval overlap, the upper one's value
//! wins.
ghost use Rattle.std.specs.Prelude.{◌≡◌, ◌<◌, ◌+◌, ◌++◌, ◌∷◌, [], ◌↔◌, IsTrue, IfOk, OnOk};
ghost use Rattle.set_intervals.specs.Pairs.{IsExact};
ghost use Rattle.set_intervals.specs.steps.Layers.{AddsBelow, EndsBefore, Follows, SameFirstValues};
ghost use Rattle.set_intervals.specs.steps.Pieces.{IsTable};

use crate::range::Range;
use std::alloc::{AllocError, Global};

/// Whether this range is adjacent to the piece and has the same value, so that the two can merge.
fn continues<V: Copy + Eq>(piece: (Range, V), range: Range, value: V) -> bool
    requires exact { IsExact V.eq }
    ensures { IsTrue result ↔ ((piece.0.high + 1 ≡ range.low) × (piece.1 ≡ value)) }
{
    piece.0.touches(range) && piece.1 == value
}

/// Appends a piece above all others, merged with the last one where adjacent and of equal value.
fn append<V: Copy + Eq>(
    pieces: &mut Vec<(Range, V)>,
    range: Range,
    value: V,
) -> Result<(), AllocError>
    requires exact { IsExact V.eq }
    requires table { IsTable pieces.old.items }
    requires past { EndsBefore pieces.old.items range.low }
    ensures table { OnOk result (IsTable pieces.new.items) }
    ensures ends { OnOk result (EndsBefore pieces.new.items (range.high + 1)) }
    ensures first_values { OnOk result (SameFirstValues pieces.new.items
        (pieces.old.items ++ (range, value) ∷ [])) }
{
    let len = pieces.len();
    if len > 0 {
        let last = pieces[len - 1];
        if continues(last, range, value) {
            pieces[len - 1] = (last.0.merged(range), last.1);
            return Ok(());
        }
    }
    pieces.push((range, value))?;
    Ok(())
}

/// Appends the part of the range below the other range, if there is one.
fn append_before<V: Copy + Eq>(
    pieces: &mut Vec<(Range, V)>,
    range: Range,
    value: V,
    other: Range,
) -> Result<(), AllocError>
    requires exact { IsExact V.eq }
    requires table { IsTable pieces.old.items }
    requires past { EndsBefore pieces.old.items range.low }
    requires before { EndsBefore pieces.old.items other.low }
    ensures table { OnOk result (IsTable pieces.new.items) }
    ensures before { OnOk result (EndsBefore pieces.new.items other.low) }
    ensures ends { OnOk result (EndsBefore pieces.new.items (range.high + 1)) }
    ensures first_values { OnOk result
        (AddsBelow pieces.old.items range value other.low pieces.new.items) }
{
    if let Some(part) = range.before(other) {
        append(pieces, part, value)?;
    }
    Ok(())
}

/// Appends one lower range under the upper pieces: the parts of it that they leave uncovered, and
/// between these the upper pieces that end within it. Returns the upper pieces not yet appended.
fn append_under<'a, V: Copy + Eq>(
    pieces: &mut Vec<(Range, V)>,
    upper: &'a [(Range, V)],
    range: Range,
    value: V,
) -> Result<&'a [(Range, V)], AllocError>
    requires exact { IsExact V.eq }
    requires table { IsTable pieces.old.items }
    requires past { EndsBefore pieces.old.items range.low }
    requires follows { Follows pieces.old.items upper.now }
    ensures table { OnOk result (IsTable pieces.new.items) }
    ensures ends { OnOk result (EndsBefore pieces.new.items (range.high + 1)) }
    ensures follows { IfOk result (λ left. Follows pieces.new.items left.now) }
    ensures first_values { IfOk result (λ left. SameFirstValues (pieces.new.items ++ left.now)
        (pieces.old.items ++ (upper.now ++ (range, value) ∷ []))) }
{
    let mut left = upper;
    let mut rest = range;
    while let [first, others @ ..] = left {
        append_before(pieces, rest, value, first.0)?;
        let Some(part) = rest.after(first.0) else {
            return Ok(left);
        };
        append(pieces, first.0, first.1)?;
        rest = part;
        left = others;
    }
    append(pieces, rest, value)?;
    Ok(left)
}

/// Appends sorted pieces that all lie above the others.
fn append_all<V: Copy + Eq>(
    pieces: &mut Vec<(Range, V)>,
    further: &[(Range, V)],
) -> Result<(), AllocError>
    requires exact { IsExact V.eq }
    requires table { IsTable pieces.old.items }
    requires follows { Follows pieces.old.items further.now }
    ensures table { OnOk result (IsTable pieces.new.items) }
    ensures first_values { OnOk result
        (SameFirstValues pieces.new.items (pieces.old.items ++ further.now)) }
{
    let mut left = further;
    while let [first, others @ ..] = left {
        append(pieces, first.0, first.1)?;
        left = others;
    }
    Ok(())
}

/// The upper pieces, and what they leave uncovered of the lower ones.
fn overlay<V: Copy + Eq>(
    alloc: Global,
    upper: &[(Range, V)],
    lower: &[(Range, V)],
) -> Result<Vec<(Range, V)>, AllocError>
    requires exact { IsExact V.eq }
    requires upper { IsTable upper.now }
    requires lower { IsTable lower.now }
    ensures table { IfOk result (λ pieces. IsTable pieces.items) }
    ensures first_values { IfOk result
        (λ pieces. SameFirstValues pieces.items (upper.now ++ lower.now)) }
{
    let mut pieces = Vec::with_capacity(alloc, upper.len() + lower.len())?;
    let mut left = upper;
    for &(range, value) in lower {
        left = append_under(&mut pieces, left, range, value)?;
    }
    append_all(&mut pieces, left)?;
    Ok(pieces)
}

/// Disjoint pieces in which each number has the value of the first pair that contains it. Divide
/// and conquer: the earlier half is overlaid on the later half.
pub fn first_wins<V: Copy + Eq>(
    alloc: Global,
    pairs: &[(Range, V)],
) -> Result<Vec<(Range, V)>, AllocError>
    requires exact { IsExact V.eq }
    ensures table { IfOk result (λ pieces. IsTable pieces.items) }
    ensures first_values { IfOk result (λ pieces. SameFirstValues pieces.items pairs.now) }
{
    if pairs.len() < 2 {
        return Vec::from_slice(alloc, pairs);
    }
    let (earlier, later) = pairs.split_at(pairs.len() / 2);
    let upper = first_wins(alloc, earlier)?;
    let lower = first_wins(alloc, later)?;
    overlay(alloc, &upper, &lower)
}
