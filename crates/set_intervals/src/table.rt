//! The lookup table: values by number, kept as sorted intervals.
ghost use Rattle.std.specs.Prelude.{◌≡◌, ◌≤◌, ◌<◌, ℕ, Contains, List, Some, IfOk, OnOk, IfErr, MatchOption, IsTrue};
ghost use Rattle.std.specs.Option.{option_copied};
ghost use Rattle.set_intervals.specs.declared.range.Range.{Range};
ghost use Rattle.search_levels.specs.Levels.{IsLevel, IsShort, Parts};
ghost use Rattle.set_intervals.specs.Pairs.{Covers, HasClash, HasRuns, HasValue, IsExact, SameValues, first_value};
ghost use Rattle.set_intervals.specs.steps.Pieces.{Adds, AreShort, ClashesWith, IsLowerBound, IsTable, ClassifiesOverlap, StartsBefore, highs, low_half};

use crate::fault::SetError;
use crate::overlay::first_wins;
use crate::range::Range;
use search_levels::Level;
use std::alloc::{AllocError, Global};
use std::marker::Model;

/// A map from numbers to values, kept as disjoint intervals.
#[derive(Drop)]
pub struct Intervals<V> {
    /// Disjoint and ascending; adjacent pieces have different values.
    pieces: Vec<(Range, V)>,
    /// Over the highest numbers of the pieces.
    level: Level,
    /// All numbers have at most 64 bits, and the level is short: few sets have wider ones.
    is_short: bool,
}

impl<V> Model for Intervals<V> {
    ghost Value = { List (Range × V) };

    ghost view = { λ t. t.pieces.items };

    ghost invariant = { λ t. IsTable t.pieces.items × IsLevel t.level (highs t.pieces.items)
        × (IsTrue t.is_short → AreShort t.pieces.items × IsShort t.level) };
}

impl<V: Copy + Eq> Intervals<V> {
    /// Builds the table of these pairs, in any order. Overlapping or adjacent ranges with the same
    /// value are merged. `exact` requires that `==` on values is equality, as a derived one is.
    ///
    /// # Errors
    ///
    /// `Clash` if ranges with different values overlap, `Memory` if an allocation fails.
    pub fn build(alloc: Global, pairs: &[(Range, V)]) -> Result<Self, SetError>
        requires exact { IsExact V.eq }
        ensures first_values { IfOk result (λ table. (key : ℕ)
            → first_value table key ≡ first_value pairs.now key) }
        ensures same { IfOk result (λ table. SameValues table pairs.now) }
        ensures agrees { IfOk result (λ table. HasClash pairs.now → ⊥) }
        ensures clash { IfErr result (λ e. e ≡ SetError.Clash → HasClash pairs.now) }
    {
        let mut sorted = Vec::from_slice(alloc, pairs)?;
        sorted.sort_unstable_by_key(|pair| pair.0.low());
        let mut pieces = Vec::new(alloc);
        for &(range, value) in &sorted {
            add(&mut pieces, range, value)?;
        }
        Ok(Self::of(alloc, pieces)?)
    }

    /// Builds the table in which each number has the value of the first pair that contains it:
    /// overlaps are no error. `exact` is as for `build`.
    ///
    /// # Errors
    ///
    /// If an allocation fails.
    pub fn first_wins(alloc: Global, pairs: &[(Range, V)]) -> Result<Self, AllocError>
        requires exact { IsExact V.eq }
        ensures { IfOk result (λ table. (key : ℕ)
            → first_value table key ≡ first_value pairs.now key) }
    {
        let pieces = first_wins(alloc, pairs)?;
        Self::of(alloc, pieces)
    }

    /// The table of these pieces.
    fn of(alloc: Global, pieces: Vec<(Range, V)>) -> Result<Self, AllocError>
        requires { IsTable pieces.items }
        ensures { IfOk result (λ table. table ≡ pieces.items) }
    {
        let level = level_of(alloc, &pieces)?;
        let is_short = level.is_short() && are_short(&pieces);
        Ok(Intervals {
            pieces,
            level,
            is_short,
        })
    }

    /// The value at a number; `None` if no interval contains it.
    #[inline(always)]
    pub fn find(&self, key: u128) -> Option<&V>
        ensures held { MatchOption (option_copied result)
            ((v : V) → HasValue self.now key v → ⊥)
            (λ v. HasValue self.now key v) }
        ensures first_values { option_copied result ≡ first_value self.now key }
    {
        if self.is_short && key < SHORT {
            let key = (key % SHORT) as u64;
            let (from, to) = self.level.part_short(key);
            return find_short(&self.pieces, from, to, key);
        }
        let (from, to) = self.level.part(key);
        find_in(&self.pieces, from, to, key)
    }

    /// The intervals with their values, ascending and disjoint.
    pub fn pieces(&self) -> &[(Range, V)]
        ensures all { result.now ≡ self.now }
        ensures first_values { (piece : Range × V) (key : ℕ) → Contains self.now piece
            → Covers piece.0 key → first_value self.now key ≡ Some piece.1 }
    {
        &self.pieces
    }

    /// The number of intervals after merging: of maximal runs of consecutive numbers with one
    /// value.
    pub fn count(&self) -> usize
        ensures { HasRuns self.now result }
    {
        self.pieces.len()
    }
}

/// The least number of more than 64 bits.
const SHORT: u128 = 0x1_0000_0000_0000_0000;

/// The low 64 bits of a number.
#[inline(always)]
fn low_half(number: u128) -> u64
    ensures { result ≡ low_half number }
{
    (number % SHORT) as u64
}

/// Whether the numbers of all pieces have at most 64 bits: the highest is the last one's.
fn are_short<V>(pieces: &[(Range, V)]) -> bool
    requires { IsTable pieces.now }
    ensures { IsTrue result → AreShort pieces.now }
{
    match pieces.last() {
        Some((range, _)) => range.high() < SHORT,
        None => true,
    }
}

/// The level over the highest numbers of these pieces.
fn level_of<V>(alloc: Global, pieces: &[(Range, V)]) -> Result<Level, AllocError>
    requires { IsTable pieces.now }
    ensures { IfOk result (λ level. IsLevel level (highs pieces.now)) }
{
    let mut highs = Vec::with_capacity(alloc, pieces.len())?;
    for (range, _) in pieces {
        highs.push(range.high())?;
    }
    Level::build(alloc, &highs)
}

/// How a pair relates to a piece that starts no later.
enum Overlap {
    /// It lies above the piece, and isn't adjacent or has another value.
    Disjoint,
    /// It has the same value, and overlaps the piece or is adjacent to it.
    Mergeable,
    /// It overlaps the piece, with another value.
    Clashes,
}

fn classify_overlap<V: Copy + Eq>(piece: (Range, V), pair: (Range, V)) -> Overlap
    requires exact { IsExact V.eq }
    requires rising { piece.0.low ≤ pair.0.low }
    ensures { ClassifiesOverlap piece pair result }
{
    let same = piece.1 == pair.1;
    if piece.0.overlaps(pair.0) {
        if same {
            Overlap::Mergeable
        } else {
            Overlap::Clashes
        }
    } else if same && piece.0.touches(pair.0) {
        Overlap::Mergeable
    } else {
        Overlap::Disjoint
    }
}

/// Adds a pair whose range starts no lower than those before it.
fn add<V: Copy + Eq>(pieces: &mut Vec<(Range, V)>, range: Range, value: V) -> Result<(), SetError>
    requires exact { IsExact V.eq }
    requires table { IsTable pieces.old.items }
    requires after { StartsBefore pieces.old.items range.low }
    ensures table { OnOk result (IsTable pieces.new.items) }
    ensures after { OnOk result (StartsBefore pieces.new.items range.low) }
    ensures adds { OnOk result (Adds pieces.old.items range value pieces.new.items) }
    ensures clash { IfErr result (λ e. e ≡ SetError.Clash
        → ClashesWith pieces.old.items range value) }
{
    let len = pieces.len();
    if len == 0 {
        pieces.push((range, value))?;
        return Ok(());
    }
    let last = pieces[len - 1];
    match classify_overlap(last, (range, value)) {
        Overlap::Disjoint => pieces.push((range, value))?,
        Overlap::Mergeable => pieces[len - 1] = (last.0.merged(range), last.1),
        Overlap::Clashes => return Err(SetError::Clash),
    }
    Ok(())
}

/// The value of the piece that contains the number; the part that the level names is searched.
fn find_in<V>(pieces: &[(Range, V)], from: usize, to: usize, key: u128) -> Option<&V>
    requires table { IsTable pieces.now }
    requires parts { Parts (highs pieces.now) key from to }
    ensures { MatchOption (option_copied result)
        ((v : V) → HasValue pieces.now key v → ⊥)
        (λ v. HasValue pieces.now key v) }
{
    let at = lower_bound(pieces, from, to, key);
    match pieces.get(at) {
        Some((range, value)) if range.low() <= key => Some(value),
        _ => None,
    }
}

/// The index of the first piece that ends at or above the number.
fn lower_bound<V>(pieces: &[(Range, V)], from: usize, to: usize, key: u128) -> usize
    requires table { IsTable pieces.now }
    requires parts { Parts (highs pieces.now) key from to }
    ensures { IsLowerBound pieces.now key result }
{
    from + pieces[from..to].partition_point(|pair| pair.0.high() < key)
}

/// As `find_in`, where all numbers have at most 64 bits.
#[inline(always)]
fn find_short<V>(pieces: &[(Range, V)], from: usize, to: usize, key: u64) -> Option<&V>
    requires table { IsTable pieces.now }
    requires short { AreShort pieces.now }
    requires parts { Parts (highs pieces.now) key from to }
    ensures { MatchOption (option_copied result)
        ((v : V) → HasValue pieces.now key v → ⊥)
        (λ v. HasValue pieces.now key v) }
{
    let at = short_lower_bound(pieces, from, to, key);
    match pieces.get(at) {
        Some((range, value)) if low_half(range.low()) <= key => Some(value),
        _ => None,
    }
}

/// As `lower_bound`, where all numbers have at most 64 bits.
#[inline(always)]
fn short_lower_bound<V>(pieces: &[(Range, V)], from: usize, to: usize, key: u64) -> usize
    requires table { IsTable pieces.now }
    requires short { AreShort pieces.now }
    requires parts { Parts (highs pieces.now) key from to }
    ensures { IsLowerBound pieces.now key result }
{
    from + pieces[from..to].partition_point(|pair| low_half(pair.0.high()) < key)
}
