//! Lines: what they are made of.
ghost use Rattle.std.specs.Prelude.{◌≤◌};

use packet_sets::Field;

/// Numbers from `low` to `high`, both included.
#[derive(Clone, Copy)]
pub struct Numbers {
    pub low: u32,
    pub high: u32,
    pub ghost rising: { low ≤ high },
}

/// The numbers that a field may have: ranges, ascending, of which no two touch.
#[derive(Drop)]
pub struct FieldNumbers {
    pub field: Field,
    pub ranges: Vec<Numbers>,
}

/// Packets of which each of these fields has one of its numbers. A field that isn't listed may have
/// any number.
#[derive(Drop)]
pub struct Line {
    pub fields: Vec<FieldNumbers>,
}

/// Packets of a set, line by line, and how many more lines it would take at least; 0 where these
/// are all.
#[derive(Drop)]
pub struct Lines {
    pub lines: Vec<Line>,
    pub more: u64,
}
