//! The types by which keys, data and operands are compared.
ghost use Rattle.std.specs.Prelude.{◌≡◌, length, slice_get};
ghost use Rattle.nft_tree.specs.ComparedTypes.{compared_type_width, key_compared_types, map_data_compared_type};
ghost use Rattle.nft_tree.specs.ComparedTypes.{map_key_compared_type, selector_compared_type};
ghost use Rattle.nft_tree.specs.TreeViews.{set_type_tree};

use crate::selector::{Selector, ValueType};
use crate::set::{MapType, SelectorOrVerdict, SetType, TypeOrVerdict};

/// A data type by its name, or by its width in bits where it has none (`ip ttl`, `ip length`, `meta
/// length`). Two values may be compared if these are equal.
#[derive(Clone, Copy, PartialEq, Eq)]
pub enum ComparedType {
    Named(ValueType),
    Unnamed(u32),
}

impl ComparedType {
    /// The width of the type's values, in bits.
    pub fn width(self) -> u32
        ensures { result ≡ compared_type_width self }
    {
        match self {
            ComparedType::Named(value_type) => value_type.width(),
            ComparedType::Unnamed(width) => width,
        }
    }
}

impl Selector {
    /// The type of what the selector reads.
    pub fn kind(self) -> ComparedType
        ensures { result ≡ selector_compared_type self }
    {
        match self.value_type() {
            Some(value_type) => ComparedType::Named(value_type),
            None => ComparedType::Unnamed(self.width()),
        }
    }
}

impl SetType {
    /// The number of components of the set's key: more than one in a concatenation.
    pub fn parts(&self) -> usize
        ensures { result ≡ length (key_compared_types (set_type_tree self.now)) }
    {
        match self {
            SetType::Types(types) => types.len(),
            SetType::Selectors(selectors) => selectors.len(),
        }
    }

    /// The type of a component of the set's key, counted from 0; `None` past the last.
    pub fn kind(&self, part: usize) -> Option<ComparedType>
        ensures { result ≡ slice_get (key_compared_types (set_type_tree self.now)) part }
    {
        match self {
            SetType::Types(types) => Some(ComparedType::Named(*types.get(part)?)),
            SetType::Selectors(selectors) => Some(selectors.get(part)?.kind()),
        }
    }
}

impl MapType {
    /// The type of the map's keys.
    pub fn key(self) -> ComparedType
        ensures { result ≡ map_key_compared_type self }
    {
        match self {
            MapType::Types(key, _) => ComparedType::Named(key),
            MapType::Selectors(key, _) => key.kind(),
        }
    }

    /// The type of the map's data; `None` in a verdict map.
    pub fn data(self) -> Option<ComparedType>
        ensures { result ≡ map_data_compared_type self }
    {
        match self {
            MapType::Types(_, TypeOrVerdict::Type(data)) => Some(ComparedType::Named(data)),
            MapType::Selectors(_, SelectorOrVerdict::Selector(data)) => Some(data.kind()),
            MapType::Types(_, TypeOrVerdict::Verdict)
            | MapType::Selectors(_, SelectorOrVerdict::Verdict) => None,
        }
    }
}
