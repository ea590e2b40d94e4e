//! What nft(8) refuses of sets and maps.
use crate::findings::Findings;
use crate::intervals::{Interval, cover, is_interval, wildcard_stem};
use crate::names::{RESERVED_NAME, is_reserved_interface};
use nft_tree::{
    ComparedType, Element, Key, MapDecl, Pair, SetDecl, SetFlag, Value, ValueRange, ValueType,
};
use node_spans::{TokenRange, anonymous_elements, elements};
use std::alloc::AllocError;

/// The most bytes of an interface's name with a last `*`.
const MOST_OF_WILDCARD: usize = 15;

/// An element of a set or a map.
pub(crate) trait Listed: Drop {
    /// Its key; none of a concatenation.
    fn range(&self) -> Option<&ValueRange>;

    /// Whether nft takes its key for an interval.
    fn is_interval(&self) -> bool;
}

impl Listed for Element {
    fn range(&self) -> Option<&ValueRange> {
        match &self.key {
            Key::Single(range) => Some(range),
            Key::Joined(_) => None,
        }
    }

    fn is_interval(&self) -> bool {
        match &self.key {
            Key::Single(range) => is_interval(range),
            Key::Joined(values) => values.iter().any(|value| wildcard_stem(value).is_some()),
        }
    }
}

impl Listed for Pair {
    fn range(&self) -> Option<&ValueRange> {
        Some(&self.key)
    }

    fn is_interval(&self) -> bool {
        is_interval(&self.key)
    }
}

/// Whether a flag is among those of a set or a map.
fn has_flag(flags: &Option<Vec<SetFlag>>, wanted: SetFlag) -> bool {
    let flags = flags.as_deref().unwrap_or(&[]);
    flags.iter().any(|flag| *flag as u8 == wanted as u8)
}

impl Findings<'_> {
    /// Adds the warnings about a set.
    pub(crate) fn judge_set(&mut self, set: &SetDecl, range: TokenRange) -> Result<(), AllocError> {
        if set.auto_merge && !has_flag(&set.flags, SetFlag::Interval) {
            let warning = "nft wants `flags interval` beside `auto-merge`";
            self.add_at_word(range, b"auto-merge", warning);
        }
        let kind = set.key.kind(0).unwrap_or(ComparedType::Unnamed(0));
        let list = &set.elements;
        self.judge_declared(list, kind, &set.flags, set.size, set.auto_merge, range)
    }

    /// Adds the warnings about a map.
    pub(crate) fn judge_map(&mut self, map: &MapDecl, range: TokenRange) -> Result<(), AllocError> {
        if map.auto_merge {
            self.add_at_word(range, b"auto-merge", "nft refuses `auto-merge` in a map");
        }
        let kind = map.types.key();
        self.judge_declared(&map.elements, kind, &map.flags, map.size, false, range)
    }

    /// Adds what nft refuses of a set or a map, and of its elements.
    fn judge_declared<E: Listed>(
        &mut self,
        list: &Option<Vec<E>>,
        kind: ComparedType,
        flags: &Option<Vec<SetFlag>>,
        size: Option<u64>,
        is_merged: bool,
        range: TokenRange,
    ) -> Result<(), AllocError> {
        self.judge_braces(range, false);
        let list = list.as_deref().unwrap_or(&[]);
        let places = elements(self.alloc, self.tokens.all, range)?.unwrap_or(Vec::new(self.alloc));
        let is_interval = has_flag(flags, SetFlag::Interval);
        for (element, place) in list.iter().zip(&places) {
            if element.is_interval() && !is_interval {
                let warning = "nft wants `flags interval` for ranges, prefixes and names with `*`";
                self.add(place.first, warning);
                break;
            }
        }
        let is_apart = is_interval && !is_merged;
        let count = self.judge_elements(list, &places, kind, is_merged, is_apart)?;
        // One that is constant isn't filled up, and 0 is no limit.
        if let Some(size) = size
            && 0 < size
            && size < count as u64
            && !has_flag(flags, SetFlag::Constant)
        {
            self.add_at_word(range, b"size", "nft refuses more elements than `size`");
        }
        Ok(())
    }

    /// Adds what nft refuses of the elements of an anonymous set or map of a statement.
    pub(crate) fn judge_anonymous<E: Listed>(
        &mut self,
        list: &[E],
        kind: ComparedType,
        is_map: bool,
        statement: TokenRange,
    ) -> Result<(), AllocError> {
        let places = anonymous_elements(self.alloc, self.tokens.all, statement)?;
        let places = places.unwrap_or(Vec::new(self.alloc));
        self.judge_elements(list, &places, kind, false, is_map)?;
        Ok(())
    }

    /// Adds what nft refuses of elements at these places, which may have to be apart, and returns how
    /// many intervals they are. Concatenations never overlap, and names of interfaces whose indexes
    /// are meant count for none.
    fn judge_elements<E: Listed>(
        &mut self,
        list: &[E],
        places: &[TokenRange],
        kind: ComparedType,
        is_merged: bool,
        is_apart: bool,
    ) -> Result<usize, AllocError> {
        let mut intervals = Vec::with_capacity(self.alloc, list.len())?;
        for (element, place) in list.iter().zip(places) {
            let Some(range) = element.range() else {
                return Ok(list.len());
            };
            if let ValueRange::One(value) = range {
                self.judge_literal(value, kind, place.first, true);
            }
            if let Some(interval) = Interval::of(range, kind, place.first) {
                intervals.push(interval)?;
            }
        }
        if intervals.len() < list.len() {
            return Ok(0);
        }
        let (count, overlapping) = cover(&mut intervals, is_merged);
        match overlapping {
            Some(place) if is_apart => self.add(
                place,
                "nft refuses elements that overlap; in a set `auto-merge` joins them",
            ),
            _ => {}
        }
        Ok(count)
    }

    /// Adds what nft refuses of a literal at a token, in a list or not: the name of an interface.
    pub(crate) fn judge_literal(
        &mut self,
        value: &Value,
        kind: ComparedType,
        place: usize,
        in_list: bool,
    ) {
        let ComparedType::Named(ValueType::InterfaceName | ValueType::InterfaceIndex) = kind else {
            return;
        };
        match value {
            Value::Word(word) if is_reserved_interface(word, in_list) => {
                self.add(place, RESERVED_NAME);
            }
            Value::String(name)
                if name.len() > MOST_OF_WILDCARD && wildcard_stem(value).is_some() => {
                self.add(place, "nft refuses more than 14 bytes before `*`");
            }
            _ => {}
        }
    }
}
