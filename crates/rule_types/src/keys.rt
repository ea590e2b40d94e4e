//! The keys of sets: concatenated types, and elements.
ghost use Rattle.std.specs.Prelude.{◌≡◌, map, slice_get};
ghost use Rattle.std.specs.List.{list_any};
ghost use Rattle.nft_tree.specs.TreeViews.{element_tree, key_tree, set_ref_tree, set_tree, set_type_tree};
ghost use Rattle.nft_tree.specs.ComparedTypes.{key_compared_types, selector_compared_type};
ghost use Rattle.nft_tree.specs.declared.compared_types.ComparedType.TheVariants.{Named};
ghost use Rattle.rule_names.specs.Names.{map_named, set_named};
ghost use Rattle.rule_types.specs.Types.{is_too_wide, lookup_mismatches, named_set_mismatches, same_compared_types, set_mismatches, set_ref_mismatches};
ghost use Rattle.rule_types.specs.steps.Keys.{part_is, shape_mismatches, shape_of};

use crate::compared_types::{range_mismatches, same_compared_type};
use nft_tree::{ComparedType, Element, Key, Selector, SetDecl, SetRef, SetType, ValueType};
use rule_names::TableNames;

/// The greatest width of a concatenation, in bits.
const MAX_KEY_WIDTH: u32 = 128;

/// The form that keys must have.
#[derive(Clone, Copy)]
pub(crate) enum KeyShape {
    /// Values or ranges of one type.
    One(ComparedType),
    /// A concatenation of so many values.
    Joined(usize),
}

/// The form of keys for these selectors.
fn selectors_shape(selectors: &[Selector]) -> KeyShape
    ensures { result ≡ shape_of (map selector_compared_type selectors.now) }
{
    match selectors {
        [selector] => KeyShape::One(selector.kind()),
        _ => KeyShape::Joined(selectors.len()),
    }
}

/// The form of keys in a set of this type.
fn set_shape(key: &SetType) -> KeyShape
    ensures { result ≡ shape_of (key_compared_types (set_type_tree key.now)) }
{
    match (key.parts(), key.kind(0)) {
        (1, Some(kind)) => KeyShape::One(kind),
        (parts, _) => KeyShape::Joined(parts),
    }
}

/// Whether the key has the wrong number of parts, or is a range of a type without ranges.
fn key_mismatches(shape: KeyShape, key: &Key) -> bool
    ensures { result ≡ shape_mismatches shape (key_tree key.now) }
{
    match (shape, key) {
        (KeyShape::One(kind), Key::Single(range)) => range_mismatches(kind, range),
        (KeyShape::Joined(_), Key::Single(_)) => true,
        (KeyShape::One(_), Key::Joined(values)) => values.len() != 1,
        (KeyShape::Joined(parts), Key::Joined(values)) => values.len() != parts,
    }
}

fn some_key_mismatches(shape: KeyShape, elements: &[Element]) -> bool
    ensures { result ≡ list_any (λ e. shape_mismatches shape e.key)
        (map element_tree elements.now) }
{
    for element in elements {
        if key_mismatches(shape, &element.key) {
            return true;
        }
    }
    false
}

/// Whether the selectors' types have more than 128 bits together.
fn selectors_too_wide(selectors: &[Selector]) -> bool
    ensures { result ≡ is_too_wide (map selector_compared_type selectors.now) }
{
    let mut width = 0u32;
    for selector in selectors {
        width = width.saturating_add(selector.kind().width());
    }
    width > MAX_KEY_WIDTH
}

/// Whether the types have more than 128 bits together.
fn types_too_wide(types: &[ValueType]) -> bool
    ensures { result ≡ is_too_wide (map Named types.now) }
{
    let mut width = 0u32;
    for value_type in types {
        width = width.saturating_add(value_type.width());
    }
    width > MAX_KEY_WIDTH
}

fn key_too_wide(key: &SetType) -> bool
    ensures { result ≡ is_too_wide (key_compared_types (set_type_tree key.now)) }
{
    match key {
        SetType::Types(types) => types_too_wide(types),
        SetType::Selectors(selectors) => selectors_too_wide(selectors),
    }
}

/// Whether a declared set's key is wider than 128 bits, or an element doesn't match its type.
pub(crate) fn set_mismatches(set: &SetDecl) -> bool
    ensures { result ≡ set_mismatches (set_tree set.now) }
{
    key_too_wide(&set.key)
        || match &set.elements {
            Some(elements) => some_key_mismatches(set_shape(&set.key), elements),
            None => false,
        }
}

/// Whether the set's key has that part, and its type is this one.
fn part_is(key: &SetType, part: usize, kind: ComparedType) -> bool
    ensures { result ≡ part_is (slice_get (key_compared_types (set_type_tree key.now)) part) kind }
{
    match key.kind(part) {
        Some(declared) => same_compared_type(kind, declared),
        None => false,
    }
}

/// Whether the selectors' types are those of the set's key, part by part.
fn same_compared_types(selectors: &[Selector], key: &SetType) -> bool
    ensures { result ≡ same_compared_types (map selector_compared_type selectors.now)
        (key_compared_types (set_type_tree key.now)) }
{
    for (part, selector) in selectors.iter().enumerate() {
        if !part_is(key, part, selector.kind()) {
            return false;
        }
    }
    selectors.len() == key.parts()
}

/// Whether the name is that of a map, or of a set with another key type than the selectors'.
fn named_set_mismatches(names: &TableNames, selectors: &[Selector], name: &[u8]) -> bool
    ensures { result ≡ named_set_mismatches (map selector_compared_type selectors.now)
        (set_named names.now name.now) (map_named names.now name.now) }
{
    match names.set(name) {
        Some(set) => !same_compared_types(selectors, &set.key),
        None => names.map(name).is_some(),
    }
}

fn set_ref_mismatches(names: &TableNames, selectors: &[Selector], set: &SetRef) -> bool
    ensures { result ≡ set_ref_mismatches names.now (map selector_compared_type selectors.now)
        (set_ref_tree set.now) }
{
    match set {
        SetRef::Named(name) => named_set_mismatches(names, selectors, name),
        SetRef::Anonymous(elements) => some_key_mismatches(selectors_shape(selectors), elements),
    }
}

/// Whether the selectors are wider than 128 bits together, or their types aren't the set's.
pub(crate) fn lookup_mismatches(names: &TableNames, selectors: &[Selector], set: &SetRef) -> bool
    ensures { result ≡ lookup_mismatches names.now selectors.now (set_ref_tree set.now) }
{
    selectors_too_wide(selectors) || set_ref_mismatches(names, selectors, set)
}
