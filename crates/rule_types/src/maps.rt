//! The keys and data of maps.
ghost use Rattle.std.specs.Prelude.{◌≡◌, map};
ghost use Rattle.std.specs.List.{list_any};
ghost use Rattle.nft_tree.specs.TreeViews.{data_tree, map_ref_tree, map_tree, pair_tree};
ghost use Rattle.rule_names.specs.Names.{map_named, set_named};
ghost use Rattle.rule_types.specs.Types.{data_mismatches, map_mismatches, map_ref_mismatches, named_map_mismatches, pair_mismatches, same_data};

use crate::compared_types::{range_mismatches, same_compared_type};
use nft_tree::{ComparedType, Data, MapDecl, MapRef, Pair, Selector};
use rule_names::TableNames;

/// Whether it is a verdict where a value is wanted, or the reverse. `wanted` is the type of the
/// values, `None` for verdicts.
fn data_mismatches(wanted: Option<ComparedType>, given: &Data) -> bool
    ensures { result ≡ data_mismatches wanted (data_tree given.now) }
{
    match (wanted, given) {
        (None, Data::Verdict(_)) | (Some(_), Data::Value(_)) => false,
        (None, Data::Value(_)) | (Some(_), Data::Verdict(_)) => true,
    }
}

fn pair_mismatches(key: ComparedType, wanted: Option<ComparedType>, pair: &Pair) -> bool
    ensures { result ≡ pair_mismatches key wanted (pair_tree pair.now) }
{
    range_mismatches(key, &pair.key) || data_mismatches(wanted, &pair.value)
}

fn some_pair_mismatches(key: ComparedType, wanted: Option<ComparedType>, pairs: &[Pair]) -> bool
    ensures { result ≡ list_any (pair_mismatches key wanted) (map pair_tree pairs.now) }
{
    for pair in pairs {
        if pair_mismatches(key, wanted, pair) {
            return true;
        }
    }
    false
}

/// Whether an element of a declared map doesn't match the map's types.
pub(crate) fn map_mismatches(map: &MapDecl) -> bool
    ensures { result ≡ map_mismatches (map_tree map.now) }
{
    match &map.elements {
        Some(pairs) => some_pair_mismatches(map.types.key(), map.types.data(), pairs),
        None => false,
    }
}

/// Whether both are verdicts, or both are values of the same type.
fn same_data(one: Option<ComparedType>, other: Option<ComparedType>) -> bool
    ensures { result ≡ same_data one other }
{
    match (one, other) {
        (None, None) => true,
        (Some(one), Some(other)) => same_compared_type(one, other),
        _ => false,
    }
}

/// Whether the name is that of a set, or of a map with another key or data type.
fn named_map_mismatches(
    names: &TableNames,
    key: ComparedType,
    wanted: Option<ComparedType>,
    name: &[u8],
) -> bool
    ensures { result ≡ named_map_mismatches key wanted (set_named names.now name.now)
        (map_named names.now name.now) }
{
    match names.map(name) {
        Some(map) => !(same_compared_type(key, map.types.key())
            && same_data(wanted, map.types.data())),
        None => names.set(name).is_some(),
    }
}

/// Whether the map's key type isn't the selector's, or its data type isn't the wanted one.
pub(crate) fn map_ref_mismatches(
    names: &TableNames,
    selector: Selector,
    wanted: Option<ComparedType>,
    map: &MapRef,
) -> bool
    ensures { result ≡ map_ref_mismatches names.now selector wanted (map_ref_tree map.now) }
{
    match map {
        MapRef::Named(name) => named_map_mismatches(names, selector.kind(), wanted, name),
        MapRef::Anonymous(pairs) => some_pair_mismatches(selector.kind(), wanted, pairs),
    }
}
