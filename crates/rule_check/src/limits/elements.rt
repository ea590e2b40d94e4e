//! The numbers of elements of sets and maps, named and anonymous. Sums saturate at `usize::MAX`,
//! far over the limit.
ghost use Rattle.std.specs.Prelude.{◌≡◌, min};
ghost use Rattle.nft_tree.specs.TreeViews.{item_tree, map_ref_tree, set_ref_tree, statement, tables_of};
ghost use Rattle.rule_check.specs.Limits.{element_count, item_elements, map_ref_elements, set_ref_elements, statement_elements};

use nft_tree::{
    DestinationTarget, Item, MapLookup, MapRef, Match, Nat, Operand, Ruleset, SetRef, SourceTarget,
    Stmt, sum,
};

/// The number of elements in all sets and maps.
pub fn element_count(tree: &Ruleset) -> usize
    ensures { result ≡ min (element_count (tables_of tree.now)) usize.MAX }
{
    sum(&tree.tables, |table| sum(&table.items, item_elements))
}

/// The number of elements of a named set or map, or of the anonymous ones in a chain.
fn item_elements(item: &Item) -> usize
    ensures { result ≡ min (item_elements (item_tree item.now)) usize.MAX }
{
    match item {
        Item::Comment(_) => 0,
        Item::Chain(chain) => sum(
            &chain.rules,
            |rule| sum(&rule.statements, statement_elements),
        ),
        Item::Set(set) => set.elements.as_ref().map_or(0, Vec::len),
        Item::Map(map) => map.elements.as_ref().map_or(0, Vec::len),
    }
}

/// The number of elements of the anonymous set or map in a statement.
fn statement_elements(stmt: &Stmt) -> usize
    ensures { result ≡ min (statement_elements (statement stmt.now)) usize.MAX }
{
    match stmt {
        Stmt::Match(Match::In(_, set) | Match::NotIn(_, set)) => set_ref_elements(set),
        Stmt::VerdictMap(_, map)
        | Stmt::SetMark(_, Operand::MapLookup(MapLookup { map, .. }))
        | Stmt::Nat(
            Nat::Source(SourceTarget::MapLookup(MapLookup { map, .. }))
            | Nat::Destination(DestinationTarget::MapLookup(MapLookup { map, .. })),
        ) => map_ref_elements(map),
        _ => 0,
    }
}

fn set_ref_elements(set: &SetRef) -> usize
    ensures { result ≡ set_ref_elements (set_ref_tree set.now) }
{
    match set {
        SetRef::Named(_) => 0,
        SetRef::Anonymous(elements) => elements.len(),
    }
}

fn map_ref_elements(map: &MapRef) -> usize
    ensures { result ≡ map_ref_elements (map_ref_tree map.now) }
{
    match map {
        MapRef::Named(_) => 0,
        MapRef::Anonymous(pairs) => pairs.len(),
    }
}
