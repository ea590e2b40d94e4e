//! References to sets and maps (`@name`).
ghost use Rattle.std.specs.Prelude.{◌≡◌};
ghost use Rattle.std.specs.List.{list_any};
ghost use Rattle.nft_tree.specs.TreeViews.{map_ref_tree, set_ref_tree, statement};
ghost use Rattle.rule_names.specs.Names.{map_ref_names, set_ref_names, statement_references};
ghost use Rattle.rule_names.specs.steps.NameFaults.{is_unknown};

use crate::table::TableNames;
use nft_tree::{
    DestinationTarget, MapLookup, MapRef, Match, Nat, Operand, SetRef, SourceTarget, Stmt,
};

fn is_unknown_set(names: &TableNames, set: &SetRef) -> bool
    ensures { result ≡ list_any (is_unknown names.now) (set_ref_names (set_ref_tree set.now)) }
{
    match set {
        SetRef::Named(name) => !names.has_set_or_map(name),
        SetRef::Anonymous(_) => false,
    }
}

fn is_unknown_map(names: &TableNames, map: &MapRef) -> bool
    ensures { result ≡ list_any (is_unknown names.now) (map_ref_names (map_ref_tree map.now)) }
{
    match map {
        MapRef::Named(name) => !names.has_set_or_map(name),
        MapRef::Anonymous(_) => false,
    }
}

pub(crate) fn statement_refers_to_unknown_set(names: &TableNames, stmt: &Stmt) -> bool
    ensures { result ≡ list_any (is_unknown names.now) (statement_references (statement stmt.now)) }
{
    match stmt {
        Stmt::Match(Match::In(_, set) | Match::NotIn(_, set)) => is_unknown_set(names, set),
        Stmt::VerdictMap(_, map)
        | Stmt::SetMark(_, Operand::MapLookup(MapLookup { map, .. }))
        | Stmt::Nat(
            Nat::Source(SourceTarget::MapLookup(MapLookup { map, .. }))
            | Nat::Destination(DestinationTarget::MapLookup(MapLookup { map, .. })),
        ) => is_unknown_map(names, map),
        _ => false,
    }
}
