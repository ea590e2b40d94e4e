//! The elements of maps with the types of their keys and data.
ghost use Rattle.std.specs.Prelude.{◌≡◌};
ghost use Rattle.std.specs.Option.{option_map};
ghost use Rattle.nft_tree.specs.TreeViews.{map_ref_tree, map_tree, statement};
ghost use Rattle.rule_values.specs.TypedValues.{anonymous_map, declared_map, statement_maps};
ghost use Rattle.rule_values.specs.steps.Views.{elements_tree, listed};

use nft_tree::{
    ComparedType, DestinationTarget, MapDecl, MapLookup, MapRef, Nat, Operand, Pair, Selector,
    SourceTarget, Stmt, ValueType,
};

/// A map's elements with the types of their keys and data.
#[derive(Clone, Copy)]
pub(crate) struct Elements<'t> {
    pub(crate) key: ComparedType,
    /// `None` if the data are verdicts.
    pub(crate) value: Option<ComparedType>,
    pub(crate) pairs: &'t [Pair],
}

/// The elements of a declared map.
pub(crate) fn declared_elements(map: &MapDecl) -> Elements<'_>
    ensures { elements_tree result ≡ declared_map (map_tree map.now) }
{
    Elements {
        key: map.types.key(),
        value: map.types.data(),
        pairs: match &map.elements {
            None => &[],
            Some(pairs) => pairs.as_slice(),
        },
    }
}

/// The elements of an anonymous map, in which the selector is looked up.
fn anonymous_elements(
    selector: Selector,
    value: Option<ComparedType>,
    map: &MapRef,
) -> Option<Elements<'_>>
    ensures { listed (option_map elements_tree result)
        ≡ anonymous_map selector value (map_ref_tree map.now) }
{
    match map {
        MapRef::Named(_) => None,
        MapRef::Anonymous(pairs) => Some(Elements {
            key: selector.kind(),
            value,
            pairs: pairs.as_slice(),
        }),
    }
}

/// The elements of the anonymous map in a statement, if there is one.
pub(crate) fn statement_elements(stmt: &Stmt) -> Option<Elements<'_>>
    ensures { listed (option_map elements_tree result) ≡ statement_maps (statement stmt.now) }
{
    match stmt {
        Stmt::VerdictMap(selector, map) => anonymous_elements(*selector, None, map),
        Stmt::SetMark(_, Operand::MapLookup(MapLookup { selector, map })) => {
            anonymous_elements(*selector, Some(ComparedType::Named(ValueType::Mark)), map)
        }
        Stmt::Nat(
            Nat::Source(SourceTarget::MapLookup(MapLookup { selector, map }))
            | Nat::Destination(DestinationTarget::MapLookup(MapLookup { selector, map })),
        ) => anonymous_elements(
            *selector,
            Some(ComparedType::Named(ValueType::Address)),
            map,
        ),
        _ => None,
    }
}
