//! Applies a check to all values of a ruleset.
ghost use Rattle.std.specs.Prelude.{◌≡◌, flat_map, map, List};
ghost use Rattle.std.specs.List.{list_any};
ghost use Rattle.nft_tree.specs.Tree.{ItemTree, RuleTree, Statement};
ghost use Rattle.nft_tree.specs.TreeViews.{data_tree, element_tree, item_tree, key_tree, match_tree};
ghost use Rattle.nft_tree.specs.TreeViews.{pair_tree, rule_tree, set_ref_tree, statement, table_tree, value_tree};
ghost use Rattle.rule_values.specs.TypedValues.{TypedRange, data_ranges, element_ranges, item_ranges, joined_ranges, key_ranges};
ghost use Rattle.rule_values.specs.TypedValues.{map_ranges, match_ranges, ranges_in, rule_ranges, set_ref_ranges};
ghost use Rattle.rule_values.specs.TypedValues.{statement_ranges};
ghost use Rattle.rule_values.specs.steps.Checks.{fails, pair_ranges};
ghost use Rattle.rule_values.specs.steps.Views.{elements_tree, key_types_of};

use crate::elements::{Elements, declared_elements, statement_elements};
use crate::keys::KeyTypes;
use crate::value_check::ValueCheck;
use box_file::Plant;
use nft_tree::{
    ComparedType, Data, Element, Item, Key, Match, Pair, Rule, Selector, SetRef, Stmt, Table, Value,
};

/// A part of a table that has values.
trait HasRanges: Drop {
    ghost Tree: { Type 0 };

    /// The model: what contracts speak of.
    ghost tree: { Self → Tree };

    ghost ranges_of: { Tree → List TypedRange };

    /// Whether one of its values fails the check.
    fn some_fails(&self, value_check: ValueCheck, network: &Plant) -> bool
        ensures { result ≡ list_any (fails value_check network.now)
            (ranges_of (tree self.now)) };
}

fn parts_fail<T: HasRanges>(value_check: ValueCheck, network: &Plant, parts: &[T]) -> bool
    ensures { result ≡ list_any (fails value_check network.now)
        (flat_map T.ranges_of (map T.tree parts.now)) }
{
    for part in parts {
        if part.some_fails(value_check, network) {
            return true;
        }
    }
    false
}

/// Whether some value of the table fails the check.
pub(crate) fn table_fails(value_check: ValueCheck, network: &Plant, table: &Table) -> bool
    ensures { result ≡ list_any (fails value_check network.now) (ranges_in (table_tree table.now)) }
{
    parts_fail(value_check, network, &table.items)
}

impl HasRanges for Item {
    ghost Tree = { ItemTree };

    ghost tree = { item_tree };

    ghost ranges_of = { item_ranges };

    fn some_fails(&self, value_check: ValueCheck, network: &Plant) -> bool {
        match self {
            Item::Comment(_) => false,
            Item::Chain(chain) => parts_fail(value_check, network, &chain.rules),
            Item::Set(set) => match &set.elements {
                None => false,
                Some(elements) => elements_fail(
                    value_check,
                    network,
                    &KeyTypes::Declared(&set.key),
                    elements.as_slice(),
                ),
            },
            Item::Map(map) => map_fails(value_check, network, &declared_elements(map)),
        }
    }
}

impl HasRanges for Rule {
    ghost Tree = { RuleTree };

    ghost tree = { rule_tree };

    ghost ranges_of = { rule_ranges };

    fn some_fails(&self, value_check: ValueCheck, network: &Plant) -> bool {
        parts_fail(value_check, network, &self.statements)
    }
}

impl HasRanges for Stmt {
    ghost Tree = { Statement };

    ghost tree = { statement };

    ghost ranges_of = { statement_ranges };

    fn some_fails(&self, value_check: ValueCheck, network: &Plant) -> bool {
        if let Stmt::Match(test) = self {
            return match_fails(value_check, network, test);
        }
        match statement_elements(self) {
            None => false,
            Some(elements) => map_fails(value_check, network, &elements),
        }
    }
}

fn match_fails(value_check: ValueCheck, network: &Plant, test: &Match) -> bool
    ensures { result ≡ list_any (fails value_check network.now) (match_ranges (match_tree test.now)) }
{
    match test {
        Match::Compare(selector, _, range) => value_check.fails(network, selector.kind(), range),
        Match::In(selectors, set) | Match::NotIn(selectors, set) => {
            set_ref_fails(value_check, network, selectors.as_slice(), set)
        }
        _ => false,
    }
}

fn set_ref_fails(
    value_check: ValueCheck,
    network: &Plant,
    selectors: &[Selector],
    set: &SetRef,
) -> bool
    ensures { result ≡ list_any (fails value_check network.now)
        (set_ref_ranges selectors.now (set_ref_tree set.now)) }
{
    match set {
        SetRef::Named(_) => false,
        SetRef::Anonymous(elements) => elements_fail(
            value_check,
            network,
            &KeyTypes::Selected(selectors),
            elements.as_slice(),
        ),
    }
}

fn elements_fail(
    value_check: ValueCheck,
    network: &Plant,
    kinds: &KeyTypes,
    elements: &[Element],
) -> bool
    ensures { result ≡ list_any (fails value_check network.now)
        (element_ranges (key_types_of kinds.now) (map element_tree elements.now)) }
{
    for element in elements {
        if key_fails(value_check, network, kinds, &element.key) {
            return true;
        }
    }
    false
}

fn key_fails(value_check: ValueCheck, network: &Plant, kinds: &KeyTypes, key: &Key) -> bool
    ensures { result ≡ list_any (fails value_check network.now)
        (key_ranges (key_types_of kinds.now) (key_tree key.now)) }
{
    match key {
        Key::Single(range) => match kinds.kind(0) {
            None => false,
            Some(kind) => value_check.fails(network, kind, range),
        },
        Key::Joined(values) => joined_fail(value_check, network, kinds, values.as_slice()),
    }
}

/// Whether some of the concatenated values fails the check, each by the type of its part.
fn joined_fail(value_check: ValueCheck, network: &Plant, kinds: &KeyTypes, values: &[Value]) -> bool
    ensures { result ≡ list_any (fails value_check network.now)
        (joined_ranges (key_types_of kinds.now) (map value_tree values.now)) }
{
    for (part, value) in values.iter().enumerate() {
        let Some(kind) = kinds.kind(part) else {
            return false;
        };
        if value_check.fails_value(network, kind, value) {
            return true;
        }
    }
    false
}

/// Whether some key or value of the map fails the check.
fn map_fails(value_check: ValueCheck, network: &Plant, elements: &Elements) -> bool
    ensures { result ≡ list_any (fails value_check network.now)
        (map_ranges (elements_tree elements.now)) }
{
    for pair in elements.pairs {
        if pair_fails(value_check, network, elements, pair) {
            return true;
        }
    }
    false
}

fn pair_fails(value_check: ValueCheck, network: &Plant, elements: &Elements, pair: &Pair) -> bool
    ensures { result ≡ list_any (fails value_check network.now)
        (pair_ranges (elements_tree elements.now) (pair_tree pair.now)) }
{
    value_check.fails(network, elements.key, &pair.key)
        || data_fails(value_check, network, elements.value, &pair.value)
}

fn data_fails(
    value_check: ValueCheck,
    network: &Plant,
    wanted: Option<ComparedType>,
    datum: &Data,
) -> bool
    ensures { result ≡ list_any (fails value_check network.now)
        (data_ranges wanted (data_tree datum.now)) }
{
    match (wanted, datum) {
        (Some(kind), Data::Value(value)) => value_check.fails_value(network, kind, value),
        _ => false,
    }
}
