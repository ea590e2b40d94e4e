//! Overlapping map elements with different data.
ghost use Rattle.std.specs.Prelude.{◌≡◌, [], flat_map, map, List, IfOk, OnOk};
ghost use Rattle.std.specs.List.{list_any};
ghost use Rattle.nft_tree.specs.Tree.{ItemTree, RuleTree, Statement, TableTree};
ghost use Rattle.nft_tree.specs.TreeViews.{item_tree, pair_tree, rule_tree, statement, table_tree};
ghost use Rattle.rule_values.specs.TypedValues.{TypedMap, item_maps, maps_in, rule_maps, statement_maps};
ghost use Rattle.rule_values.specs.Faults.{map_entry_of, map_contradicts};
ghost use Rattle.rule_values.specs.steps.Views.{elements_tree};
ghost use Rattle.rule_values.specs.steps.MapEntries.{RepresentsOptionalEntry, KeepsIndices, RepresentsEntries, entries_of};

use crate::comparable_data::{ComparableData, comparable_form_of};
use crate::elements::{Elements, declared_elements, statement_elements};
use box_file::Plant;
use indexmap::IndexSet;
use nft_tree::{Item, Pair, Rule, Stmt, Table};
use nft_values::numbers_of;
use set_intervals::{Intervals, Range, SetError};
use std::alloc::{AllocError, Global};

/// A part of a ruleset that has maps.
pub(crate) trait HasMaps: Drop {
    ghost Tree: { Type 0 };

    /// The model: what contracts speak of.
    ghost tree: { Self → Tree };

    ghost maps_of: { Tree → List TypedMap };

    /// Whether one of its maps has overlapping elements with different data.
    fn contradicts(&self, alloc: Global, network: &Plant) -> Result<bool, AllocError>
        ensures { IfOk result (λ b. b ≡ list_any (map_contradicts network.now)
            (maps_of (tree self.now))) };
}

pub(crate) fn any_contradicts<T: HasMaps>(
    alloc: Global,
    network: &Plant,
    parts: &[T],
) -> Result<bool, AllocError>
    ensures { IfOk result (λ b. b ≡ list_any (map_contradicts network.now)
        (flat_map T.maps_of (map T.tree parts.now))) }
{
    for part in parts {
        if part.contradicts(alloc, network)? {
            return Ok(true);
        }
    }
    Ok(false)
}

impl HasMaps for Table {
    ghost Tree = { TableTree };

    ghost tree = { table_tree };

    ghost maps_of = { maps_in };

    fn contradicts(&self, alloc: Global, network: &Plant) -> Result<bool, AllocError> {
        any_contradicts(alloc, network, &self.items)
    }
}

impl HasMaps for Item {
    ghost Tree = { ItemTree };

    ghost tree = { item_tree };

    ghost maps_of = { item_maps };

    fn contradicts(&self, alloc: Global, network: &Plant) -> Result<bool, AllocError> {
        match self {
            Item::Chain(chain) => any_contradicts(alloc, network, &chain.rules),
            Item::Map(map) => map_contradicts(alloc, network, &declared_elements(map)),
            Item::Comment(_) | Item::Set(_) => Ok(false),
        }
    }
}

impl HasMaps for Rule {
    ghost Tree = { RuleTree };

    ghost tree = { rule_tree };

    ghost maps_of = { rule_maps };

    fn contradicts(&self, alloc: Global, network: &Plant) -> Result<bool, AllocError> {
        any_contradicts(alloc, network, &self.statements)
    }
}

impl HasMaps for Stmt {
    ghost Tree = { Statement };

    ghost tree = { statement };

    ghost maps_of = { statement_maps };

    fn contradicts(&self, alloc: Global, network: &Plant) -> Result<bool, AllocError> {
        match statement_elements(self) {
            None => Ok(false),
            Some(elements) => map_contradicts(alloc, network, &elements),
        }
    }
}

/// Whether two elements of the map overlap and have different data.
fn map_contradicts(alloc: Global, network: &Plant, elements: &Elements) -> Result<bool, AllocError>
    ensures { IfOk result (λ b. b ≡ map_contradicts network.now (elements_tree elements.now)) }
{
    let pairs = gather(alloc, network, elements)?;
    match Intervals::build(alloc, &pairs) {
        Ok(_) => Ok(false),
        Err(SetError::Clash) => Ok(true),
        Err(SetError::Memory) => Err(AllocError),
    }
}

/// The elements that denote numbers, each as the range of its key and its data.
fn gather(
    alloc: Global,
    network: &Plant,
    elements: &Elements,
) -> Result<Vec<(Range, ComparableData)>, AllocError>
    ensures { IfOk result (λ pairs. RepresentsEntries pairs.items
        (entries_of network.now (elements_tree elements.now))) }
{
    let mut names = IndexSet::new(alloc);
    let mut pairs = Vec::new(alloc);
    add_entries(&mut names, &mut pairs, network, elements)?;
    Ok(pairs)
}

fn add_entries<'t>(
    names: &mut IndexSet<&'t [u8]>,
    pairs: &mut Vec<(Range, ComparableData)>,
    network: &Plant,
    elements: &Elements<'t>,
) -> Result<(), AllocError>
    requires { pairs.old.items ≡ [] }
    ensures { OnOk result (RepresentsEntries pairs.new.items
        (entries_of network.now (elements_tree elements.now))) }
{
    for pair in elements.pairs {
        if let Some(entry) = entry(names, network, elements, pair)? {
            pairs.push(entry)?;
        }
    }
    Ok(())
}

/// The range of an element's key, and its data; `None` if one of them denotes no number.
fn entry<'t>(
    names: &mut IndexSet<&'t [u8]>,
    network: &Plant,
    elements: &Elements,
    pair: &'t Pair,
) -> Result<Option<(Range, ComparableData)>, AllocError>
    ensures keeps { OnOk result (KeepsIndices names.old.keys names.new.keys) }
    ensures entry { IfOk result (λ e. RepresentsOptionalEntry names.new.keys
        (map_entry_of network.now (elements_tree elements.now) (pair_tree pair.now)) e) }
{
    let given = comparable_form_of(names, network, elements.value, &pair.value)?;
    match (numbers_of(network, elements.key, &pair.key), given) {
        (Some(keys), Some(given)) => Ok(Some((keys, given))),
        _ => Ok(None),
    }
}
