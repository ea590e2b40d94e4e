//! Lookup tables that actions refer to by index.
ghost use Rattle.std.specs.Prelude.{◌≡◌, ◌+◌, false, length, map, slice_get, IfOk, OnOk};
ghost use Rattle.std.specs.Option.{option_map};
ghost use Rattle.nft_tree.specs.TreeViews.{element_tree, map_ref_tree, pair_tree, set_ref_tree};
ghost use Rattle.nft_tree.specs.ComparedTypes.{selector_compared_type};
ghost use Rattle.nft_tree.specs.declared.compared_types.ComparedType.TheVariants.{Named};
ghost use Rattle.rule_types.specs.Types.{is_too_wide, lookup_mismatches, map_ref_mismatches};
ghost use Rattle.rule_meaning.specs.Sets.{data_number, data_verdict, elements_have, map_gives, pairs_give, set_has};
ghost use Rattle.rule_meaning.specs.Statements.{rule_verdict_of};
ghost use Rattle.lowering.specs.Lowered.{AddsFewTables, Extends, HasDeclared, Keeps, scope_of};
ghost use Rattle.lowering.specs.steps.Tables.{IsNumberType};
ghost use Rattle.lowering.specs.steps.Actions.{HasNumbers, HasSet, HasVerdicts};

use crate::keys::selector_kinds;
use crate::tables::{number_table, set_table, verdict_table};
use box_file::Plant;
use nft_tree::{Element, MapLookup, MapRef, Pair, Selector, SetRef, ValueType};
use rule_code::Lookups;
use rule_names::TableNames;
use set_intervals::Intervals;
use std::alloc::{AllocError, Global};

/// Appends a table, and returns its index.
fn add_table<V: Drop>(
    tables: &mut Vec<Intervals<V>>,
    table: Intervals<V>,
) -> Result<usize, AllocError>
    ensures keeps { OnOk result (Keeps tables.old.items tables.new.items) }
    ensures long { OnOk result (length tables.new.items ≡ length tables.old.items + 1) }
    ensures at { IfOk result (λ i. slice_get tables.new.items i ≡ Some table) }
{
    let number = tables.len();
    tables.push(table)?;
    Ok(number)
}

/// Adds the table of an anonymous set, and returns its index.
fn add_set(
    alloc: Global,
    network: &Plant,
    selectors: &[Selector],
    elements: &[Element],
    lookups: &mut Lookups,
) -> Result<usize, AllocError>
    requires { is_too_wide (map selector_compared_type selectors.now) ≡ false }
    ensures extends { OnOk result (Extends lookups.old lookups.new) }
    ensures few { OnOk result (AddsFewTables lookups.old lookups.new) }
    ensures has { IfOk result (HasSet lookups.new
        (elements_have network.now (map selector_compared_type selectors.now)
        (map element_tree elements.now))) }
{
    let kinds = selector_kinds(alloc, selectors)?;
    let table = set_table(alloc, network, &kinds, elements)?;
    add_table(&mut lookups.sets, table)
}

/// The index of a set's table: that of a declared set, or of a new table for an anonymous one.
pub(crate) fn set_index(
    alloc: Global,
    network: &Plant,
    names: &TableNames,
    selectors: &[Selector],
    set: &SetRef,
    lookups: &mut Lookups,
) -> Result<usize, AllocError>
    requires declared { HasDeclared network.now names.now lookups.old }
    requires types { lookup_mismatches names.now selectors.now (set_ref_tree set.now) ≡ false }
    ensures extends { OnOk result (Extends lookups.old lookups.new) }
    ensures few { OnOk result (AddsFewTables lookups.old lookups.new) }
    ensures has { IfOk result (HasSet lookups.new
        (set_has (scope_of network.now names.now) selectors.now (set_ref_tree set.now))) }
{
    match set {
        SetRef::Named(name) => match names.set_index(name) {
            Some(place) => Ok(place),
            // An undeclared set has no element.
            None => add_set(alloc, network, selectors, &[], lookups),
        },
        SetRef::Anonymous(elements) => add_set(alloc, network, selectors, elements, lookups),
    }
}

/// Adds the table of an anonymous verdict map, and returns its index.
fn add_verdicts(
    alloc: Global,
    network: &Plant,
    names: &TableNames,
    selector: Selector,
    pairs: &[Pair],
    lookups: &mut Lookups,
) -> Result<usize, AllocError>
    ensures extends { OnOk result (Extends lookups.old lookups.new) }
    ensures few { OnOk result (AddsFewTables lookups.old lookups.new) }
    ensures gives { IfOk result (HasVerdicts lookups.new (λ n. option_map (rule_verdict_of names.now)
        (pairs_give data_verdict network.now (selector_compared_type selector)
        (map pair_tree pairs.now) n))) }
{
    let table = verdict_table(alloc, network, names, selector.kind(), pairs)?;
    add_table(&mut lookups.verdicts, table)
}

/// The index of a verdict map's table: that of a declared map, or of a new table for an anonymous
/// one.
pub(crate) fn verdict_map_index(
    alloc: Global,
    network: &Plant,
    names: &TableNames,
    selector: Selector,
    map: &MapRef,
    lookups: &mut Lookups,
) -> Result<usize, AllocError>
    requires declared { HasDeclared network.now names.now lookups.old }
    requires types { map_ref_mismatches names.now selector None (map_ref_tree map.now) ≡ false }
    ensures extends { OnOk result (Extends lookups.old lookups.new) }
    ensures few { OnOk result (AddsFewTables lookups.old lookups.new) }
    ensures gives { IfOk result (HasVerdicts lookups.new (λ n. option_map (rule_verdict_of names.now)
        (map_gives data_verdict (scope_of network.now names.now) selector (map_ref_tree map.now)
        n))) }
{
    match map {
        MapRef::Named(name) => match names.map_index(name) {
            Some(place) => Ok(place),
            // An undeclared map has no element.
            None => add_verdicts(alloc, network, names, selector, &[], lookups),
        },
        MapRef::Anonymous(pairs) => add_verdicts(alloc, network, names, selector, pairs, lookups),
    }
}

/// Adds the table of an anonymous map of marks or addresses, and returns its index.
fn add_numbers(
    alloc: Global,
    network: &Plant,
    selector: Selector,
    given: ValueType,
    pairs: &[Pair],
    lookups: &mut Lookups,
) -> Result<usize, AllocError>
    requires { IsNumberType given }
    ensures extends { OnOk result (Extends lookups.old lookups.new) }
    ensures few { OnOk result (AddsFewTables lookups.old lookups.new) }
    ensures gives { IfOk result (HasNumbers lookups.new
        (pairs_give (data_number network.now (Named given)) network.now
        (selector_compared_type selector) (map pair_tree pairs.now))) }
{
    let table = number_table(alloc, network, selector.kind(), given, pairs)?;
    add_table(&mut lookups.numbers, table)
}

/// The index of the table of a map of marks or addresses: that of a declared map, or of a new table
/// for an anonymous one.
pub(crate) fn number_map_index(
    alloc: Global,
    network: &Plant,
    names: &TableNames,
    given: ValueType,
    look: &MapLookup,
    lookups: &mut Lookups,
) -> Result<usize, AllocError>
    requires read { IsNumberType given }
    requires declared { HasDeclared network.now names.now lookups.old }
    requires types { map_ref_mismatches names.now look.now.selector (Some (Named given))
        (map_ref_tree look.now.map) ≡ false }
    ensures extends { OnOk result (Extends lookups.old lookups.new) }
    ensures few { OnOk result (AddsFewTables lookups.old lookups.new) }
    ensures gives { IfOk result (HasNumbers lookups.new
        (map_gives (data_number network.now (Named given)) (scope_of network.now names.now)
        look.now.selector (map_ref_tree look.now.map))) }
{
    match &look.map {
        MapRef::Named(name) => match names.map_index(name) {
            Some(place) => Ok(place),
            // An undeclared map has no element.
            None => add_numbers(alloc, network, look.selector, given, &[], lookups),
        },
        MapRef::Anonymous(pairs) => {
            add_numbers(alloc, network, look.selector, given, pairs, lookups)
        }
    }
}
