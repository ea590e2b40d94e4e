//! Lookup tables for the sets and maps that a table declares.
ghost use Rattle.std.specs.Prelude.{◌≡◌, false, map, IfOk};
ghost use Rattle.nft_tree.specs.TreeViews.{map_tree, pair_tree, set_tree};
ghost use Rattle.nft_tree.specs.TableItems.{sets_of};
ghost use Rattle.rule_types.specs.Types.{is_too_wide, table_mismatches};
ghost use Rattle.rule_names.specs.Names.{some_of};
ghost use Rattle.nft_tree.specs.ComparedTypes.{key_compared_types};
ghost use Rattle.lowering.specs.Lowered.{HasDeclared};
ghost use Rattle.lowering.specs.steps.Tables.{AllPairs, IsMapNumbers, IsMapVerdicts, IsDeclaredSet};

use crate::keys::key_compared_types;
use crate::tables::{number_table, set_table, verdict_table};
use box_file::Plant;
use nft_tree::{ComparedType, MapDecl, Pair, SetDecl, ValueType};
use rule_code::Lookups;
use rule_meaning::RuleVerdict;
use rule_names::TableNames;
use set_intervals::Intervals;
use std::alloc::{AllocError, Global};

/// The lookup table of a declared set.
fn declared_set(alloc: Global, network: &Plant, set: &SetDecl) -> Result<Intervals<()>, AllocError>
    requires { is_too_wide (key_compared_types (set_tree set.now).key) ≡ false }
    ensures { IfOk result (IsDeclaredSet network.now (set_tree set.now)) }
{
    let kinds = key_compared_types(alloc, &set.key)?;
    match &set.elements {
        Some(elements) => set_table(alloc, network, &kinds, elements),
        None => set_table(alloc, network, &kinds, &[]),
    }
}

/// The lookup tables of the declared sets, in text order.
fn declared_sets(
    alloc: Global,
    network: &Plant,
    names: &TableNames,
) -> Result<Vec<Intervals<()>>, AllocError>
    requires types { table_mismatches names.now ≡ false }
    ensures { IfOk result (λ tables.
        AllPairs (IsDeclaredSet network.now) (sets_of names.now) tables.items) }
{
    let mut tables = Vec::new(alloc);
    for set in names.sets() {
        tables.push(declared_set(alloc, network, set)?)?;
    }
    Ok(tables)
}

/// The elements of a declared map; none where it has no `elements`.
fn pairs_of(declared: &MapDecl) -> &[Pair]
    ensures { map pair_tree result.now ≡ some_of (map_tree declared.now).elements }
{
    match &declared.elements {
        Some(pairs) => pairs,
        None => &[],
    }
}

/// The lookup table of a declared verdict map; an empty one where its data aren't verdicts.
fn declared_verdicts(
    alloc: Global,
    network: &Plant,
    names: &TableNames,
    map: &MapDecl,
) -> Result<Intervals<RuleVerdict>, AllocError>
    ensures { IfOk result (IsMapVerdicts network.now names.now (map_tree map.now)) }
{
    match map.types.data() {
        None => verdict_table(alloc, network, names, map.types.key(), pairs_of(map)),
        Some(_) => verdict_table(alloc, network, names, map.types.key(), &[]),
    }
}

/// The lookup table of a declared map of marks or addresses; an empty one for any other map.
fn declared_numbers(
    alloc: Global,
    network: &Plant,
    map: &MapDecl,
) -> Result<Intervals<u32>, AllocError>
    ensures { IfOk result (IsMapNumbers network.now (map_tree map.now)) }
{
    match map.types.data() {
        Some(ComparedType::Named(ValueType::Mark)) => {
            number_table(
                alloc,
                network,
                map.types.key(),
                ValueType::Mark,
                pairs_of(map),
            )
        }
        Some(ComparedType::Named(ValueType::Address)) => {
            number_table(
                alloc,
                network,
                map.types.key(),
                ValueType::Address,
                pairs_of(map),
            )
        }
        _ => number_table(alloc, network, map.types.key(), ValueType::Mark, &[]),
    }
}

/// The lookup tables of the sets and maps that a table declares, in text order, on a box.
///
/// # Errors
/// `AllocError` for want of memory.
pub fn declared(alloc: Global, network: &Plant, names: &TableNames) -> Result<Lookups, AllocError>
    requires types { table_mismatches names.now ≡ false }
    ensures { IfOk result (λ lookups. HasDeclared network.now names.now lookups) }
{
    let sets = declared_sets(alloc, network, names)?;
    let mut verdicts = Vec::new(alloc);
    let mut numbers = Vec::new(alloc);
    for map in names.maps() {
        verdicts.push(declared_verdicts(alloc, network, names, map)?)?;
        numbers.push(declared_numbers(alloc, network, map)?)?;
    }
    Ok(Lookups {
        sets,
        verdicts,
        numbers,
    })
}
