//! The sets of what packets do in a ruleset, made base chain by base chain.
ghost use Rattle.std.specs.Prelude.{◌≡◌, ◌≤◌, ◌++◌, ◌∷◌, [], List, length, filter, false, slice_get, Some, IfOk, IfErr, OnOk};
ghost use Rattle.std.specs.List.{list_any};
ghost use Rattle.nft_tree.specs.Tree.{TableTree};
ghost use Rattle.nft_tree.specs.TreeViews.{chain_tree};
ghost use Rattle.nft_tree.specs.TableItems.{chains_of};
ghost use Rattle.rule_types.specs.Types.{table_mismatches};
ghost use Rattle.rule_values.specs.Faults.{item_out_of_range};
ghost use Rattle.rule_check.specs.WellFormed.{WellFormed};
ghost use Rattle.rule_meaning.specs.Hooks.{BaseChain, base_chain_of, base_chains_from};
ghost use Rattle.lowering.specs.Lowered.{Extends, HasDeclared};
ghost use Rattle.rule_sets.specs.Interfaces.{interfaces_of};
ghost use Rattle.chain_ways.specs.Nesting.{SomeNestsOver};
ghost use Rattle.chain_sets.specs.declared.ways.TheConstants.{LEVELS};
ghost use Rattle.rule_reach.specs.declared.answers.ReachError.TheVariants.{TooDeep, TooLarge};
ghost use Rattle.coming_sets.specs.Bases.{runs};
ghost use Rattle.rule_reach.specs.Reach.{run_chains};
ghost use Rattle.rule_reach.specs.Nesting.{NestsTooDeep};
ghost use Rattle.rule_reach.specs.Sets.{AreReachSets, AreSetsOf};
ghost use Rattle.coming_sets.specs.Bases.{base_chain};

use crate::answers::ReachError;
use crate::numbers::to_u32;
use crate::sets::{BaseSets, ReachSets};
use chain_sets::chain_sets;
use coming_sets::{Base, coming};
use fact_sets::{Interfaces, Reader, Written};
use lowering::declared;
use nft_tree::Chain;
use packet_sets::Diagrams;
use rule_check::Checked;
use rule_code::Lookups;
use rule_meaning::ChainNo;
use rule_sets::{Setting, box_interfaces};
use std::alloc::Global;

/// What the base chains of a table stand in, and the box's interfaces.
#[derive(Clone, Copy)]
struct Place<'a, 't> {
    setting: Setting<'a, 't>,
    interfaces: &'a Interfaces,
}

/// Adds the sets of a base chain.
fn add_base(
    alloc: Global,
    diagrams: &mut Diagrams,
    lookups: &mut Lookups,
    place: Place<'_, '_>,
    base: Base<'_>,
    bases: &mut Vec<BaseSets>,
) -> Result<(), ReachError>
    requires declared { HasDeclared place.setting.network.now place.setting.names.now lookups.old }
    requires types { table_mismatches place.setting.names.now ≡ false }
    requires bounds { list_any item_out_of_range place.setting.names.now.items ≡ false }
    requires interfaces { place.interfaces.now ≡ interfaces_of place.setting.network.now }
    ensures extends { OnOk result (Extends lookups.old lookups.new) }
    ensures sets { OnOk result ((tables : List TableTree) (before : List BaseChain)
        → slice_get tables base.entry.number.table ≡ Some place.entry.setting.names.now
        → AreSetsOf place.entry.setting.network.now tables diagrams.old before bases.old.items
        → AreSetsOf place.entry.setting.network.now tables diagrams.new
        (before ++ base_chain base.entry ∷ []) bases.new.items) }
    ensures limit { diagrams.new.limit ≡ diagrams.old.limit }
    ensures too_large { IfErr result (λ e. e ≡ TooLarge
        → diagrams.new.limit ≤ length diagrams.new.nodes) }
    ensures too_deep { IfErr result (λ e. e ≡ TooDeep → (tables : List TableTree)
        → slice_get tables base.entry.number.table ≡ Some place.entry.setting.names.now
        → SomeNestsOver LEVELS place.entry.setting.network.now tables (base_chain base.entry ∷ [])) }
{
    let interfaces = place.interfaces;
    let reader = Reader {
        interfaces,
        written: Written::NOTHING,
    };
    let coming = coming(alloc, diagrams, reader, base)?;
    let chain = base.number;
    let sets = chain_sets(
        alloc,
        diagrams,
        lookups,
        place.setting,
        interfaces,
        chain,
        coming,
    )?;
    bases.push(BaseSets {
        chain,
        coming,
        rules: sets.rules,
        ends: sets.ends,
    })?;
    Ok(())
}

/// Adds those of a chain, if it is a base chain to which packets come.
fn add_chain(
    alloc: Global,
    diagrams: &mut Diagrams,
    lookups: &mut Lookups,
    place: Place<'_, '_>,
    number: ChainNo,
    chain: &Chain,
    bases: &mut Vec<BaseSets>,
) -> Result<(), ReachError>
    requires declared { HasDeclared place.setting.network.now place.setting.names.now lookups.old }
    requires types { table_mismatches place.setting.names.now ≡ false }
    requires bounds { list_any item_out_of_range place.setting.names.now.items ≡ false }
    requires interfaces { place.interfaces.now ≡ interfaces_of place.setting.network.now }
    ensures extends { OnOk result (Extends lookups.old lookups.new) }
    ensures sets { OnOk result ((tables : List TableTree) (before : List BaseChain)
        → slice_get tables number.table ≡ Some place.entry.setting.names.now
        → AreSetsOf place.entry.setting.network.now tables diagrams.old before bases.old.items
        → AreSetsOf place.entry.setting.network.now tables diagrams.new
        (before ++ filter runs (base_chain_of number.table number.chain (chain_tree chain.now).head))
        bases.new.items) }
    ensures limit { diagrams.new.limit ≡ diagrams.old.limit }
    ensures too_large { IfErr result (λ e. e ≡ TooLarge
        → diagrams.new.limit ≤ length diagrams.new.nodes) }
    ensures too_deep { IfErr result (λ e. e ≡ TooDeep → (tables : List TableTree)
        → slice_get tables number.table ≡ Some place.entry.setting.names.now
        → SomeNestsOver LEVELS place.entry.setting.network.now tables
        (filter runs (base_chain_of number.table number.chain (chain_tree chain.now).head))) }
{
    let Some(head) = &chain.head else {
        return Ok(());
    };
    let base = Base { number, head };
    if base.runs() {
        add_base(alloc, diagrams, lookups, place, base, bases)?;
    }
    Ok(())
}

/// Adds those of a table.
fn add_table(
    alloc: Global,
    diagrams: &mut Diagrams,
    place: Place<'_, '_>,
    table: u32,
    bases: &mut Vec<BaseSets>,
) -> Result<(), ReachError>
    requires types { table_mismatches place.setting.names.now ≡ false }
    requires bounds { list_any item_out_of_range place.setting.names.now.items ≡ false }
    requires interfaces { place.interfaces.now ≡ interfaces_of place.setting.network.now }
    ensures sets { OnOk result ((tables : List TableTree) (before : List BaseChain)
        → slice_get tables table ≡ Some place.entry.setting.names.now
        → AreSetsOf place.entry.setting.network.now tables diagrams.old before bases.old.items
        → AreSetsOf place.entry.setting.network.now tables diagrams.new (before
        ++ filter runs (base_chains_from table 0 (chains_of place.entry.setting.names.now)))
        bases.new.items) }
    ensures limit { diagrams.new.limit ≡ diagrams.old.limit }
    ensures too_large { IfErr result (λ e. e ≡ TooLarge
        → diagrams.new.limit ≤ length diagrams.new.nodes) }
    ensures too_deep { IfErr result (λ e. e ≡ TooDeep → (tables : List TableTree)
        → slice_get tables table ≡ Some place.entry.setting.names.now
        → SomeNestsOver LEVELS place.entry.setting.network.now tables
        (filter runs (base_chains_from table 0 (chains_of place.entry.setting.names.now)))) }
{
    let names = place.setting.names;
    let mut lookups = declared(alloc, place.setting.network, names)?;
    for (index, chain) in names.chains().iter().enumerate() {
        let number = ChainNo {
            table,
            chain: to_u32(index)?,
        };
        add_chain(alloc, diagrams, &mut lookups, place, number, chain, bases)?;
    }
    Ok(())
}

/// Those of a ruleset, as sets of these diagrams.
fn bases_by(
    alloc: Global,
    diagrams: &mut Diagrams,
    checked: &Checked,
) -> Result<Vec<BaseSets>, ReachError>
    requires { WellFormed checked.now.rules checked.now.network }
    ensures sets { IfOk result (λ bases. AreSetsOf checked.now.network checked.now.rules diagrams.new
        (run_chains checked.now.rules) bases.items) }
    ensures limit { diagrams.new.limit ≡ diagrams.old.limit }
    ensures too_large { IfErr result (λ e. e ≡ TooLarge
        → diagrams.new.limit ≤ length diagrams.new.nodes) }
    ensures too_deep { IfErr result (λ e. e ≡ TooDeep
        → NestsTooDeep checked.now.network checked.now.rules) }
{
    let network = checked.plant();
    let tables = checked.names(alloc)?;
    let interfaces = box_interfaces(alloc, network)?;
    let mut bases = Vec::new(alloc);
    for (table, names) in tables.iter().enumerate() {
        let place = Place {
            setting: Setting { network, names },
            interfaces: &interfaces,
        };
        add_table(alloc, diagrams, place, to_u32(table)?, &mut bases)?;
    }
    Ok(bases)
}

/// What packets do in a checked ruleset, of those of its box, as sets: for each base chain to which
/// packets come, in text order, those that can come to it, those that come to each rule of its table
/// and meet its last statement, and how their ways end. At most `limit` nodes are made for the sets,
/// about 40 bytes each.
///
/// # Errors
///
/// `TooLarge` where more nodes are needed than the limit allows, `TooDeep` where jumps and gotos lead
/// through more than 256 chains, `Memory` where an allocation failed.
pub fn reach_sets(alloc: Global, checked: &Checked, limit: u32) -> Result<ReachSets, ReachError>
    ensures sets { IfOk result (AreReachSets checked.now.network checked.now.rules) }
    ensures limit { IfOk result (λ sets. sets.diagrams.limit ≡ limit) }
    ensures too_deep { IfErr result (λ e. e ≡ TooDeep
        → NestsTooDeep checked.now.network checked.now.rules) }
{
    checked.known_bounds();
    let mut diagrams = Diagrams::new(alloc, limit)?;
    let bases = bases_by(alloc, &mut diagrams, checked)?;
    Ok(ReachSets { diagrams, bases })
}
