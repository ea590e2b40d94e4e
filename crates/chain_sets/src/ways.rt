//! The ways of all packets of a set through a base chain.
ghost use Rattle.std.specs.Prelude.{◌≡◌, ◌≤◌, ℕ, false, length, IfOk, IfErr, OnOk};
ghost use Rattle.std.specs.List.{list_any};
ghost use Rattle.packet_sets.specs.Sets.{IsSet, Keeps};
ghost use Rattle.rule_types.specs.Types.{table_mismatches};
ghost use Rattle.rule_values.specs.Faults.{item_out_of_range};
ghost use Rattle.rule_meaning.specs.Runs.{table_program};
ghost use Rattle.lowering.specs.Lowered.{Extends, HasDeclared};
ghost use Rattle.chain_ways.specs.Nesting.{NestsOver};
ghost use Rattle.chain_ways.specs.Ways.{way};
ghost use Rattle.chain_sets.specs.declared.fault.WalkError.TheVariants.{TooDeep, TooLarge};
ghost use Rattle.fact_sets.specs.Cases.{AreCases};
ghost use Rattle.chain_sets.specs.ChainSets.{AreOnWays, AreOnWaysFrom};
ghost use Rattle.chain_sets.specs.RuleSets.{sets_of};

use crate::fault::WalkError;
use crate::outcomes::ChainEnd;
use crate::table::TableSetting;
use crate::visits::Visits;
use crate::walking::walk_chain;
use fact_sets::{Case, Interfaces, Written};
use packet_sets::{Diagrams, PacketSet};
use rule_code::Lookups;
use rule_meaning::ChainNo;
use rule_sets::Setting;
use std::alloc::Global;

/// How many chains may lie in one another by jumps and gotos, the base chain included.
pub const LEVELS: u32 = 256;

/// What the packets of a set come to and meet in a base chain, and how their ways end.
#[derive(Drop)]
pub struct ChainSets {
    pub rules: Visits,
    pub ends: Vec<Case<ChainEnd>>,
}

/// The ways of the packets of a set through a chain of a table, as if rules had written nothing
/// before.
///
/// # Errors
///
/// `TooLarge` where more nodes are needed than the limit allows, `Memory` where an allocation
/// failed, `TooDeep` where packets come to more than `LEVELS` chains in one another.
pub fn chain_sets(
    alloc: Global,
    diagrams: &mut Diagrams,
    lookups: &mut Lookups,
    setting: Setting<'_, '_>,
    interfaces: &Interfaces,
    chain: ChainNo,
    set: PacketSet,
) -> Result<ChainSets, WalkError>
    requires declared { HasDeclared setting.network.now setting.names.now lookups.old }
    requires types { table_mismatches setting.names.now ≡ false }
    requires bounds { list_any item_out_of_range setting.names.now.items ≡ false }
    requires set { IsSet diagrams.old set }
    ensures keeps { Keeps diagrams.old diagrams.new }
    ensures extends { OnOk result (Extends lookups.old lookups.new) }
    ensures value { IfOk result (λ sets. (levels : ℕ) → LEVELS ≤ levels → AreOnWays
        (table_program setting.entry.network.now chain.table setting.entry.names.now) interfaces.now
        (way (table_program setting.entry.network.now chain.table setting.entry.names.now)
        levels chain.chain) diagrams.old diagrams.new set (sets_of sets.rules) sets.ends.items) }
    ensures too_large { IfErr result (λ e. e ≡ TooLarge
        → diagrams.new.limit ≤ length diagrams.new.nodes) }
    ensures too_deep { IfErr result (λ e. e ≡ TooDeep → NestsOver
        (table_program setting.entry.network.now chain.table setting.entry.names.now)
        LEVELS chain.chain) }
{
    let state = Case {
        set,
        outcome: Written::NOTHING,
    };
    chain_sets_from(
        alloc,
        diagrams,
        lookups,
        setting,
        interfaces,
        chain,
        &[state],
    )
}

/// The ways of the packets of states through a chain of a table.
///
/// # Errors
///
/// `TooLarge` where more nodes are needed than the limit allows, `Memory` where an allocation
/// failed, `TooDeep` where packets come to more than `LEVELS` chains in one another.
pub fn chain_sets_from(
    alloc: Global,
    diagrams: &mut Diagrams,
    lookups: &mut Lookups,
    setting: Setting<'_, '_>,
    interfaces: &Interfaces,
    chain: ChainNo,
    states: &[Case<Written>],
) -> Result<ChainSets, WalkError>
    requires declared { HasDeclared setting.network.now setting.names.now lookups.old }
    requires types { table_mismatches setting.names.now ≡ false }
    requires bounds { list_any item_out_of_range setting.names.now.items ≡ false }
    requires states { AreCases diagrams.old states.now }
    ensures keeps { Keeps diagrams.old diagrams.new }
    ensures extends { OnOk result (Extends lookups.old lookups.new) }
    ensures value { IfOk result (λ sets. (levels : ℕ) → LEVELS ≤ levels → AreOnWaysFrom
        (table_program setting.entry.network.now chain.table setting.entry.names.now) interfaces.now
        (way (table_program setting.entry.network.now chain.table setting.entry.names.now)
        levels chain.chain) diagrams.old diagrams.new states.now (sets_of sets.rules)
        sets.ends.items) }
    ensures too_large { IfErr result (λ e. e ≡ TooLarge
        → diagrams.new.limit ≤ length diagrams.new.nodes) }
    ensures too_deep { IfErr result (λ e. e ≡ TooDeep → NestsOver
        (table_program setting.entry.network.now chain.table setting.entry.names.now)
        LEVELS chain.chain) }
{
    let table = TableSetting {
        number: chain.table,
        setting,
        interfaces,
    };
    let mut rules = Visits::new(alloc);
    // the sets of rules to which no packet comes
    diagrams.ends();
    let ends = walk_chain(
        alloc,
        diagrams,
        lookups,
        table,
        LEVELS,
        chain.chain,
        states,
        &mut rules,
    )?;
    Ok(ChainSets { rules, ends })
}
