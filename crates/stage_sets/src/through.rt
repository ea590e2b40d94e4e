//! The packets of a stage through one base chain.
ghost use Rattle.std.specs.Prelude.{◌≡◌, ◌≤◌, false, length, IfOk, IfErr};
ghost use Rattle.std.specs.List.{list_any};
ghost use Rattle.packet_sets.specs.Sets.{Keeps};
ghost use Rattle.rule_types.specs.Types.{table_mismatches};
ghost use Rattle.rule_values.specs.Faults.{item_out_of_range};
ghost use Rattle.rule_meaning.specs.Runs.{table_program};
ghost use Rattle.fact_sets.specs.Cases.{AreCases};
ghost use Rattle.chain_ways.specs.Nesting.{NestsOver};
ghost use Rattle.chain_sets.specs.declared.fault.WalkError.TheVariants.{TooDeep, TooLarge};
ghost use Rattle.chain_sets.specs.declared.ways.TheConstants.{LEVELS};
ghost use Rattle.stage_sets.specs.steps.Bases.{base_chain};
ghost use Rattle.stage_sets.specs.steps.Through.{Advances, end_in};

use crate::bases::Base;
use crate::ends::{add_ends, going, staying};
use crate::outcome::StageOutcome;
use crate::states::merged;
use chain_sets::{WalkError, chain_sets_from};
use fact_sets::{Case, Interfaces};
use lowering::declared;
use packet_sets::Diagrams;
use rule_sets::Setting;
use std::alloc::Global;

/// What the base chains of a table stand in, and the box's interfaces.
#[derive(Clone, Copy)]
pub(crate) struct Place<'a, 't> {
    pub(crate) setting: Setting<'a, 't>,
    pub(crate) interfaces: &'a Interfaces,
}

/// What becomes of packets with these outcomes in one base chain more.
pub(crate) fn through(
    alloc: Global,
    diagrams: &mut Diagrams,
    place: Place<'_, '_>,
    base: Base<'_>,
    outcomes: &[Case<StageOutcome>],
) -> Result<Vec<Case<StageOutcome>>, WalkError>
    requires types { table_mismatches place.setting.names.now ≡ false }
    requires bounds { list_any item_out_of_range place.setting.names.now.items ≡ false }
    requires outcomes { AreCases diagrams.old outcomes.now }
    ensures keeps { Keeps diagrams.old diagrams.new }
    ensures value { IfOk result (λ after. Advances place.entry.interfaces.now
        (end_in place.entry.setting.network.now place.entry.setting.names.now (base_chain base.entry))
        diagrams.old diagrams.new outcomes.now after.items) }
    ensures too_large { IfErr result (λ e. e ≡ TooLarge
        → diagrams.new.limit ≤ length diagrams.new.nodes) }
    ensures too_deep { IfErr result (λ e. e ≡ TooDeep → NestsOver
        (table_program place.entry.setting.network.now base.entry.number.table
        place.entry.setting.names.now) LEVELS base.entry.number.chain) }
{
    let setting = place.setting;
    let interfaces = place.interfaces;
    let mut lookups = declared(alloc, setting.network, setting.names)?;
    let parts = going(alloc, outcomes)?;
    let states = merged(alloc, diagrams, &parts)?;
    let sets = chain_sets_from(
        alloc,
        diagrams,
        &mut lookups,
        setting,
        interfaces,
        base.number,
        &states,
    )?;
    let mut after = staying(alloc, outcomes)?;
    add_ends(base, &sets.ends, &mut after)?;
    Ok(after)
}
