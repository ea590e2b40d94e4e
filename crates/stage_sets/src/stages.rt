//! The packets of a set through the base chains of a stage.
ghost use Rattle.std.specs.Prelude.{◌≡◌, ◌≤◌, ◌∷◌, [], All, List, filter, length, map, IfOk, IfErr};
ghost use Rattle.packet_sets.specs.Sets.{IsSet, Keeps};
ghost use Rattle.rule_check.specs.WellFormed.{WellFormed};
ghost use Rattle.rule_meaning.specs.Hooks.{BaseChain, base_chains_of, chains_in_stage};
ghost use Rattle.rule_sets.specs.Interfaces.{interfaces_of};
ghost use Rattle.chain_ways.specs.BaseWays.{AreChainsOf, end_of_chains};
ghost use Rattle.chain_ways.specs.Nesting.{SomeNestsOver};
ghost use Rattle.chain_sets.specs.declared.fault.WalkError.TheVariants.{TooDeep, TooLarge};
ghost use Rattle.chain_sets.specs.declared.ways.TheConstants.{LEVELS};
ghost use Rattle.stage_sets.specs.Ends.{AreStageEnds};
ghost use Rattle.stage_sets.specs.steps.Bases.{StandsIn, base_chain};
ghost use Rattle.stage_sets.specs.steps.Outcomes.{unchanged};

use crate::bases::{Base, stage_bases};
use crate::outcome::{Decider, StageOutcome};
use crate::through::{Place, through};
use box_file::Plant;
use chain_sets::WalkError;
use fact_sets::{Case, Interfaces, Written};
use packet_sets::{Diagrams, PacketSet};
use rule_check::Checked;
use rule_meaning::{HookStage, HookVerdict, hook_result_unique};
use rule_names::TableNames;
use rule_sets::{Setting, box_interfaces};
use std::alloc::{AllocError, Global};

/// Packets that have come to no base chain yet.
fn unchanged(alloc: Global, set: PacketSet) -> Result<Vec<Case<StageOutcome>>, AllocError>
    ensures { IfOk result (λ outcomes.
        outcomes.items ≡ record { set = set; outcome = unchanged } ∷ []) }
{
    let mut outcomes = Vec::new(alloc);
    outcomes.push(Case {
        set,
        outcome: StageOutcome {
            verdict: HookVerdict::Accepted,
            written: Written::NOTHING,
            by: Decider::NoChain,
        },
    })?;
    Ok(outcomes)
}

/// What becomes of the packets of the set in these base chains, one after another.
pub(crate) fn through_all(
    alloc: Global,
    diagrams: &mut Diagrams,
    network: &Plant,
    tables: &[TableNames<'_>],
    interfaces: &Interfaces,
    bases: &[Base<'_>],
    set: PacketSet,
) -> Result<Vec<Case<StageOutcome>>, WalkError>
    requires fine { WellFormed tables.now network.now }
    requires bases { All (StandsIn tables.now) bases.now }
    requires set { IsSet diagrams.old set }
    ensures keeps { Keeps diagrams.old diagrams.new }
    ensures value { IfOk result (λ outcomes. AreStageEnds interfaces.now
        (end_of_chains network.now tables.now (map base_chain bases.now))
        diagrams.old diagrams.new set outcomes.items) }
    ensures too_large { IfErr result (λ e. e ≡ TooLarge
        → diagrams.new.limit ≤ length diagrams.new.nodes) }
    ensures too_deep { IfErr result (λ e. e ≡ TooDeep
        → SomeNestsOver LEVELS network.now tables.now (map base_chain bases.now)) }
{
    let mut outcomes = unchanged(alloc, set)?;
    for base in bases {
        let names = &tables[base.number.table as usize];
        let place = Place {
            setting: Setting { network, names },
            interfaces,
        };
        outcomes = through(alloc, diagrams, place, *base, &outcomes)?;
    }
    Ok(outcomes)
}

/// How the ways of the packets of the set through the base chains of the stage end, one chain after
/// another in the order of their priorities, as if rules had written nothing before: a case for each
/// verdict with what is written then.
///
/// # Errors
///
/// `TooLarge` where more nodes are needed than the limit allows, `Memory` where an allocation
/// failed, `TooDeep` where packets come to more than 256 chains in one another.
pub fn stage_outcomes(
    alloc: Global,
    diagrams: &mut Diagrams,
    checked: &Checked,
    stage: HookStage,
    set: PacketSet,
) -> Result<Vec<Case<StageOutcome>>, WalkError>
    requires { IsSet diagrams.old set }
    ensures keeps { Keeps diagrams.old diagrams.new }
    ensures value { IfOk result (λ outcomes. (order : List BaseChain)
        → AreChainsOf checked.entry.now.rules stage order
        → AreStageEnds (interfaces_of checked.entry.now.network)
        (end_of_chains checked.entry.now.network checked.entry.now.rules order)
        diagrams.old diagrams.new set outcomes.items) }
    ensures too_large { IfErr result (λ e. e ≡ TooLarge
        → diagrams.new.limit ≤ length diagrams.new.nodes) }
    ensures too_deep { IfErr result (λ e. e ≡ TooDeep
        → SomeNestsOver LEVELS checked.entry.now.network checked.entry.now.rules
        (filter (chains_in_stage stage) (base_chains_of checked.entry.now.rules))) }
{
    checked.known_bounds();
    hook_result_unique();
    let network = checked.plant();
    let tables = checked.names(alloc)?;
    let interfaces = box_interfaces(alloc, network)?;
    let bases = stage_bases(alloc, &tables, stage)?;
    through_all(alloc, diagrams, network, &tables, &interfaces, &bases, set)
}
