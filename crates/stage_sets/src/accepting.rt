//! The packets of a set that the filter chains of a ruleset accept.
ghost use Rattle.std.specs.Prelude.{◌≡◌, ◌≤◌, ◌&&◌, ◌||◌, length, IfOk, IfErr};
ghost use Rattle.packet_sets.specs.Sets.{IsSet, Keeps, Means, holds};
ghost use Rattle.packet_sets.specs.declared.fault.SetError.TheVariants as sets;
ghost use Rattle.fact_sets.specs.Boxes.{NOTHING};
ghost use Rattle.fact_sets.specs.Cases.{AreCases};
ghost use Rattle.fact_sets.specs.Facts.{facts_of};
ghost use Rattle.rule_sets.specs.Interfaces.{interfaces_of};
ghost use Rattle.chain_ways.specs.BaseWays.{accepts, filters_of};
ghost use Rattle.chain_ways.specs.Nesting.{SomeNestsOver};
ghost use Rattle.chain_sets.specs.declared.fault.WalkError.TheVariants as walks;
ghost use Rattle.chain_sets.specs.declared.ways.TheConstants.{LEVELS};
ghost use Rattle.chain_sets.specs.steps.Merging.{some_outcome};
ghost use Rattle.stage_sets.specs.steps.Outcomes.{goes_accepted};

use crate::bases::{Asked, text_bases};
use crate::outcome::StageOutcome;
use crate::stages::through_all;
use chain_sets::WalkError;
use fact_sets::Case;
use packet_sets::{Diagrams, PacketSet, SetError};
use rule_check::Checked;
use rule_meaning::HookVerdict;
use rule_sets::box_interfaces;
use std::alloc::Global;

/// The packets of a set, and those of a case that is accepted.
fn with_accepted(
    diagrams: &mut Diagrams,
    set: PacketSet,
    case: Case<StageOutcome>,
) -> Result<PacketSet, SetError>
    requires set { IsSet diagrams.old set }
    requires case { IsSet diagrams.old case.set }
    ensures keeps { Keeps diagrams.old diagrams.new }
    ensures value { IfOk result (λ all. Means diagrams.new all (λ packet. holds diagrams.old set packet
        || (holds diagrams.old case.set packet && goes_accepted case.outcome))) }
    ensures too_large { IfErr result (λ e. e ≡ sets.TooLarge
        → diagrams.new.limit ≤ length diagrams.new.nodes) }
{
    match case.outcome.verdict {
        HookVerdict::Accepted => diagrams.or(set, case.set),
        _ => Ok(set),
    }
}

/// The packets of all cases that are accepted.
fn accepted_of(
    diagrams: &mut Diagrams,
    outcomes: &[Case<StageOutcome>],
) -> Result<PacketSet, SetError>
    requires { AreCases diagrams.old outcomes.now }
    ensures keeps { Keeps diagrams.old diagrams.new }
    ensures value { IfOk result (λ set. Means diagrams.new set
        (λ packet. some_outcome diagrams.old outcomes.now packet goes_accepted)) }
    ensures too_large { IfErr result (λ e. e ≡ sets.TooLarge
        → diagrams.new.limit ≤ length diagrams.new.nodes) }
{
    diagrams.ends();
    let mut set = PacketSet::NONE;
    for case in outcomes {
        set = with_accepted(diagrams, set, *case)?;
    }
    Ok(set)
}

/// Those packets of the set that each filter chain of the ruleset accepts, one after another in the
/// order of the text, as if rules had written nothing before.
///
/// # Errors
///
/// `TooLarge` where more nodes are needed than the limit allows, `Memory` where an allocation
/// failed, `TooDeep` where packets come to more than 256 chains in one another.
pub fn accepted(
    alloc: Global,
    diagrams: &mut Diagrams,
    checked: &Checked,
    set: PacketSet,
) -> Result<PacketSet, WalkError>
    requires { IsSet diagrams.old set }
    ensures keeps { Keeps diagrams.old diagrams.new }
    ensures value { IfOk result (λ accepted. Means diagrams.new accepted
        (λ packet. holds diagrams.old set packet
        && accepts checked.entry.now.network checked.entry.now.rules
        (facts_of (interfaces_of checked.entry.now.network) NOTHING packet))) }
    ensures too_large { IfErr result (λ e. e ≡ walks.TooLarge
        → diagrams.new.limit ≤ length diagrams.new.nodes) }
    ensures too_deep { IfErr result (λ e. e ≡ walks.TooDeep
        → SomeNestsOver LEVELS checked.entry.now.network checked.entry.now.rules
        (filters_of checked.entry.now.rules)) }
{
    checked.known_bounds();
    let network = checked.plant();
    let tables = checked.names(alloc)?;
    let interfaces = box_interfaces(alloc, network)?;
    let bases = text_bases(alloc, &tables, Asked::Filters)?;
    let outcomes = through_all(alloc, diagrams, network, &tables, &interfaces, &bases, set)?;
    Ok(accepted_of(diagrams, &outcomes)?)
}
