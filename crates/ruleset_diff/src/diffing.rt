//! The differences of two rulesets.
ghost use Rattle.std.specs.Prelude.{◌≡◌, ◌&&◌, IfErr, IfOk, IfSome, OnOk};
ghost use Rattle.packet_sets.specs.Sets.{Keeps, Means};
ghost use Rattle.rule_check.specs.WellFormed.{WellFormed};
ghost use Rattle.fact_sets.specs.Boxes.{NOTHING};
ghost use Rattle.fact_sets.specs.Facts.{facts_of};
ghost use Rattle.rule_sets.specs.Interfaces.{interfaces_of};
ghost use Rattle.chain_ways.specs.BaseWays.{StageRunsAreWays};
ghost use Rattle.chain_sets.specs.declared.fault.WalkError.TheVariants.{TooDeep};
ghost use Rattle.chain_sets.specs.declared.ways.TheConstants.{LEVELS};
ghost use Rattle.coming_sets.specs.Coming.{can_come_to};
ghost use Rattle.ruleset_diff.specs.Differences.{AreDifferences, assumption};
ghost use Rattle.ruleset_diff.specs.Nesting.{AssumedNestsOver, OneNestsOver};
ghost use Rattle.ruleset_diff.specs.steps.Stages.{AddsStage};

use crate::differences::{Difference, RulesetDiff};
use crate::pairs::compare_all;
use chain_sets::WalkError;
use chain_ways::stage_runs_are_ways;
use coming_sets::coming_to;
use fact_sets::{Interfaces, Reader, Written, facts_have_bits};
use packet_sets::{Diagrams, PacketSet};
use rule_check::Checked;
use rule_meaning::HookStage;
use rule_sets::box_interfaces;
use stage_sets::{accepted, stage_outcomes};
use std::alloc::Global;

/// The stages in the order in which packets come to them.
const STAGES: [HookStage; 9] = [
    HookStage::PreroutingRaw,
    HookStage::PreroutingBeforeNat,
    HookStage::PreroutingNat,
    HookStage::PreroutingAfterNat,
    HookStage::Input,
    HookStage::Forward,
    HookStage::PostroutingBeforeNat,
    HookStage::PostroutingNat,
    HookStage::PostroutingAfterNat,
];

/// The packets that can come to the stage; those of them that the assumed ruleset accepts, if one is.
fn coming_within(
    alloc: Global,
    diagrams: &mut Diagrams,
    interfaces: &Interfaces,
    assumed: Option<&Checked>,
    stage: HookStage,
) -> Result<PacketSet, WalkError>
    requires { IfSome assumed (λ filter. interfaces.now ≡ interfaces_of filter.now.network) }
    ensures keeps { Keeps diagrams.old diagrams.new }
    ensures value { IfOk result (λ coming. Means diagrams.new coming
        (λ packet. can_come_to stage (facts_of interfaces.now NOTHING packet)
        && assumption assumed.entry (facts_of interfaces.now NOTHING packet))) }
    ensures too_deep { IfErr result (λ e. e ≡ TooDeep → AssumedNestsOver LEVELS assumed.entry) }
{
    let reader = Reader {
        interfaces,
        written: Written::NOTHING,
    };
    let coming = coming_to(alloc, diagrams, reader, stage)?;
    match assumed {
        Some(filter) => accepted(alloc, diagrams, filter, coming),
        None => Ok(coming),
    }
}

/// Adds the differences in a stage.
fn add_stage(
    alloc: Global,
    diagrams: &mut Diagrams,
    interfaces: &Interfaces,
    old: &Checked,
    new: &Checked,
    assumed: Option<&Checked>,
    stage: HookStage,
    differences: &mut Vec<Difference>,
) -> Result<(), WalkError>
    requires same_box { new.now.network ≡ old.now.network }
    requires assumed_box { IfSome assumed (λ filter. filter.now.network ≡ old.now.network) }
    requires interfaces { interfaces.now ≡ interfaces_of old.now.network }
    requires old { WellFormed old.now.rules old.now.network }
    requires new { WellFormed new.now.rules new.now.network }
    ensures keeps { Keeps diagrams.old diagrams.new }
    ensures adds { OnOk result (AddsStage old.now.network old.now.rules new.now.rules
        (assumption assumed.entry) diagrams.new stage differences.old.items differences.new.items) }
    ensures too_deep { IfErr result (λ e. e ≡ TooDeep
        → OneNestsOver LEVELS old.now.network old.now.rules new.now.rules assumed.entry) }
{
    facts_have_bits();
    stage_runs_are_ways();
    let coming = coming_within(alloc, diagrams, interfaces, assumed, stage)?;
    let by_old = stage_outcomes(alloc, diagrams, old, stage, coming)?;
    let by_new = stage_outcomes(alloc, diagrams, new, stage, coming)?;
    compare_all(alloc, diagrams, stage, &by_old, &by_new, differences)?;
    Ok(())
}

/// What two rulesets do differently with the packets that can come to the stages of hooks on their box: the
/// packets for which a stage comes to another verdict, or, where they go on, to other marks or another
/// `notrack`. Where a ruleset is assumed, only packets are compared that each of its filter chains accepts,
/// one after another in the order of the text. At most `limit` nodes are made for the sets, about 40
/// bytes each.
///
/// # Errors
///
/// `TooLarge` where more nodes are needed than the limit allows, `TooDeep` where jumps and gotos lead
/// through more than 256 chains, `Memory` where an allocation failed.
pub fn ruleset_diff(
    alloc: Global,
    old: &Checked,
    new: &Checked,
    assumed: Option<&Checked>,
    limit: u32,
) -> Result<RulesetDiff, WalkError>
    requires same_box { new.now.network ≡ old.now.network }
    requires assumed_box { IfSome assumed (λ filter. filter.now.network ≡ old.now.network) }
    ensures differences { IfOk result (λ diff. AreDifferences old.now.network old.now.rules new.now.rules
        (assumption assumed.entry) diff.diagrams diff.differences.items) }
    ensures limit { IfOk result (λ diff. diff.diagrams.limit ≡ limit) }
    ensures too_deep { IfErr result (λ e. e ≡ TooDeep
        → OneNestsOver LEVELS old.now.network old.now.rules new.now.rules assumed.entry) }
{
    old.known_bounds();
    new.known_bounds();
    let mut diagrams = Diagrams::new(alloc, limit)?;
    let interfaces = box_interfaces(alloc, old.plant())?;
    let mut differences = Vec::new(alloc);
    for stage in &STAGES {
        add_stage(
            alloc,
            &mut diagrams,
            &interfaces,
            old,
            new,
            assumed,
            *stage,
            &mut differences,
        )?;
    }
    Ok(RulesetDiff {
        diagrams,
        differences,
    })
}
