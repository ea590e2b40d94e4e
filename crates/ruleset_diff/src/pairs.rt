//! What two rulesets do differently in a stage, by the cases of both.
ghost use Rattle.std.specs.Prelude.{◌≡◌, ◌++◌, ◌∷◌, [], List, All, IfOk, OnOk};
ghost use Rattle.packet_sets.specs.declared.packet_set.PacketSet.{PacketSet};
ghost use Rattle.packet_sets.specs.Sets.{IsSet, Keeps, holds};
ghost use Rattle.fact_sets.specs.Cases.{AreCases};
ghost use Rattle.fact_sets.specs.declared.cases.Case.{Case};
ghost use Rattle.stage_sets.specs.declared.outcome.StageOutcome.{StageOutcome};
ghost use Rattle.ruleset_diff.specs.declared.differences.Difference.{Difference};
ghost use Rattle.ruleset_diff.specs.steps.Pairs.{AddsMet, AddsSome, AreCompared, IsCompared, IsRest, IsTried};

use crate::differences::Difference;
use crate::hints::Hints;
use crate::pieces::pieces;
use fact_sets::Case;
use packet_sets::{Diagrams, PacketSet, SetError};
use rule_meaning::HookStage;
use stage_sets::StageOutcome;
use std::alloc::Global;

/// Adds a difference with this set, if it has a packet.
fn add_one(
    diagrams: &Diagrams,
    stage: HookStage,
    old: StageOutcome,
    new: StageOutcome,
    set: PacketSet,
    differences: &mut Vec<Difference>,
) -> Result<(), SetError>
    requires { IsSet diagrams.now set }
    ensures { OnOk result ((sets : List PacketSet) (before : List Difference)
        → AddsSome diagrams.now stage old new sets before differences.old.items
        → AddsSome diagrams.now stage old new (sets ++ set ∷ []) before differences.new.items) }
{
    if diagrams.is_none(set) {
        return Ok(());
    }
    differences.push(Difference {
        stage,
        set,
        old,
        new,
    })?;
    Ok(())
}

/// Adds a difference for each of the sets that has a packet.
fn add_some(
    diagrams: &Diagrams,
    stage: HookStage,
    old: StageOutcome,
    new: StageOutcome,
    sets: &[PacketSet],
    differences: &mut Vec<Difference>,
) -> Result<(), SetError>
    requires { All (IsSet diagrams.now) sets.now }
    ensures { OnOk result (AddsSome diagrams.now stage old new sets.now differences.old.items
        differences.new.items) }
{
    for set in sets {
        add_one(diagrams, stage, old, new, *set, differences)?;
    }
    Ok(())
}

/// Adds what packets of a case of the old ruleset, and of one of the new, do differently. The first
/// case has those of the packets that are left. Gives the packets that are left then.
fn meet(
    alloc: Global,
    diagrams: &mut Diagrams,
    stage: HookStage,
    left: Case<StageOutcome>,
    new: Case<StageOutcome>,
    differences: &mut Vec<Difference>,
) -> Result<PacketSet, SetError>
    requires left { IsSet diagrams.old left.set }
    requires new { IsSet diagrams.old new.set }
    ensures keeps { Keeps diagrams.old diagrams.new }
    ensures met { IfOk result (AddsMet diagrams.old diagrams.new stage left new
        differences.old.items differences.new.items) }
{
    let both = diagrams.and(left.set, new.set)?;
    if diagrams.is_none(both) {
        return Ok(left.set);
    }
    let sets = pieces(alloc, diagrams, both, left.outcome, new.outcome)?;
    add_some(
        diagrams,
        stage,
        left.outcome,
        new.outcome,
        &sets,
        differences,
    )?;
    diagrams.without(left.set, new.set)
}

/// What is left of a case of the old ruleset after the case of the new one with this index, if there is
/// one.
fn try_at(
    alloc: Global,
    diagrams: &mut Diagrams,
    stage: HookStage,
    left: Case<StageOutcome>,
    new: &[Case<StageOutcome>],
    index: usize,
    differences: &mut Vec<Difference>,
) -> Result<PacketSet, SetError>
    requires left { IsSet diagrams.old left.set }
    requires new { AreCases diagrams.old new.now }
    ensures keeps { Keeps diagrams.old diagrams.new }
    ensures rest { IfOk result (λ rest.
        IsRest diagrams.old diagrams.new left.set new.now index rest) }
    ensures tried { IfOk result (λ rest. (old : Case StageOutcome) (before : List Difference)
        → old.outcome ≡ left.outcome
        → IsTried diagrams.old stage old new.now left.set before differences.old.items
        → IsTried diagrams.new stage old new.now rest before differences.new.items) }
{
    match new.get(index) {
        Some(case) => meet(alloc, diagrams, stage, left, *case, differences),
        None => Ok(left.set),
    }
}

/// What is left of a case of the old ruleset after the cases of the new one that are tried first.
fn try_hints(
    alloc: Global,
    diagrams: &mut Diagrams,
    stage: HookStage,
    old: Case<StageOutcome>,
    new: &[Case<StageOutcome>],
    hints: &mut Hints,
    differences: &mut Vec<Difference>,
) -> Result<PacketSet, SetError>
    requires old { IsSet diagrams.old old.set }
    requires new { AreCases diagrams.old new.now }
    ensures keeps { Keeps diagrams.old diagrams.new }
    ensures tried { IfOk result (λ left. IsTried diagrams.new stage old new.now left
        differences.old.items differences.new.items) }
{
    let mut left = old.set;
    for index in &hints.indexes(alloc)? {
        if diagrams.is_none(left) {
            return Ok(left);
        }
        let outcome = old.outcome;
        let case = Case { set: left, outcome };
        let rest = try_at(alloc, diagrams, stage, case, new, *index, differences)?;
        hints.tried(*index, rest != left)?;
        left = rest;
    }
    Ok(left)
}

/// The same after all cases, as far as packets are left.
fn try_all(
    alloc: Global,
    diagrams: &mut Diagrams,
    stage: HookStage,
    left: Case<StageOutcome>,
    new: &[Case<StageOutcome>],
    hints: &mut Hints,
    differences: &mut Vec<Difference>,
) -> Result<(), SetError>
    requires left { IsSet diagrams.old left.set }
    requires new { AreCases diagrams.old new.now }
    ensures keeps { Keeps diagrams.old diagrams.new }
    ensures compared { OnOk result ((old : Case StageOutcome) (before : List Difference)
        → old.outcome ≡ left.outcome
        → IsTried diagrams.old stage old new.now left.set before differences.old.items
        → IsCompared diagrams.new stage old new.now before differences.new.items) }
{
    let mut set = left.set;
    for index in 0..new.len() {
        if diagrams.is_none(set) {
            return Ok(());
        }
        let outcome = left.outcome;
        let case = Case { set, outcome };
        let rest = try_at(alloc, diagrams, stage, case, new, index, differences)?;
        hints.tried(index, rest != set)?;
        set = rest;
    }
    Ok(())
}

/// Adds what packets of a case of the old ruleset do differently by the new one.
fn compare(
    alloc: Global,
    diagrams: &mut Diagrams,
    stage: HookStage,
    old: Case<StageOutcome>,
    new: &[Case<StageOutcome>],
    hints: &mut Hints,
    differences: &mut Vec<Difference>,
) -> Result<(), SetError>
    requires old { IsSet diagrams.old old.set }
    requires new { AreCases diagrams.old new.now }
    ensures keeps { Keeps diagrams.old diagrams.new }
    ensures compared { OnOk result (IsCompared diagrams.new stage old new.now
        differences.old.items differences.new.items) }
{
    let set = try_hints(alloc, diagrams, stage, old, new, hints, differences)?;
    let outcome = old.outcome;
    let left = Case { set, outcome };
    try_all(alloc, diagrams, stage, left, new, hints, differences)?;
    Ok(())
}

/// Adds what packets of all cases of the old ruleset do differently by the new one.
pub(crate) fn compare_all(
    alloc: Global,
    diagrams: &mut Diagrams,
    stage: HookStage,
    old: &[Case<StageOutcome>],
    new: &[Case<StageOutcome>],
    differences: &mut Vec<Difference>,
) -> Result<(), SetError>
    requires old { AreCases diagrams.old old.now }
    requires new { AreCases diagrams.old new.now }
    ensures keeps { Keeps diagrams.old diagrams.new }
    ensures compared { OnOk result (AreCompared diagrams.new stage old.now new.now
        differences.old.items differences.new.items) }
{
    let mut hints = Hints::new(alloc);
    for case in old {
        compare(alloc, diagrams, stage, *case, new, &mut hints, differences)?;
    }
    Ok(())
}
