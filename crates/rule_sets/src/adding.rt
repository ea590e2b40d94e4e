//! Cases to which packets are added.
ghost use Rattle.std.specs.Prelude.{◌≡◌, ◌≤◌, true, length, IfErr, OnOk};
ghost use Rattle.std.specs.List.{position};
ghost use Rattle.packet_sets.specs.Sets.{IsSet, Keeps};
ghost use Rattle.packet_sets.specs.declared.fault.SetError.TheVariants.{TooLarge};
ghost use Rattle.fact_sets.specs.Cases.{AreCases};
ghost use Rattle.rule_sets.specs.steps.Progress.{AddsCase};

use fact_sets::Case;
use packet_sets::{Diagrams, PacketSet, SetError};

/// The index of the first case with this outcome.
fn index_of<V: Copy + PartialEq>(cases: &[Case<V>], outcome: V) -> Option<usize>
    ensures { result ≡ position (λ case. V.eq case.outcome outcome) cases.now }
{
    cases.iter().position(|case| case.outcome == outcome)
}

/// Adds packets, if there are any, to the case with this outcome; where there is none, it is made.
pub(crate) fn add_case<V: Copy + PartialEq>(
    diagrams: &mut Diagrams,
    cases: &mut Vec<Case<V>>,
    set: PacketSet,
    outcome: V,
) -> Result<(), SetError>
    requires same { (x y : V) → V.eq x y ≡ true → x ≡ y }
    requires set { IsSet diagrams.old set }
    requires cases { AreCases diagrams.old cases.old.items }
    ensures keeps { Keeps diagrams.old diagrams.new }
    ensures adds { OnOk result (AddsCase diagrams.old diagrams.new set outcome cases.old.items
        cases.new.items) }
    ensures too_large { IfErr result (λ e. e ≡ TooLarge
        → diagrams.new.limit ≤ length diagrams.new.nodes) }
{
    if diagrams.is_none(set) {
        return Ok(());
    }
    match index_of(cases, outcome) {
        Some(index) => {
            let set = diagrams.or(cases[index].set, set)?;
            cases[index] = Case { set, outcome };
        }
        None => cases.push(Case { set, outcome })?,
    }
    Ok(())
}
