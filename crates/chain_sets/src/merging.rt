//! Cases with equal outcomes as one.
ghost use Rattle.std.specs.Prelude.{◌≡◌, ◌≤◌, ◌<◌, ◌∷◌, [], true, length, slice_get, Some, IfSome, IfErr, OnOk};
ghost use Rattle.std.specs.Option.{option_map};
ghost use Rattle.packet_sets.specs.Sets.{IsSet, Keeps};
ghost use Rattle.packet_sets.specs.declared.fault.SetError.TheVariants.{TooLarge};
ghost use Rattle.fact_sets.specs.Cases.{AreCases};
ghost use Rattle.chain_sets.specs.steps.Merging.{Adds, HavePackets};

use fact_sets::Case;
use packet_sets::{Diagrams, SetError};

/// An outcome by which cases are merged.
pub(crate) trait Merge: Copy {
    /// Whether the other is the same.
    fn is(&self, other: &Self) -> bool
        ensures { result ≡ true → self.now ≡ other.now };

    /// Whether nothing more becomes of packets with it.
    fn is_final(&self) -> bool;
}

/// With so many cases, final ones are merged too, with one of the newest so many.
const APART: usize = 0x4000;

/// The index of the first case with this outcome.
fn first_place<V: Merge>(cases: &[Case<V>], outcome: &V) -> Option<usize>
    ensures { IfSome result (λ place. option_map (λ c. c.outcome) (slice_get cases.now place)
        ≡ Some outcome.now) }
{
    for (place, case) in cases.iter().enumerate() {
        if case.outcome.is(outcome) {
            return Some(place);
        }
    }
    None
}

/// That of the newest one of the newest `APART`: a chain's ends are the newest when packets come to it
/// again.
fn newest_place<V: Merge>(cases: &[Case<V>], outcome: &V) -> Option<usize>
    ensures { IfSome result (λ place. option_map (λ c. c.outcome) (slice_get cases.now place)
        ≡ Some outcome.now) }
{
    for back in 1..=APART {
        let place = cases.len().checked_sub(back)?;
        if cases[place].outcome.is(outcome) {
            return Some(place);
        }
    }
    None
}

/// The index of a case to which one with this outcome is added, if it is. Final ones stay apart: the
/// packets of many ways to a verdict as one set can take far more nodes than those of each.
fn place_of<V: Merge>(cases: &[Case<V>], outcome: &V) -> Option<usize>
    ensures { IfSome result (λ place. option_map (λ c. c.outcome) (slice_get cases.now place)
        ≡ Some outcome.now) }
{
    if !outcome.is_final() {
        first_place(cases, outcome)
    } else if cases.len() < APART {
        None
    } else {
        newest_place(cases, outcome)
    }
}

/// Adds a case: where another has its outcome, to that one. It is left out where it has no packet.
pub(crate) fn add_case<V: Merge>(
    diagrams: &mut Diagrams,
    cases: &mut Vec<Case<V>>,
    case: Case<V>,
) -> Result<(), SetError>
    requires set { IsSet diagrams.old case.set }
    requires cases { AreCases diagrams.old cases.old.items }
    ensures keeps { Keeps diagrams.old diagrams.new }
    ensures adds { OnOk result
        (Adds diagrams.old diagrams.new (case ∷ []) cases.old.items cases.new.items) }
    ensures packets { OnOk result (HavePackets diagrams.old cases.old.items
        → HavePackets diagrams.new cases.new.items) }
    ensures too_large { IfErr result (λ e. e ≡ TooLarge
        → diagrams.new.limit ≤ length diagrams.new.nodes) }
{
    if diagrams.is_none(case.set) {
        return Ok(());
    }
    match place_of(cases, &case.outcome) {
        Some(place) => {
            let set = diagrams.or(cases[place].set, case.set)?;
            cases[place].set = set;
        }
        None => cases.push(case)?,
    }
    Ok(())
}

/// Adds these cases.
pub(crate) fn add_cases<V: Merge>(
    diagrams: &mut Diagrams,
    cases: &mut Vec<Case<V>>,
    more: &[Case<V>],
) -> Result<(), SetError>
    requires more { AreCases diagrams.old more.now }
    requires cases { AreCases diagrams.old cases.old.items }
    ensures keeps { Keeps diagrams.old diagrams.new }
    ensures adds { OnOk result
        (Adds diagrams.old diagrams.new more.now cases.old.items cases.new.items) }
    ensures packets { OnOk result (HavePackets diagrams.old cases.old.items
        → HavePackets diagrams.new cases.new.items) }
    ensures too_large { IfErr result (λ e. e ≡ TooLarge
        → diagrams.new.limit ≤ length diagrams.new.nodes) }
{
    for case in more {
        add_case(diagrams, cases, *case)?;
    }
    Ok(())
}
