//! Packets by what rules have written of them.
ghost use Rattle.std.specs.Prelude.{◌≡◌, ◌≤◌, ◌∷◌, [], true, length, slice_get, Some, IfOk, IfSome, IfErr, OnOk};
ghost use Rattle.std.specs.Option.{option_map};
ghost use Rattle.packet_sets.specs.Sets.{IsSet, Keeps};
ghost use Rattle.packet_sets.specs.declared.fault.SetError.TheVariants.{TooLarge};
ghost use Rattle.fact_sets.specs.Cases.{AreCases};
ghost use Rattle.chain_sets.specs.steps.Merging.{Adds};

use fact_sets::{Case, Written};
use packet_sets::{Diagrams, SetError};
use std::alloc::Global;

/// Whether rules have written this of the state's packets.
fn has_written(state: &Case<Written>, written: Written) -> bool
    ensures { result ≡ true → state.now.outcome ≡ written }
{
    state.outcome == written
}

/// The index of the state of which rules have written this.
fn place_of(states: &[Case<Written>], written: Written) -> Option<usize>
    ensures { IfSome result (λ place. option_map (λ c. c.outcome) (slice_get states.now place)
        ≡ Some written) }
{
    for (place, state) in states.iter().enumerate() {
        if has_written(state, written) {
            return Some(place);
        }
    }
    None
}

/// Adds a state: where another has the same written, to that one.
fn add_state(
    diagrams: &mut Diagrams,
    states: &mut Vec<Case<Written>>,
    state: Case<Written>,
) -> Result<(), SetError>
    requires set { IsSet diagrams.old state.set }
    requires states { AreCases diagrams.old states.old.items }
    ensures keeps { Keeps diagrams.old diagrams.new }
    ensures adds { OnOk result
        (Adds diagrams.old diagrams.new (state ∷ []) states.old.items states.new.items) }
    ensures too_large { IfErr result (λ e. e ≡ TooLarge
        → diagrams.new.limit ≤ length diagrams.new.nodes) }
{
    match place_of(states, state.outcome) {
        Some(place) => {
            let set = diagrams.or(states[place].set, state.set)?;
            states[place].set = set;
        }
        None => states.push(state)?,
    }
    Ok(())
}

/// The same packets as few states: one for each that rules have written.
pub(crate) fn merged(
    alloc: Global,
    diagrams: &mut Diagrams,
    parts: &[Case<Written>],
) -> Result<Vec<Case<Written>>, SetError>
    requires { AreCases diagrams.old parts.now }
    ensures keeps { Keeps diagrams.old diagrams.new }
    ensures value { IfOk result (λ states.
        Adds diagrams.old diagrams.new parts.now [] states.items) }
    ensures too_large { IfErr result (λ e. e ≡ TooLarge
        → diagrams.new.limit ≤ length diagrams.new.nodes) }
{
    let mut states = Vec::new(alloc);
    for part in parts {
        add_state(diagrams, &mut states, *part)?;
    }
    Ok(states)
}
