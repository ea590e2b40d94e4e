//! Destination NAT and source NAT with their nat chains.
ghost use Rattle.std.specs.Prelude.{◌≡◌};
ghost use Rattle.hook_runs.specs.Stages.{stage_cost};
ghost use Rattle.stepping.specs.Paths.{DestinationNat, NatChains, SourceNat};
ghost use Rattle.stepping.specs.steps.Steps.{HasRoom, Spends, TakesStep, setup_in};

use crate::setup::Setup;
use crate::state::PacketState;
use history::Cause;
use hook_runs::{Events, HookStage};
use nat_mapping::{MapError, Mappings};
use rule_meaning::{Facts, HookVerdict};
use translation::{
    CtInfo, apply_destination_nat, apply_source_nat, update_destination, update_source,
};

/// Destination NAT, by the nat chains of prerouting for a new connection.
///
/// # Errors
/// `Rule`: a rule or a policy drops the packet.
#[inline(always)]
pub fn translate_destination(
    setup: &Setup,
    mappings: &Mappings,
    state: &mut PacketState,
    events: &mut Events,
) -> Result<(), Cause>
    requires room { HasRoom events.old setup.now.hooks.costs.prerouting_nat }
    ensures took { TakesStep (DestinationNat (setup_in setup.now.hooks)) mappings.now.held
        setup.now.hooks.costs.prerouting_nat state.old events.old state.new events.new result }
{
    let CtInfo::New(_) = state.info else {
        update_destination(&state.info, &mut state.facts);
        return Ok(());
    };
    let stage = HookStage::PreroutingNat;
    let verdict = run_nat_chains(setup, stage, &state.info, &mut state.facts, events);
    if let HookVerdict::Dropped = verdict {
        return Err(Cause::Rule);
    }
    apply_destination_nat(
        setup.plant(),
        mappings,
        verdict,
        &mut state.info,
        &mut state.facts,
    );
    Ok(())
}

/// Source NAT, by the nat chains of postrouting for a new connection.
///
/// # Errors
/// `Rule`: a rule or a policy drops the packet; `NoPort` where no port is free.
#[inline(always)]
pub fn translate_source(
    setup: &Setup,
    mappings: &Mappings,
    state: &mut PacketState,
    events: &mut Events,
) -> Result<(), Cause>
    requires room { HasRoom events.old setup.now.hooks.costs.postrouting_nat }
    ensures took { TakesStep (SourceNat (setup_in setup.now.hooks)) mappings.now.held
        setup.now.hooks.costs.postrouting_nat state.old events.old state.new events.new result }
{
    let CtInfo::New(_) = state.info else {
        update_source(&state.info, &mut state.facts);
        return Ok(());
    };
    let stage = HookStage::PostroutingNat;
    let verdict = run_nat_chains(setup, stage, &state.info, &mut state.facts, events);
    if let HookVerdict::Dropped = verdict {
        return Err(Cause::Rule);
    }
    match apply_source_nat(
        setup.plant(),
        mappings,
        verdict,
        &mut state.info,
        &mut state.facts,
    ) {
        Ok(()) => Ok(()),
        Err(MapError::NoPort) => Err(Cause::NoPort),
    }
}

/// Runs the nat chains of a hook for a new connection; no other packet sees them.
#[inline(always)]
fn run_nat_chains(
    setup: &Setup,
    stage: HookStage,
    info: &CtInfo,
    facts: &mut Facts,
    events: &mut Events,
) -> HookVerdict
    requires room { HasRoom events.old (stage_cost setup.now.hooks stage) }
    ensures ran { NatChains (setup_in setup.now.hooks) stage info.now facts.old events.old.events
        (record { verdict = result; facts = facts.new; events = events.new.events }) }
    ensures spent { Spends events.old events.new (stage_cost setup.now.hooks stage) }
{
    match info {
        CtInfo::New(_) => setup.hooks.run(stage, facts, events),
        CtInfo::Tracked(_) | CtInfo::Related(_) | CtInfo::Invalid | CtInfo::Untracked =>
            HookVerdict::Accepted,
    }
}
