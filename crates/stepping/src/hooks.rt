//! The hooks after the look-up, with routing between them.
ghost use Rattle.std.specs.Prelude.{◌≡◌};
ghost use Rattle.filter_vm.specs.Machine.{EventsAndTicks};
ghost use Rattle.stepping.specs.Paths.{ForwardAndPostrouting, Hooks, Prerouting, Routing};
ghost use Rattle.stepping.specs.steps.Steps.{HasRoom, TakesStep, after_routing_cost, hooks_cost, path_state, prerouting_cost, setup_in, step_result};

use crate::nat::{translate_destination, translate_source};
use crate::setup::Setup;
use crate::state::PacketState;
use history::Cause;
use hook_runs::{Events, HookStage};
use nat_mapping::Mappings;

/// Takes a packet through the hooks after the look-up.
///
/// # Errors
/// The cause for which the packet is dropped.
#[inline(always)]
pub fn run_hooks(
    setup: &Setup,
    mappings: &Mappings,
    state: &mut PacketState,
    events: &mut Events,
) -> Result<(), Cause>
    requires room { HasRoom events.old (hooks_cost setup.now.hooks.costs) }
    ensures took { TakesStep (Hooks (setup_in setup.now.hooks)) mappings.now.held
        (hooks_cost setup.now.hooks.costs) state.old events.old state.new events.new result }
{
    prerouting(setup, mappings, state, events)?;
    route(setup, state)?;
    match state.facts.output {
        // It is addressed to this box.
        None => setup.run(HookStage::Input, state, events),
        Some(_) => forward_and_postrouting(setup, mappings, state, events),
    }
}

/// The prerouting chains after the look-up, with destination NAT at its priority.
#[inline(always)]
fn prerouting(
    setup: &Setup,
    mappings: &Mappings,
    state: &mut PacketState,
    events: &mut Events,
) -> Result<(), Cause>
    requires room { HasRoom events.old (prerouting_cost setup.now.hooks.costs) }
    ensures took { TakesStep (Prerouting (setup_in setup.now.hooks)) mappings.now.held
        (prerouting_cost setup.now.hooks.costs) state.old events.old state.new events.new result }
{
    setup.run(HookStage::PreroutingBeforeNat, state, events)?;
    translate_destination(setup, mappings, state, events)?;
    setup.run(HookStage::PreroutingAfterNat, state, events)
}

/// The routing decision, by the destination after NAT: the output interface of a packet that is
/// forwarded, with its TTL decremented (RFC 1812, section 5.3.1).
///
/// # Errors
/// `Route` without a route, `Ttl` where the TTL is below 2.
#[inline(always)]
fn route(setup: &Setup, state: &mut PacketState) -> Result<(), Cause>
    ensures step { (events : EventsAndTicks)
        → Routing (setup_in setup.now.hooks) (path_state state.old events)
        (step_result result (path_state state.new events)) }
    ensures info { state.new.info ≡ state.old.info }
    ensures entry { state.new.entry ≡ state.old.entry }
{
    let network = setup.plant();
    let destination = state.facts.packet.destination;
    if network.is_own(destination) {
        return Ok(());
    }
    let Some(interface) = network.route(destination) else {
        return Err(Cause::Route);
    };
    if state.facts.packet.ttl < 2 {
        return Err(Cause::Ttl);
    }
    state.facts.packet.ttl -= 1;
    setup.set_output(interface, &mut state.facts.output);
    Ok(())
}

/// Forward and then postrouting, with source NAT at its priority.
#[inline(always)]
fn forward_and_postrouting(
    setup: &Setup,
    mappings: &Mappings,
    state: &mut PacketState,
    events: &mut Events,
) -> Result<(), Cause>
    requires room { HasRoom events.old (after_routing_cost setup.now.hooks.costs) }
    ensures took { TakesStep (ForwardAndPostrouting (setup_in setup.now.hooks)) mappings.now.held
        (after_routing_cost setup.now.hooks.costs) state.old events.old state.new events.new
        result }
{
    setup.run(HookStage::Forward, state, events)?;
    setup.run(HookStage::PostroutingBeforeNat, state, events)?;
    translate_source(setup, mappings, state, events)?;
    setup.run(HookStage::PostroutingAfterNat, state, events)
}
