//! The configuration of a box, compiled.
ghost use Rattle.std.specs.Prelude.{◌≡◌, ◌≤◌, ℕ, [], IfOk, IfSome, List, Some};
ghost use Rattle.std.specs.Option.{option_map};
ghost use Rattle.nft_tree.specs.Tree.{TableTree};
ghost use Rattle.rule_paths.specs.Paths.{AreAllCosts, Caller, ruleset_cost};
ghost use Rattle.hook_runs.specs.Stages.{total_stage_cost, stage_cost};
ghost use Rattle.ip_headers.specs.declared.tuple.Mapping.{Mapping};
ghost use Rattle.stepping.specs.Carried.{input_interface, interface_facts};
ghost use Rattle.stepping.specs.Representing.{setup_of};
ghost use Rattle.stepping.specs.Paths.{RunsStage};
ghost use Rattle.stepping.specs.steps.Interfaces.{interfaces_of};
ghost use Rattle.stepping.specs.steps.Steps.{HasRoom, Spends, TakesStep, setup_in};
ghost use Rattle.filter_vm.specs.declared.events.TheConstants.{MOST_EVENTS};

use crate::interfaces::{find_interface, interface_facts, interfaces_of};
use crate::state::PacketState;
use box_file::Plant;
use history::Cause;
use hook_runs::{Events, HookRuns, HookStage};
use rule_check::Checked;
use rule_meaning::{HookVerdict, Interface};
use std::alloc::{AllocError, Global};

/// The compiled chains of a box, and the input interface of packets whose link header has none.
#[derive(Drop)]
pub struct Setup {
    pub hooks: HookRuns,
    pub entering: Interface,
    /// The interfaces of the box.
    interfaces: Vec<Interface>,
    pub ghost laid_out: { interfaces.items ≡ interfaces_of hooks.network },
    pub ghost enters: { entering ≡ interface_facts hooks.network hooks.network.entering },
    pub ghost few: { total_stage_cost hooks ≤ MOST_EVENTS },
    pub ghost costs: { (cost : TableTree → Caller → ℕ) → AreAllCosts hooks.rules cost
        → total_stage_cost hooks ≤ ruleset_cost cost hooks.rules },
}

impl Setup {
    /// Compiles a checked ruleset. The events with which its chains run come with it.
    ///
    /// # Errors
    /// An allocation failed. The ruleset is dropped.
    pub fn new(alloc: Global, checked: Checked) -> Result<(Self, Events), AllocError>
        ensures setup { IfOk result (λ made. setup_in made.0.hooks ≡ setup_of checked) }
        ensures events { IfOk result (λ made. made.1 ≡ record { events = []; ticks = 0 }) }
    {
        let network = checked.plant();
        let entering = interface_facts(network, network.entering());
        let interfaces = interfaces_of(alloc, network)?;
        let (hooks, events) = HookRuns::new(alloc, checked)?;
        // The stages together have no more events than are reserved.
        hooks.costs();
        let setup = Setup {
            hooks,
            entering,
            interfaces,
        };
        Ok((setup, events))
    }

    /// The box file.
    pub fn plant(&self) -> &Plant
        ensures { result.now ≡ self.now.hooks.network }
    {
        self.hooks.checked().plant()
    }

    /// The input interface: the link header's, if the box has it; without one the box file's
    /// default.
    #[inline(always)]
    #[tactic(auto, using(crate::proofs::FoundInterfaces::found))]
    pub fn input_interface(&self, link_interface: Option<u32>) -> Option<&Interface>
        ensures index { option_map (λ input. input.now.index) result
            ≡ input_interface (setup_in self.now.hooks) link_interface }
        ensures known { IfSome result (λ input.
            input.now ≡ interface_facts self.now.hooks.network input.now.index) }
    {
        match link_interface {
            Some(index) => find_interface(&self.interfaces, index),
            None => Some(&self.entering),
        }
    }

    /// Sets the output interface to that of this index, which the box has.
    #[inline(always)]
    #[tactic(auto, using(crate::proofs::FoundInterfaces::found))]
    pub fn set_output(&self, index: u32, output: &mut Option<Interface>)
        ensures { output.new ≡ Some (interface_facts self.now.hooks.network index) }
    {
        match find_interface(&self.interfaces, index) {
            Some(interface) => *output = Some(*interface),
            None => *output = Some(interface_facts(self.plant(), index)),
        }
    }

    /// Runs the chains of a stage.
    ///
    /// # Errors
    /// `Rule`: a rule or a policy drops the packet.
    #[inline(always)]
    pub fn run(
        &self,
        stage: HookStage,
        state: &mut PacketState,
        events: &mut Events,
    ) -> Result<(), Cause>
        requires room { HasRoom events.old (stage_cost self.now.hooks stage) }
        // It translates nothing, whichever mappings are held.
        ensures took { (mappings : List Mapping)
            → TakesStep (λ held. RunsStage (setup_in self.now.hooks) stage) mappings
            (stage_cost self.now.hooks stage) state.old events.old state.new events.new result }
        ensures spent { Spends events.old events.new (stage_cost self.now.hooks stage) }
    {
        match self.hooks.run(stage, &mut state.facts, events) {
            HookVerdict::Dropped => Err(Cause::Rule),
            HookVerdict::Accepted | HookVerdict::Translated(_) => Ok(()),
        }
    }
}
