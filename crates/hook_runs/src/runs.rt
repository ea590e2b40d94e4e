//! Compiled rulesets, staged by hooks.
ghost use Rattle.std.specs.Prelude.{◌≡◌, ◌≤◌, ◌+◌, ◌-◌, ◌^◌, ℕ, [], IfOk, filter, length, min, sum_by};
ghost use Rattle.nft_tree.specs.Tree.{TableTree};
ghost use Rattle.rule_paths.specs.Paths.{AreAllCosts, Caller, ruleset_cost};
ghost use Rattle.rule_meaning.specs.Hooks.{Stage, base_chains_of, chains_in_stage};
ghost use Rattle.compiler.specs.Compiled.{start_cost};
ghost use Rattle.code_layout.specs.CodeLayout.{AreTableCodes};
ghost use Rattle.rule_meaning.specs.declared.stage.HookStage.{HookStage};
ghost use Rattle.hook_runs.specs.Stages.{total_stage_cost, stage_cost, stage_starts};
ghost use Rattle.hook_runs.specs.StageCode.{AreStarts, stage_started};
ghost use Rattle.filter_vm.specs.declared.events.TheConstants.{MOST_EVENTS};

use crate::events::Events;
use crate::running::run_in_order;
use crate::sorting::staged_chains;
use crate::stages::StagedChains;
use compiler::compile;
use filter_vm::Code;
use rule_check::Checked;
use rule_meaning::{Facts, HookStage, HookVerdict};
use std::alloc::{AllocError, Global};
use std::marker::Model;

/// A compiled ruleset: its code, and the base chains of each stage in the order in which they run.
pub struct HookRuns {
    checked: Checked,
    code: Code,
    stages: StagedChains,
}

// Written out, so that dropping one is a call.
impl Drop for HookRuns {
    fn drop(self) {
        let HookRuns {
            checked: _,
            code: _,
            stages: _,
        } = self;
    }
}

impl Model for HookRuns {
    ghost use Rattle.hook_runs.specs.Stages.{CostedTree};
    ghost use Rattle.hook_runs.specs.steps.Starts.{IsCompiled, costed_tree};

    ghost Value = { CostedTree };

    ghost view = { λ r. costed_tree r.checked r.code r.stages };

    ghost invariant = { λ r. IsCompiled r.checked r.code r.stages };
}

impl HookRuns {
    /// Compiles a ruleset, and sorts its base chains into stages. The events of its records and
    /// the count of their statements come with it: no statement was started, and no event recorded.
    ///
    /// # Errors
    /// `AllocError` for want of memory; the ruleset is dropped then.
    pub fn new(alloc: Global, checked: Checked) -> Result<(Self, Events), AllocError>
        ensures rules { IfOk result (λ made. made.0.rules ≡ checked.rules) }
        ensures network { IfOk result (λ made. made.0.network ≡ checked.network) }
        // One step for each statement of the rules that packets get to.
        ensures steps { IfOk result (λ made.
            AreTableCodes checked.network checked.rules made.0.code.tables.items) }
        ensures starts { IfOk result (λ made. (stage : HookStage)
            → AreStarts checked made.0.code (chains_in_stage stage)
            (stage_starts made.0.starts stage)) }
        // A base chain runs in one stage at its cost, or in none: those of hook output, and those
        // of type nat on input or forward.
        ensures stage_costs { IfOk result (λ made. (cost : TableTree → Caller → ℕ)
            → AreAllCosts checked.rules cost → (stage : HookStage) → stage_cost made.0 stage
            ≡ sum_by (start_cost checked.rules cost)
            (filter (chains_in_stage stage) (base_chains_of checked.rules))) }
        ensures cost { IfOk result (λ made. (cost : TableTree → Caller → ℕ)
            → AreAllCosts checked.rules cost
            → total_stage_cost made.0 ≤ ruleset_cost cost checked.rules) }
        ensures events { IfOk result (λ made. made.1 ≡ record { events = []; ticks = 0 }) }
    {
        let code = compile(alloc, &checked)?;
        let events = Events::new(alloc, &code)?;
        let stages = staged_chains(alloc, &code)?;
        let runs = HookRuns {
            checked,
            code,
            stages,
        };
        Ok((runs, events))
    }

    /// The ruleset, and the box that it was checked for.
    pub fn checked(&self) -> &Checked
        ensures rules { result.now.rules ≡ self.now.rules }
        ensures network { result.now.network ≡ self.now.network }
    {
        &self.checked
    }

    /// States, for proofs, that all stages together cost at most the limit on a record's events. The
    /// call does nothing.
    pub fn costs(&self)
        ensures { total_stage_cost self.now ≤ MOST_EVENTS }
    {
        let _ = &self.code;
    }

    /// Runs a packet through the base chains of a stage, one after another, until one doesn't
    /// accept it. Marks and `notrack` are written to `facts` in place. Each statement that is
    /// started is counted once. There are no more events, and no more statements are started, than
    /// the stage costs.
    #[inline(always)]
    pub fn run(&self, stage: HookStage, facts: &mut Facts, events: &mut Events) -> HookVerdict
        requires room { length events.old.events + stage_cost self.now stage ≤ MOST_EVENTS }
        ensures end { Stage stage self.now.network self.now.rules facts.old events.old.events
            (record { verdict = result; facts = facts.new; events = events.new.events }) }
        ensures events { length events.new.events
            ≤ length events.old.events + stage_cost self.now stage }
        ensures ticks { (events.old.ticks ≤ events.new.ticks)
            × (events.new.ticks ≤ events.old.ticks + stage_cost self.now stage) }
        ensures counted { events.new.ticks ≡ min (events.old.ticks
            + stage_started self.now stage facts.old events.old.events) (2 ^ 64 - 1) }
        ensures few { stage_started self.now stage facts.old events.old.events
            ≤ stage_cost self.now stage }
    {
        run_in_order(&self.code, self.stages.starts(stage), facts, events)
    }
}
