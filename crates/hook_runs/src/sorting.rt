//! Sorts base chains into stages.
ghost use Rattle.std.specs.Prelude.{◌≡◌, ◌++◌, ◌∷◌, [], OnOk, IfOk, filter};
ghost use Rattle.compiler.specs.Compiled.{start_head};
ghost use Rattle.rule_meaning.specs.declared.stage.HookStage.{HookStage as TheStage};
ghost use Rattle.hook_runs.specs.steps.Starts.{AreStagedChains, postrouting_stage, prerouting_stage, runs_in};
ghost use Rattle.hook_runs.specs.steps.Starts.{stage_of, staged_starts};

use crate::stages::StagedChains;
use filter_vm::{Code, Start};
use nft_tree::Hook;
use rule_meaning::HookStage;
use std::alloc::{AllocError, Global};

/// Filter chains on prerouting below this priority run before the conntrack lookup, which netfilter
/// makes at `NF_IP_PRI_CONNTRACK`, -200: a chain of priority -200 runs before it.
const AFTER_CONNTRACK: i32 = -199;

/// The priority of destination NAT (nft(8), `dstnat`). Filter chains of this priority run after it.
const DESTINATION: i32 = -100;

/// The priority of source NAT (nft(8), `srcnat`). Filter chains of this priority run after it.
const SOURCE: i32 = 100;

/// The base chains of each stage.
pub(crate) fn staged_chains(alloc: Global, code: &Code) -> Result<StagedChains, AllocError>
    ensures { IfOk result (λ stages. AreStagedChains code.now stages) }
{
    let mut stages = StagedChains::empty(alloc);
    stages.sort(code)?;
    Ok(stages)
}

impl StagedChains {
    /// Sorts the base chains of all hooks into stages that have none. Those of hook output run in
    /// none.
    fn sort(&mut self, code: &Code) -> Result<(), AllocError>
        requires empty { (stage : TheStage) → staged_starts self.old stage ≡ [] }
        ensures { OnOk result (AreStagedChains code.now self.new) }
    {
        self.add_all(Hook::Prerouting, &code.prerouting)?;
        self.add_all(Hook::Input, &code.input)?;
        self.add_all(Hook::Forward, &code.forward)?;
        self.add_all(Hook::Postrouting, &code.postrouting)
    }

    /// Adds each base chain of a hook to the stage in which it runs, in their order.
    fn add_all(&mut self, hook: Hook, starts: &[Start]) -> Result<(), AllocError>
        ensures { OnOk result ((stage : TheStage) → staged_starts self.new stage
            ≡ staged_starts self.old stage ++ filter (runs_in hook stage) starts.now) }
    {
        for start in starts {
            self.add(hook, *start)?;
        }
        Ok(())
    }

    /// Adds a base chain of a hook to the stage in which it runs, if it runs in one.
    fn add(&mut self, hook: Hook, start: Start) -> Result<(), AllocError>
        ensures { OnOk result ((stage : TheStage) → staged_starts self.new stage
            ≡ staged_starts self.old stage ++ filter (runs_in hook stage) (start ∷ [])) }
    {
        let Some(stage) = stage_of(hook, &start) else {
            return Ok(());
        };
        match stage {
            HookStage::PreroutingRaw => Ok(self.prerouting_raw.push(start)?),
            HookStage::PreroutingBeforeNat => Ok(self.prerouting_before_nat.push(start)?),
            HookStage::PreroutingNat => Ok(self.prerouting_nat.push(start)?),
            HookStage::PreroutingAfterNat => Ok(self.prerouting_after_nat.push(start)?),
            HookStage::Input => Ok(self.input.push(start)?),
            HookStage::Forward => Ok(self.forward.push(start)?),
            HookStage::PostroutingBeforeNat => Ok(self.postrouting_before_nat.push(start)?),
            HookStage::PostroutingNat => Ok(self.postrouting_nat.push(start)?),
            HookStage::PostroutingAfterNat => Ok(self.postrouting_after_nat.push(start)?),
        }
    }
}

/// The stage in which a base chain of a hook runs: none for those of hook output, and for those of
/// type nat on input and forward.
fn stage_of(hook: Hook, start: &Start) -> Option<HookStage>
    ensures { result ≡ stage_of hook (start_head start.now) }
{
    match hook {
        Hook::Prerouting => Some(prerouting_stage(start)),
        Hook::Input if !start.is_nat => Some(HookStage::Input),
        Hook::Forward if !start.is_nat => Some(HookStage::Forward),
        Hook::Postrouting => Some(postrouting_stage(start)),
        Hook::Input | Hook::Forward | Hook::Output => None,
    }
}

fn prerouting_stage(start: &Start) -> HookStage
    ensures { result ≡ prerouting_stage (start_head start.now) }
{
    if start.is_nat {
        HookStage::PreroutingNat
    } else if start.priority < AFTER_CONNTRACK {
        HookStage::PreroutingRaw
    } else if start.priority < DESTINATION {
        HookStage::PreroutingBeforeNat
    } else {
        HookStage::PreroutingAfterNat
    }
}

fn postrouting_stage(start: &Start) -> HookStage
    ensures { result ≡ postrouting_stage (start_head start.now) }
{
    if start.is_nat {
        HookStage::PostroutingNat
    } else if start.priority < SOURCE {
        HookStage::PostroutingBeforeNat
    } else {
        HookStage::PostroutingAfterNat
    }
}
