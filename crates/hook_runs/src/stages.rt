//! Base chains by the stages of hooks.
ghost use Rattle.std.specs.Prelude.{◌≡◌, []};
ghost use Rattle.rule_meaning.specs.declared.stage.HookStage.{HookStage as TheStage};
ghost use Rattle.hook_runs.specs.steps.Starts.{staged_starts};

use filter_vm::Start;
use rule_meaning::HookStage;
use std::alloc::Global;

/// The base chains of each stage, in the order in which they run.
#[derive(Drop)]
pub(crate) struct StagedChains {
    pub prerouting_raw: Vec<Start>,
    pub prerouting_before_nat: Vec<Start>,
    pub prerouting_nat: Vec<Start>,
    pub prerouting_after_nat: Vec<Start>,
    pub input: Vec<Start>,
    pub forward: Vec<Start>,
    pub postrouting_before_nat: Vec<Start>,
    pub postrouting_nat: Vec<Start>,
    pub postrouting_after_nat: Vec<Start>,
}

impl StagedChains {
    /// No chains in any stage.
    pub(crate) fn empty(alloc: Global) -> Self
        ensures { (stage : TheStage) → staged_starts result stage ≡ [] }
    {
        StagedChains {
            prerouting_raw: Vec::new(alloc),
            prerouting_before_nat: Vec::new(alloc),
            prerouting_nat: Vec::new(alloc),
            prerouting_after_nat: Vec::new(alloc),
            input: Vec::new(alloc),
            forward: Vec::new(alloc),
            postrouting_before_nat: Vec::new(alloc),
            postrouting_nat: Vec::new(alloc),
            postrouting_after_nat: Vec::new(alloc),
        }
    }

    /// The base chains of a stage.
    #[inline(always)]
    pub(crate) fn starts(&self, stage: HookStage) -> &[Start]
        ensures { result.now ≡ staged_starts self.now stage }
    {
        match stage {
            HookStage::PreroutingRaw => &self.prerouting_raw,
            HookStage::PreroutingBeforeNat => &self.prerouting_before_nat,
            HookStage::PreroutingNat => &self.prerouting_nat,
            HookStage::PreroutingAfterNat => &self.prerouting_after_nat,
            HookStage::Input => &self.input,
            HookStage::Forward => &self.forward,
            HookStage::PostroutingBeforeNat => &self.postrouting_before_nat,
            HookStage::PostroutingNat => &self.postrouting_nat,
            HookStage::PostroutingAfterNat => &self.postrouting_after_nat,
        }
    }
}
