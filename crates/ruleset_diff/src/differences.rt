//! Differences of two rulesets.
ghost use Rattle.std.specs.Prelude.{◌≡◌, length};

use packet_sets::{Diagrams, PacketSet};
use rule_meaning::HookStage;
use stage_sets::StageOutcome;

/// Packets with which two rulesets do something different in a stage.
#[derive(Clone, Copy)]
pub struct Difference {
    pub stage: HookStage,
    /// The packets, as they come to the stage.
    pub set: PacketSet,
    /// What the old ruleset does with them.
    pub old: StageOutcome,
    /// What the new one does.
    pub new: StageOutcome,
}

/// All differences of two rulesets, in the order of the stages, as sets that share diagrams.
#[derive(Drop)]
pub struct RulesetDiff {
    pub(crate) diagrams: Diagrams,
    pub(crate) differences: Vec<Difference>,
}

impl RulesetDiff {
    /// The diagrams of all sets.
    pub fn diagrams(&self) -> &Diagrams
        ensures { result.now ≡ self.now.diagrams }
    {
        &self.diagrams
    }

    /// The differences. There is none where the rulesets do the same.
    pub fn differences(&self) -> &[Difference]
        ensures { result.now ≡ self.now.differences.items }
    {
        &self.differences
    }

    /// How many nodes were made for the sets, about 40 bytes each.
    pub fn count(&self) -> usize
        ensures { result ≡ length self.now.diagrams.nodes }
    {
        self.diagrams.count()
    }
}
