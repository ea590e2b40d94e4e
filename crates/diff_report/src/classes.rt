//! Classes of packets with which two rulesets do different things.
ghost use Rattle.std.specs.Prelude.{All, IfOk};
ghost use Rattle.packet_sets.specs.Sets.{DiagramsView, IsSet};

use fact_sets::MarkSource;
use packet_sets::PacketSet;
use rule_meaning::{ChainNo, HookStage, HookVerdict};
use ruleset_diff::Difference;
use stage_sets::{Decider, StageOutcome};
use std::alloc::{AllocError, Global};

/// The most classes that are told.
const MOST_CLASSES: usize = 100;

/// A difference of each of the first classes, those first that matter most, and how many sets of
/// packets are in none of these: in a class the old ruleset does one thing in a stage, by one rule or
/// policy, and the new one another.
#[derive(Drop)]
pub(crate) struct Classes {
    pub(crate) first: Vec<Difference>,
    pub(crate) more: usize,
}

/// How much a difference matters.
#[derive(Clone, Copy, PartialEq, Eq)]
pub(crate) enum Weight {
    /// One ruleset drops the packets, and the other doesn't.
    Passing,
    /// Both let them pass, with other addresses or ports.
    Translation,
    /// Both do the same, and leave other marks.
    Marks,
}

static WEIGHTS: [Weight; 3] = [Weight::Passing, Weight::Translation, Weight::Marks];

/// The classes of these differences.
pub(crate) fn classes_of(alloc: Global, differences: &[Difference]) -> Result<Classes, AllocError> {
    let mut classes = Classes {
        first: Vec::new(alloc),
        more: 0,
    };
    for weight in &WEIGHTS {
        classes.add_all(*weight, differences)?;
    }
    Ok(classes)
}

impl Classes {
    fn add_all(&mut self, weight: Weight, differences: &[Difference]) -> Result<(), AllocError> {
        for difference in differences {
            if weight_of(difference) == weight {
                self.add(difference)?;
            }
        }
        Ok(())
    }

    fn add(&mut self, difference: &Difference) -> Result<(), AllocError> {
        if self.has(difference) {
            return Ok(());
        }
        if self.first.len() == MOST_CLASSES {
            self.more = self.more.saturating_add(1);
            return Ok(());
        }
        self.first.push(*difference)?;
        Ok(())
    }

    /// Whether the class of a difference is among the first.
    fn has(&self, difference: &Difference) -> bool {
        self.first.iter().any(|first| same_class(first, difference))
    }
}

/// The sets of the packets of a difference's class.
pub(crate) fn sets_of(
    alloc: Global,
    class: &Difference,
    differences: &[Difference],
) -> Result<Vec<PacketSet>, AllocError>
    ensures { IfOk result (λ sets. (d : DiagramsView) → All (λ x. IsSet d x.set) differences.now
        → All (IsSet d) sets.items) }
{
    let mut sets = Vec::new(alloc);
    for difference in differences {
        if same_class(class, difference) {
            sets.push(difference.set)?;
        }
    }
    Ok(sets)
}

pub(crate) fn weight_of(difference: &Difference) -> Weight {
    let old = difference.old.verdict;
    let new = difference.new.verdict;
    if is_dropped(old) != is_dropped(new) {
        return Weight::Passing;
    }
    if same_verdict(old, new) {
        return Weight::Marks;
    }
    Weight::Translation
}

fn is_dropped(verdict: HookVerdict) -> bool {
    matches!(verdict, HookVerdict::Dropped)
}

/// Whether two differences are of one class. What rules have written counts where nothing else
/// differs.
fn same_class(one: &Difference, other: &Difference) -> bool {
    one.stage as u32 == other.stage as u32
        && same_decision(one.old, other.old)
        && same_decision(one.new, other.new)
        && (weight_of(one) != Weight::Marks || same_marks(one, other))
}

fn same_decision(one: StageOutcome, other: StageOutcome) -> bool {
    same_verdict(one.verdict, other.verdict) && same_decider(one.by, other.by)
}

/// Whether the same is told of what rules have written: only what both rulesets have written
/// otherwise is.
fn same_marks(one: &Difference, other: &Difference) -> bool {
    let old = one.old.written;
    let new = one.new.written;
    let others_old = other.old.written;
    let others_new = other.new.written;
    same_change(old.packet, new.packet, others_old.packet, others_new.packet)
        && same_change(
            old.connection,
            new.connection,
            others_old.connection,
            others_new.connection,
        )
        && (!is_before_lookup(one.stage)
            || (old.untracked == others_old.untracked && new.untracked == others_new.untracked))
}

fn same_change(
    old: MarkSource,
    new: MarkSource,
    others_old: MarkSource,
    others_new: MarkSource,
) -> bool {
    if old == new {
        return others_old == others_new;
    }
    old == others_old && new == others_new
}

/// Whether a connection is yet to be looked up for the packets in the stage.
pub(crate) fn is_before_lookup(stage: HookStage) -> bool {
    matches!(stage, HookStage::PreroutingRaw)
}

fn same_verdict(one: HookVerdict, other: HookVerdict) -> bool {
    match (one, other) {
        (HookVerdict::Accepted, HookVerdict::Accepted) => true,
        (HookVerdict::Dropped, HookVerdict::Dropped) => true,
        (HookVerdict::Translated(one), HookVerdict::Translated(other)) => one == other,
        _ => false,
    }
}

fn same_decider(one: Decider, other: Decider) -> bool {
    match (one, other) {
        (Decider::NoChain, Decider::NoChain) => true,
        (Decider::Rule(one), Decider::Rule(other)) => {
            one.table == other.table && one.chain == other.chain && one.rule == other.rule
        }
        (Decider::Policy(one), Decider::Policy(other)) => same_chain(one, other),
        _ => false,
    }
}

fn same_chain(one: ChainNo, other: ChainNo) -> bool {
    one.table == other.table && one.chain == other.chain
}
