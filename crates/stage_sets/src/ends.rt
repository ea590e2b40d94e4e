//! What base chains make of packets.
ghost use Rattle.std.specs.Prelude.{◌≡◌, ◌++◌, map, IfOk, OnOk};
ghost use Rattle.std.specs.List.{filter_map};
ghost use Rattle.rule_meaning.specs.Hooks.{policy_of, policy_verdict};
ghost use Rattle.chain_sets.specs.steps.Merging.{with_outcome};
ghost use Rattle.chain_sets.specs.steps.Outcomes.{case_if};
ghost use Rattle.stage_sets.specs.steps.Bases.{base_chain};
ghost use Rattle.stage_sets.specs.steps.Outcomes.{decider_of, goes_on, outcome_at, stays};

use crate::bases::Base;
use crate::outcome::{Decider, StageOutcome};
use chain_sets::ChainEnd;
use fact_sets::{Case, Written};
use nft_tree::{Policy, RuleNo};
use rule_meaning::{ChainNo, HookVerdict};
use std::alloc::{AllocError, Global};

/// The packets that go on to the next base chain.
pub(crate) fn going(
    alloc: Global,
    outcomes: &[Case<StageOutcome>],
) -> Result<Vec<Case<Written>>, AllocError>
    ensures { IfOk result (λ parts. parts.items ≡ filter_map (case_if goes_on) outcomes.now) }
{
    let mut parts = Vec::new(alloc);
    for case in outcomes {
        if let HookVerdict::Accepted = case.outcome.verdict {
            parts.push(Case {
                set: case.set,
                outcome: case.outcome.written,
            })?;
        }
    }
    Ok(parts)
}

/// What doesn't change: packets that are dropped or translated.
pub(crate) fn staying(
    alloc: Global,
    outcomes: &[Case<StageOutcome>],
) -> Result<Vec<Case<StageOutcome>>, AllocError>
    ensures { IfOk result (λ parts. parts.items ≡ filter_map (case_if stays) outcomes.now) }
{
    let mut parts = Vec::new(alloc);
    for case in outcomes {
        match case.outcome.verdict {
            HookVerdict::Accepted => {}
            _ => parts.push(*case)?,
        }
    }
    Ok(parts)
}

/// The verdict of a policy.
fn policy_verdict(policy: Policy) -> HookVerdict
    ensures { result ≡ policy_verdict policy }
{
    match policy {
        Policy::Accept => HookVerdict::Accepted,
        Policy::Drop => HookVerdict::Dropped,
    }
}

/// What gave a verdict in a base chain: the rule.
fn decider_of(rule: Option<RuleNo>) -> Decider
    ensures { result ≡ decider_of rule }
{
    match rule {
        Some(rule) => Decider::Rule(rule),
        None => Decider::NoChain,
    }
}

/// What a base chain with this policy makes of packets whose way through it ends so.
fn outcome_at(number: ChainNo, policy: Policy, end: ChainEnd) -> StageOutcome
    ensures { result ≡ outcome_at number policy end }
{
    let written = end.written;
    match end.verdict {
        Some(verdict) => StageOutcome {
            verdict,
            written,
            by: decider_of(end.by),
        },
        None => StageOutcome {
            verdict: policy_verdict(policy),
            written,
            by: Decider::Policy(number),
        },
    }
}

/// Adds what a base chain makes of packets with these ends.
pub(crate) fn add_ends(
    base: Base<'_>,
    ends: &[Case<ChainEnd>],
    outcomes: &mut Vec<Case<StageOutcome>>,
) -> Result<(), AllocError>
    ensures { OnOk result (outcomes.new.items ≡ outcomes.old.items
        ++ map (with_outcome (outcome_at base.entry.number (policy_of (base_chain base.entry).head)))
        ends.now) }
{
    let number = base.number;
    let policy = base.head.policy.unwrap_or(Policy::Accept);
    for end in ends {
        outcomes.push(Case {
            set: end.set,
            outcome: outcome_at(number, policy, end.outcome),
        })?;
    }
    Ok(())
}
