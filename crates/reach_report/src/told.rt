//! What is told of rules and policies.
ghost use Rattle.std.specs.Prelude.{◌≡◌, All, IfOk, false, map};
ghost use Rattle.std.specs.Option.{option_map};
ghost use Rattle.reach_report.specs.steps.SetTexts.{HasSets};
ghost use Rattle.reach_report.specs.Told.{AreBelow, comes_by, is_reached, reason_at, reasons_behind, reasoned, with_reasons};

use crate::sets_below::SetTexts;
use rule_reach::{Answer, PolicyReach, RuleReach, Unmet};
use std::alloc::{AllocError, Global};

/// What is told of a rule.
#[derive(Drop)]
pub(crate) struct ToldRule<'a> {
    pub reach: RuleReach,
    /// Why no packet meets it, where none does.
    pub unmet: Option<&'a Unmet>,
    /// Whether packets come to its chain.
    pub comes: bool,
    /// The lines below its own.
    pub below: Vec<u8>,
}

/// What is told of a policy.
#[derive(Drop)]
pub(crate) struct ToldPolicy {
    pub reach: PolicyReach,
    /// The lines below its own.
    pub below: Vec<u8>,
}

/// What is told of rules, of which those that aren't met have these reasons, in their order.
pub(crate) fn told_rules<'a>(
    alloc: Global,
    rules: &[RuleReach],
    unmet: &'a [Unmet],
    texts: &SetTexts<'_>,
) -> Result<Vec<ToldRule<'a>>, AllocError>
    requires sets { HasSets texts.now.sets.now }
    ensures reasons { IfOk result (λ told.
        map reasoned told.items ≡ with_reasons false rules.now unmet.entry.now) }
    ensures below { IfOk result (λ told.
        All (λ t. AreBelow texts.now.is_wanted t.below.items) told.items) }
{
    let mut told = Vec::new(alloc);
    let mut left = unmet;
    let mut comes = false;
    for rule in rules {
        comes = comes_by(comes, *rule);
        told.push(ToldRule {
            reach: *rule,
            unmet: reason_at(rule.answer, left),
            comes,
            below: texts.below_rule(alloc, rule.rule)?,
        })?;
        left = reasons_behind(rule.answer, left);
    }
    Ok(told)
}

/// The reason of a rule with this answer, by those that are left.
fn reason_at(answer: Answer, left: &[Unmet]) -> Option<&Unmet>
    ensures { option_map (λ u. u.now) result ≡ reason_at answer left.now }
{
    match answer {
        Answer::Met => None,
        Answer::NotReached | Answer::NotMatched => left.first(),
    }
}

/// The reasons that are left for the rules behind one with this answer.
fn reasons_behind(answer: Answer, left: &[Unmet]) -> &[Unmet]
    ensures { result.now ≡ reasons_behind answer left.now }
{
    match answer {
        Answer::Met => left,
        Answer::NotReached | Answer::NotMatched => left.get(1..).unwrap_or(&[]),
    }
}

/// Whether packets come to a rule's chain: those that come to its first rule; `before` says it of the
/// rule before.
fn comes_by(before: bool, reach: RuleReach) -> bool
    ensures { result ≡ comes_by before reach }
{
    if reach.rule.rule == 1 {
        is_reached(reach.answer)
    } else {
        before
    }
}

fn is_reached(answer: Answer) -> bool
    ensures { result ≡ is_reached answer }
{
    !matches!(answer, Answer::NotReached)
}

/// What is told of policies.
pub(crate) fn told_policies(
    alloc: Global,
    policies: &[PolicyReach],
    texts: &SetTexts<'_>,
) -> Result<Vec<ToldPolicy>, AllocError>
    requires sets { HasSets texts.now.sets.now }
    ensures reach { IfOk result (λ told. map (λ t. t.reach) told.items ≡ policies.now) }
    ensures below { IfOk result (λ told.
        All (λ t. AreBelow texts.now.is_wanted t.below.items) told.items) }
{
    let mut told = Vec::new(alloc);
    for policy in policies {
        told.push(ToldPolicy {
            reach: *policy,
            below: texts.below_policy(alloc, policy.chain)?,
        })?;
    }
    Ok(told)
}
