//! The report of what packets do in a ruleset.
ghost use Rattle.std.specs.Prelude.{◌≡◌, IfOk};
ghost use Rattle.reach_report.specs.Reports as reports;
ghost use Rattle.reach_report.specs.Reports.{AreAnswers, AreReasons, Reports};
ghost use Rattle.reach_report.specs.steps.SetTexts.{HasSets};

use crate::reach_lines::lines_of;
use crate::sets_below::SetTexts;
use crate::told::{told_policies, told_rules};
use crate::unmet_reasons::UnmetReasons;
use rule_check::Checked;
use rule_reach::{Answer, Reach, ReachError, RuleReach, Unmet, reach_sets};
use std::alloc::{AllocError, Global};

/// What packets do in a ruleset.
#[derive(Drop)]
pub struct ReachReport {
    /// The lines that tell it.
    pub lines: Vec<u8>,
    /// Whether each rule can be met.
    pub is_met: bool,
    /// Why rules can't be met.
    pub unmet: UnmetReasons,
}

/// Tells of a checked ruleset, which `text` spells, what packets do at each rule and policy, and why
/// rules aren't met; with `sets` also which packets. At most `limit` nodes are made for sets.
///
/// # Errors
///
/// `TooLarge` where more nodes are needed than the limit allows, `TooDeep` where jumps and gotos lead
/// through more than 256 chains, `Memory` where an allocation failed.
pub fn report_of(
    alloc: Global,
    text: &[u8],
    checked: &Checked,
    limit: u32,
    sets: bool,
) -> Result<ReachReport, ReachError>
    ensures { IfOk result (Reports checked.now.network checked.now.rules sets) }
{
    let mut found = reach_sets(alloc, checked, limit)?;
    let reach = found.reach(alloc, checked)?;
    let unmet = found.unmet(alloc, checked, &reach)?;
    let texts = SetTexts::new(alloc, checked, &found, sets)?;
    Ok(told(alloc, text, checked, &reach, &unmet, &texts)?)
}

/// Tells these answers and reasons, and below them sets.
fn told(
    alloc: Global,
    text: &[u8],
    checked: &Checked,
    reach: &Reach,
    unmet: &[Unmet],
    texts: &SetTexts<'_>,
) -> Result<ReachReport, AllocError>
    requires answers { AreAnswers checked.now.network checked.now.rules reach.now }
    requires reasons { AreReasons checked.now.network checked.now.rules reach.now.rules.items unmet.now }
    requires sets { HasSets texts.now.sets.now }
    ensures { IfOk result (Reports checked.now.network checked.now.rules texts.now.is_wanted) }
{
    let tree = checked.tree();
    let rule_texts = told_rules(alloc, &reach.rules, unmet, texts)?;
    let policy_texts = told_policies(alloc, &reach.policies, texts)?;
    Ok(ReachReport {
        lines: lines_of(alloc, tree, &rule_texts, &policy_texts)?,
        is_met: are_met(&reach.rules),
        unmet: UnmetReasons::of(alloc, text, tree, &rule_texts)?,
    })
}

fn are_met(rules: &[RuleReach]) -> bool
    ensures { result ≡ reports.are_met rules.now }
{
    rules.iter().all(|rule| matches!(rule.answer, Answer::Met))
}
