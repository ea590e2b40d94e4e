//! The report of what a new ruleset does differently.
ghost use Rattle.std.specs.Prelude.{◌≡◌, IfOk, IfSome};
ghost use Rattle.ruleset_diff.specs.Differences.{AreDifferences, assumption};
ghost use Rattle.diff_report.specs.Reports.{Tells};

use crate::classes::classes_of;
use crate::lines::class_lines;
use chain_sets::WalkError;
use rule_check::Checked;
use ruleset_diff::ruleset_diff;
use std::alloc::Global;

/// What a new ruleset does differently.
#[derive(Drop)]
pub struct DiffReport {
    /// The lines that tell it.
    pub text: Vec<u8>,
    /// Whether it does the same with every packet.
    pub same: bool,
}

/// What is told where it does.
const SAME: &[u8] = b"the same for every packet\n";

/// Tells of two checked rulesets on one box what the new one does differently; where a ruleset is
/// assumed, with packets that each of its filter chains accepts. At most `limit` nodes are made for
/// sets.
///
/// # Errors
///
/// `TooLarge` where more nodes are needed than the limit allows, `TooDeep` where jumps and gotos lead
/// through more than 256 chains, `Memory` where an allocation failed.
pub fn report_of(
    alloc: Global,
    old: &Checked,
    new: &Checked,
    assumed: Option<&Checked>,
    limit: u32,
) -> Result<DiffReport, WalkError>
    requires same_box { new.now.network ≡ old.now.network }
    requires assumed_box { IfSome assumed (λ filter. filter.now.network ≡ old.now.network) }
    ensures { IfOk result (λ report. Tells old.now.network old.now.rules new.now.rules
        (assumption assumed.entry) report.same report.text.items) }
{
    let diff = ruleset_diff(alloc, old, new, assumed, limit)?;
    if diff.differences().is_empty() {
        return Ok(DiffReport {
            text: SAME.to_vec(alloc)?,
            same: true,
        });
    }
    let classes = classes_of(alloc, diff.differences())?;
    Ok(DiffReport {
        text: class_lines(alloc, old, new, &diff, &classes)?,
        same: false,
    })
}
