//! The lines of classes.
ghost use Rattle.std.specs.Prelude.{All};
ghost use Rattle.packet_sets.specs.Sets.{IsSet};

use crate::classes::{Classes, Weight, is_before_lookup, sets_of, weight_of};
use crate::words::{put_decider, put_verdict, put_written, stage_words};
use itoa::Buffer;
use rule_check::Checked;
use ruleset_diff::{Difference, RulesetDiff};
use set_texts::SetWords;
use stage_sets::StageOutcome;
use std::alloc::{AllocError, Global};

/// The most lines of matches that tell the packets of a class.
const MOST_LINES: usize = 20;

/// The lines of all classes, and how many sets of packets aren't told.
pub(crate) fn class_lines(
    alloc: Global,
    old: &Checked,
    new: &Checked,
    diff: &RulesetDiff,
    classes: &Classes,
) -> Result<Vec<u8>, AllocError>
    requires { All (λ x. IsSet diff.now.diagrams x.set) diff.now.differences.items }
{
    let words = SetWords::new(alloc, old.plant())?;
    let mut text = Vec::new(alloc);
    for class in &classes.first {
        put_class(&mut text, old, new, class)?;
        put_packets(alloc, &mut text, &words, diff, class)?;
    }
    if classes.more > 0 {
        text.extend_from_slice(b"at least ")?;
        text.extend_from_slice(Buffer::new().format(classes.more).as_bytes())?;
        text.extend_from_slice(b" more\n")?;
    }
    Ok(text)
}

/// Appends the line of a class: its stage, and what each ruleset does.
fn put_class(
    text: &mut Vec<u8>,
    old: &Checked,
    new: &Checked,
    class: &Difference,
) -> Result<(), AllocError> {
    text.extend_from_slice(stage_words(class.stage))?;
    text.extend_from_slice(b": ")?;
    put_decision(text, old, class.old)?;
    put_marks(text, class, class.old, class.new)?;
    text.extend_from_slice(b", now ")?;
    put_decision(text, new, class.new)?;
    put_marks(text, class, class.new, class.old)?;
    text.push(b'\n')?;
    Ok(())
}

fn put_decision(
    text: &mut Vec<u8>,
    checked: &Checked,
    outcome: StageOutcome,
) -> Result<(), AllocError> {
    put_verdict(text, outcome.verdict)?;
    put_decider(text, checked.tree(), outcome.by)
}

/// Appends what a ruleset has written otherwise than the other, where nothing else differs.
fn put_marks(
    text: &mut Vec<u8>,
    class: &Difference,
    outcome: StageOutcome,
    other: StageOutcome,
) -> Result<(), AllocError> {
    if weight_of(class) != Weight::Marks {
        return Ok(());
    }
    put_written(text, outcome.written, other.written)?;
    if is_before_lookup(class.stage) && outcome.written.untracked && !other.written.untracked {
        text.extend_from_slice(b" with notrack")?;
    }
    Ok(())
}

/// Appends the packets of a class.
fn put_packets(
    alloc: Global,
    text: &mut Vec<u8>,
    words: &SetWords<'_>,
    diff: &RulesetDiff,
    class: &Difference,
) -> Result<(), AllocError>
    requires { All (λ x. IsSet diff.now.diagrams x.set) diff.now.differences.items }
{
    let sets = sets_of(alloc, class, diff.differences())?;
    let mut below = Vec::new(alloc);
    words.put_sets(alloc, &mut below, diff.diagrams(), b"", &sets, MOST_LINES)?;
    text.extend_from_slice(&below)
}
