//! Locates a fault of a box file: the line with which the file gets it.
use crate::faults::box_fault;
use box_file::BoxFault;
use fault_places::{Span, mask};
use std::alloc::{AllocError, Global};

/// What a line of a box file says.
#[derive(Clone, Copy, PartialEq)]
enum LineKind {
    Interface,
    Default,
    Other,
}

/// The order in which lines are taken out: the others name interfaces, and without a `default` line
/// a file is no box.
static KINDS: [LineKind; 3] = [LineKind::Other, LineKind::Interface, LineKind::Default];

/// The last of the first lines that are enough for the fault, with all `interface` lines and the
/// `default` line, or else of `interface` lines, or the `default` line.
///
/// # Errors
/// `AllocError` for want of memory.
pub fn faulty_line(
    alloc: Global,
    text: &[u8],
    fault: BoxFault,
) -> Result<Option<Span>, AllocError> {
    let mut left = text.to_vec(alloc)?;
    for kind in &KINDS {
        let lines = lines_of(alloc, text, *kind)?;
        if let Some(line) = completing_line(alloc, &left, &lines, fault)? {
            return Ok(Some(line));
        }
        mask(&mut left, &lines);
    }
    Ok(None)
}

/// The lines of a kind, in text order.
fn lines_of(alloc: Global, text: &[u8], kind: LineKind) -> Result<Vec<Span>, AllocError> {
    let mut lines = Vec::new(alloc);
    let mut start = 0usize;
    for line in text.split(|byte| *byte == b'\n') {
        let end = start.saturating_add(line.len());
        if kind_of(line) == kind {
            lines.push(Span { start, end })?;
        }
        start = end.saturating_add(1);
    }
    Ok(lines)
}

fn kind_of(line: &[u8]) -> LineKind {
    if line.starts_with(b"interface") {
        LineKind::Interface
    } else if line.starts_with(b"default") {
        LineKind::Default
    } else {
        LineKind::Other
    }
}

/// The line of these with which a text gets the fault; none where it has it without them.
fn completing_line(
    alloc: Global,
    text: &[u8],
    lines: &[Span],
    fault: BoxFault,
) -> Result<Option<Span>, AllocError> {
    // Whether the text has the fault without the lines from a number on.
    let fails_without = |first: usize| -> Result<bool, AllocError> {
        let mut left = text.to_vec(alloc)?;
        mask(&mut left, lines.get(first..).unwrap_or(&[]));
        Ok(box_fault(alloc, &left)? == Some(fault))
    };
    if lines.is_empty() || fails_without(0)? {
        return Ok(None);
    }
    let (mut without, mut with) = (0, lines.len());
    while with - without > 1 {
        let middle = without + (with - without) / 2;
        if fails_without(middle)? {
            with = middle;
        } else {
            without = middle;
        }
    }
    Ok(lines.get(without).copied())
}
