//! Lines and columns, and how they are shown.
ghost use Rattle.std.specs.Prelude.{◌≡◌, ◌≤◌, ◌+◌, length};

use crate::part::{Span, bytes_of};
use std::alloc::AllocError;

/// How many bytes of a line are shown on either side of a location.
const MAX_SHOWN_BYTES: usize = 120;

/// The line and column of an offset, and the extent of its line.
#[derive(Clone, Copy)]
pub struct Position {
    /// The number of the line, from 1.
    pub line: usize,
    /// The column in bytes, from 1.
    pub column: usize,
    /// The offsets at which the line begins and ends, without its line end.
    pub start: usize,
    pub end: usize,
}

/// The position of an offset of a text.
pub fn position_at(text: &[u8], offset: usize) -> Position
    requires { offset ≤ length text.now }
    ensures begins { result.start ≤ offset }
    ensures ends { result.end ≤ length text.now }
    ensures ordered { result.start ≤ result.end }
    ensures lines { result.line ≤ offset + 1 }
    ensures columns { result.start + result.column ≡ offset + 1 }
{
    let (mut line, mut start) = (1, 0);
    for at in 0..offset {
        if text[at] == b'\n' {
            line += 1;
            start = at + 1;
        }
    }
    Position {
        line,
        column: offset - start + 1,
        start,
        end: end_of_line(text, offset),
    }
}

/// The offset at which the line around this one ends, without its line end.
fn end_of_line(text: &[u8], offset: usize) -> usize
    requires { offset ≤ length text.now }
    ensures behind { offset ≤ result }
    ensures within { result ≤ length text.now }
{
    for at in offset..text.len() {
        if text[at] == b'\n' {
            return at;
        }
    }
    text.len()
}

/// Writes the line and column of an offset, and the line with a caret under the column.
///
/// # Errors
/// `AllocError` for want of memory.
pub fn show(lines: &mut String, path: &str, text: &[u8], offset: usize) -> Result<(), AllocError> {
    if offset > text.len() {
        return Ok(());
    }
    let at = position_at(text, offset);
    lines.push_str(path)?;
    writeln!(lines, ":{}:{}", at.line, at.column)?;
    show_line(lines, text, at, offset)
}

/// Writes what is around an offset on its line, if that is UTF-8, and a caret under it.
fn show_line(
    lines: &mut String,
    text: &[u8],
    at: Position,
    offset: usize,
) -> Result<(), AllocError> {
    let start = at.start.max(offset.saturating_sub(MAX_SHOWN_BYTES));
    let end = at.end.min(offset.saturating_add(MAX_SHOWN_BYTES));
    let Ok(line) = str::from_utf8(bytes_of(text, Span { start, end })) else {
        return Ok(());
    };
    lines.push_str(line)?;
    lines.push('\n')?;
    put_caret(lines, bytes_of(text, Span { start, end: offset }))
}

/// Writes a line with a caret under the byte that follows these; tabs stay, so that it is aligned.
fn put_caret(lines: &mut String, before: &[u8]) -> Result<(), AllocError> {
    for byte in before {
        lines.push(if *byte == b'\t' { '\t' } else { ' ' })?;
    }
    lines.push_str("^\n")
}
