//! The timeouts that the idle lines set.
ghost use Rattle.std.specs.Prelude.{◌≡◌, ◌<◌, ◌≤◌, ◌^◌, false, find, map};
ghost use Rattle.std.specs.List.{list_any};
ghost use Rattle.std.specs.Option.{option_map};
ghost use Rattle.box_file.specs.Box.{AreLimits, idle_for, is_of_kind, is_out_of_range, seconds_of};
ghost use Rattle.box_file.specs.steps.Reading.{idle_tree};

use crate::idle_line::{IdleKind, IdleLine, MAX_IDLE_SECONDS};
use crate::limits::Limits;
use crate::numbers::number;

/// The seconds of the line, saturated at the greatest `u32`.
fn seconds(line: &IdleLine) -> u32
    ensures small { seconds_of (idle_tree line.now) < 2 ^ 32
        → result ≡ seconds_of (idle_tree line.now) }
    ensures large { 2 ^ 32 ≤ seconds_of (idle_tree line.now) → result ≡ 4294967295 }
{
    number(line.seconds).unwrap_or(u32::MAX)
}

/// Whether the seconds are below the minimum for the line's kind, or above a week.
pub fn is_out_of_range(line: &IdleLine) -> bool
    ensures { result ≡ is_out_of_range (idle_tree line.now) }
{
    let seconds = seconds(line);
    seconds < line.kind.minimum() || MAX_IDLE_SECONDS < seconds
}

/// The first line of the kind.
fn find_by_kind<'i, 't>(lines: &'i [IdleLine<'t>], kind: IdleKind) -> Option<&'i IdleLine<'t>>
    ensures { option_map (λ i. idle_tree i.now) result
        ≡ find (is_of_kind kind) (map idle_tree lines.now) }
{
    let mut rest = lines;
    while let [line, others @ ..] = rest {
        if line.kind == kind {
            return Some(line);
        }
        rest = others;
    }
    None
}

/// The timeout of the kind in seconds: its line's, else the default. All lines must be in range.
fn limit(lines: &[IdleLine], kind: IdleKind) -> u32
    requires { list_any is_out_of_range (map idle_tree lines.now) ≡ false }
    ensures value { result ≡ idle_for (map idle_tree lines.now) kind }
    ensures positive { 0 < result }
{
    match find_by_kind(lines, kind) {
        Some(line) => seconds(line),
        None => Limits::usual().of(kind),
    }
}

/// The timeouts of all kinds. All lines must be in range.
pub fn limits(lines: &[IdleLine]) -> Limits
    requires { list_any is_out_of_range (map idle_tree lines.now) ≡ false }
    ensures { AreLimits (map idle_tree lines.now) result }
{
    Limits {
        established: limit(lines, IdleKind::Established),
        transitory: limit(lines, IdleKind::Transitory),
        udp: limit(lines, IdleKind::Udp),
        echo: limit(lines, IdleKind::Echo),
        other: limit(lines, IdleKind::Other),
    }
}
