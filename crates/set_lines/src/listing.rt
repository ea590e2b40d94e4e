//! The lines of a set.
ghost use Rattle.std.specs.Prelude.{◌≡◌, ◌+◌, ◌<◌, ◌≤◌, ◌&&◌, ℕ, Bool, true, false, cond, vec_len, IfOk, List};
ghost use Rattle.packet_sets.specs.Sets.{holds, IsSet};
ghost use Rattle.set_lines.specs.Lines.{lies_in, number_in, passed, passes};
ghost use Rattle.set_lines.specs.steps.Parts.{AreLines};

use crate::halves::halved;
use crate::line::{FieldNumbers, Line, Lines, Numbers};
use crate::ways::ways;
use packet_sets::{Diagrams, Field, PacketSet};
use std::alloc::{AllocError, Global};

/// How many steps a set may take, of some hundred nanoseconds each.
const MOST_STEPS: u32 = 1_000_000;

/// The packets of a set as lines, at most so many, by the fields, which stand in the order of their
/// bits. What takes more lines, more steps than a million or bits of no field is counted as `more`.
///
/// # Errors
///
/// If an allocation fails.
pub fn lines(
    alloc: Global,
    diagrams: &Diagrams,
    set: PacketSet,
    fields: &[Field],
    most: usize,
) -> Result<Lines, AllocError>
    requires { IsSet diagrams.now set }
    ensures few { IfOk result (λ found. vec_len found.lines ≤ most) }
    ensures inside { IfOk result (λ found. (packet : ℕ → Bool) → holds diagrams.now set packet ≡ false
        → passed found.lines.items packet ≡ 0) }
    ensures apart { IfOk result (λ found. (packet : ℕ → Bool) → passed found.lines.items packet ≤ 1) }
    ensures whole { IfOk result (λ found. found.more ≡ 0 → (packet : ℕ → Bool)
        → holds diagrams.now set packet ≡ true → passed found.lines.items packet ≡ 1) }
{
    let mut steps = MOST_STEPS;
    set_lines(alloc, diagrams, set, fields, most, &mut steps)
}

/// The same in so many steps, which are counted down.
fn set_lines(
    alloc: Global,
    diagrams: &Diagrams,
    set: PacketSet,
    fields: &[Field],
    most: usize,
    steps: &mut u32,
) -> Result<Lines, AllocError>
    requires { IsSet diagrams.now set }
    ensures few { IfOk result (λ found. vec_len found.lines ≤ most) }
    ensures lines { IfOk result (λ found. AreLines diagrams.now set (λ packet. 1) found) }
{
    diagrams.ends();
    if set == PacketSet::NONE {
        return Ok(Lines::none(alloc));
    }
    if set == PacketSet::ALL {
        return Lines::all(alloc, most);
    }
    let Some((field, behind)) = fields.split_first() else {
        return Ok(Lines::untold(alloc));
    };
    if *steps == 0 {
        return Ok(Lines::untold(alloc));
    }
    *steps -= 1;
    if halved(diagrams, set, *field).is_none() {
        return set_lines(alloc, diagrams, set, behind, most, steps);
    }
    let Some(ways) = ways(alloc, diagrams, set, *field, steps)? else {
        return Ok(Lines::untold(alloc));
    };
    let mut found = Lines::none(alloc);
    for way in &ways {
        let left = most - found.lines.len();
        let more = set_lines(alloc, diagrams, way.rest, behind, left, steps)?;
        found.add(alloc, *field, &way.ranges, more)?;
    }
    Ok(found)
}

impl Lines {
    /// No lines: the set has no packet.
    fn none(alloc: Global) -> Lines
        ensures few { vec_len result.lines ≡ 0 }
        ensures lines { (packet : ℕ → Bool) → passed result.lines.items packet ≡ 0 }
    {
        Lines {
            lines: Vec::new(alloc),
            more: 0,
        }
    }

    /// No lines, though it takes some.
    fn untold(alloc: Global) -> Lines
        ensures few { vec_len result.lines ≡ 0 }
        ensures lines { (packet : ℕ → Bool) → passed result.lines.items packet ≡ 0 }
        ensures more { result.more ≡ 1 }
    {
        Lines {
            lines: Vec::new(alloc),
            more: 1,
        }
    }

    /// A line that all packets pass, where one is wanted.
    fn all(alloc: Global, most: usize) -> Result<Lines, AllocError>
        ensures few { IfOk result (λ found. vec_len found.lines ≤ most) }
        ensures lines { IfOk result (λ found. (packet : ℕ → Bool) → passed found.lines.items packet + found.more ≡ 1) }
    {
        if most == 0 {
            return Ok(Lines::untold(alloc));
        }
        let line = Line {
            fields: Vec::new(alloc),
        };
        Ok(Lines {
            lines: vec![in alloc; line]?,
            more: 0,
        })
    }

    /// Adds lines, under these numbers in the field.
    fn add(
        &mut self,
        alloc: Global,
        field: Field,
        ranges: &[Numbers],
        more: Lines,
    ) -> Result<(), AllocError>
        ensures count { IfOk result (λ done. vec_len self.new.lines ≡ vec_len self.old.lines + vec_len more.lines) }
        ensures lines { IfOk result (λ done. (packet : ℕ → Bool) → passed self.new.lines.items packet
            ≡ passed self.old.lines.items packet
            + cond (lies_in ranges.now (number_in field packet)) (passed more.lines.items packet) 0) }
        ensures more { IfOk result (λ done. self.new.more ≡ 0 → (self.old.more ≡ 0) × (more.more ≡ 0)) }
    {
        self.more = self.more.saturating_add(more.more);
        for line in more.lines {
            self.lines.push(line.under(alloc, field, ranges)?)?;
        }
        Ok(())
    }
}

impl Line {
    /// The line with these numbers of a field before the others.
    fn under(mut self, alloc: Global, field: Field, ranges: &[Numbers]) -> Result<Line, AllocError>
        ensures { IfOk result (λ line. (packet : ℕ → Bool) → passes line packet
            ≡ (lies_in ranges.now (number_in field packet) && passes self packet)) }
    {
        let ranges = Vec::from_slice(alloc, ranges)?;
        self.fields.insert(0, FieldNumbers { field, ranges })?;
        Ok(self)
    }
}
