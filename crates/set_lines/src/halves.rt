//! A set by one bit.
ghost use Rattle.std.specs.Prelude.{IfSome};
ghost use Rattle.packet_sets.specs.Sets.{IsSet};
ghost use Rattle.set_lines.specs.steps.Parts.{AreHalves};

use packet_sets::{Diagrams, Field, PacketSet};

/// Where packets go on by a bit: to `high` where they have it, else to `low`.
#[derive(Clone, Copy)]
pub(crate) struct Halves {
    pub(crate) low: PacketSet,
    pub(crate) high: PacketSet,
}

/// Where packets go on by the first bit of the field; `None` where the field's bits aren't the next
/// to be tested.
pub(crate) fn halved(diagrams: &Diagrams, set: PacketSet, field: Field) -> Option<Halves>
    requires { IsSet diagrams.now set }
    ensures { IfSome result (λ halves. AreHalves diagrams.now set field halves) }
{
    let split = diagrams.split(set)?;
    if split.bit < field.first {
        return None;
    }
    if split.bit - field.first >= field.width {
        return None;
    }
    if split.bit == field.first {
        return Some(Halves {
            low: split.low,
            high: split.high,
        });
    }
    Some(Halves {
        low: set,
        high: set,
    })
}
