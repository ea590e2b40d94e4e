//! The pieces of a set by the number in a field.
ghost use Rattle.std.specs.Prelude.{◌≡◌, ◌+◌, ◌^◌, IfOk, IfSome};
ghost use Rattle.packet_sets.specs.Sets.{IsSet};
ghost use Rattle.set_lines.specs.steps.Parts.{ArePieces};

use crate::halves::halved;
use crate::line::Numbers;
use packet_sets::{Diagrams, Field, PacketSet};
use std::alloc::{AllocError, Global};

/// Numbers in a field, and the set to which packets with one of them go on behind it.
#[derive(Clone, Copy)]
pub(crate) struct Piece {
    pub(crate) numbers: Numbers,
    pub(crate) rest: PacketSet,
}

/// The pieces of a set by the number in a field, ascending; `None` where it takes more steps. These
/// are counted down.
pub(crate) fn pieces(
    alloc: Global,
    diagrams: &Diagrams,
    set: PacketSet,
    field: Field,
    numbers: Numbers,
    steps: &mut u32,
) -> Result<Option<Vec<Piece>>, AllocError>
    requires set { IsSet diagrams.now set }
    requires numbers { numbers.high + 1 ≡ numbers.low + 2 ^ field.width }
    ensures { IfOk result (λ found. IfSome found
        (λ pieces. ArePieces diagrams.now set field numbers.low pieces.items)) }
{
    if *steps == 0 {
        return Ok(None);
    }
    *steps -= 1;
    let Some(halves) = halved(diagrams, set, field) else {
        return Ok(Some(vec![in alloc; Piece { numbers, rest: set }]?));
    };
    let behind = Field {
        first: field.first + 1,
        width: field.width - 1,
    };
    let middle = numbers.low + (numbers.high - numbers.low) / 2;
    let less = Numbers {
        low: numbers.low,
        high: middle,
    };
    let Some(mut all) = pieces(alloc, diagrams, halves.low, behind, less, steps)? else {
        return Ok(None);
    };
    let greater = Numbers {
        low: middle + 1,
        high: numbers.high,
    };
    let Some(others) = pieces(alloc, diagrams, halves.high, behind, greater, steps)? else {
        return Ok(None);
    };
    all.extend_from_slice(&others)?;
    Ok(Some(all))
}
