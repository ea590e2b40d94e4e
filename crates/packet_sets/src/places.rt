//! Places in tables by hash.
ghost use Rattle.std.specs.Prelude.{◌<◌};

/// Over so many places, a power of two, those of pairs with the same sum are spread.
const NEAR: u64 = 256;

/// The place of two nodes in a table with so many places, a power of two, where `mixed` is mixed from
/// all that the place is for. Nodes that are made one after another are used so, too: numbers that are
/// near to one another have places that are. A table is larger than what a processor keeps at hand,
/// and it waits the longer, the further apart the places are. The sum leaves apart the pairs of one
/// node with many others.
pub(crate) fn place_near(left: u32, right: u32, mixed: u64, places: usize) -> usize
    requires { 0 < places }
    ensures { result < places }
{
    let sum = u64::from(left) + u64::from(right);
    let spread = (mixed ^ (mixed >> 29)) & (NEAR - 1);
    // No division: it would take longer than the rest.
    ((sum ^ spread) & (places as u64 - 1)) as usize
}
