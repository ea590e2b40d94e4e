//! Room for more nodes.
ghost use Rattle.std.specs.Prelude.{◌≡◌, ◌+◌, ◌≤◌, ◌^◌, length, replicate, vec_capacity, IfOk, OnOk};
ghost use Rattle.chained_map.specs.steps.Chains.{IsChained};
ghost use Rattle.chained_map.specs.steps.Tables.{HasRoom};

use crate::buckets::grown;
use crate::chains::link_all;
use crate::node::Node;
use std::alloc::{AllocError, Global};

/// So many heads that lead nowhere.
///
/// # Errors
///
/// `AllocError` where memory ran out.
fn empty_heads(alloc: Global, count: usize) -> Result<Vec<u32>, AllocError>
    ensures { IfOk result (λ heads. heads.items ≡ replicate count 0) }
{
    vec![in alloc; 0; count]
}

/// Makes room for so many more nodes, and chains all anew. There is a head for each for which there
/// is room.
///
/// # Errors
///
/// `AllocError` where memory ran out, or more than 2^31 nodes would have to fit. No node is lost then
/// and no room.
pub(crate) fn make_room<K: Copy, V: Copy>(
    heads: &mut Vec<u32>,
    nodes: &mut Vec<Node<K, V>>,
    additional: usize,
) -> Result<(), AllocError>
    requires chained { IsChained heads.old.items nodes.old.items }
    requires few { (length nodes.old.items ≤ length heads.old.items) × (length heads.old.items ≤ 2 ^ 31) }
    requires reserved { length heads.old.items ≤ vec_capacity nodes.old }
    ensures kept { HasRoom heads.old.items nodes.old.items heads.new.items nodes.new.items (vec_capacity nodes.new) }
    ensures room { OnOk result (length nodes.old.items + additional ≤ length heads.new.items) }
{
    let count = grown(heads.len(), nodes.len(), additional)?;
    nodes.reserve_exact(count - nodes.len())?;
    *heads = empty_heads(*nodes.allocator(), count)?;
    link_all(heads, nodes);
    Ok(())
}
