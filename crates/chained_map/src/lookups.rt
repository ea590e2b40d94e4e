//! The look-up of a key.
ghost use Rattle.std.specs.Prelude.{◌≡◌, ℕ, ◌<◌, ◌≤◌, ◌^◌, true, false, length, slice_index, slice_index_or, IfSome, IfNone};
ghost use Rattle.std.specs.Map.{keys_of};
ghost use Rattle.chained_map.specs.steps.Chains.{IsChained};
ghost use Rattle.chained_map.specs.steps.Nodes.{entries_of, hashes_of};

use crate::buckets::bucket_of;
use crate::node::Node;

/// The index of the node with a key, which has this hash.
#[inline(always)]
pub(crate) fn find<K: Eq + Copy, V: Copy>(
    heads: &[u32],
    nodes: &[Node<K, V>],
    hash: u32,
    key: K,
) -> Option<usize>
    requires chained { IsChained heads.now nodes.now }
    requires few { (length nodes.now ≤ length heads.now) × (length heads.now ≤ 2 ^ 31) }
    ensures found { IfSome result (λ i. (i < length nodes.now)
        × ((d : K) → true ≡ K.eq key (slice_index_or (keys_of (entries_of nodes.now)) i d))) }
    ensures absent { IfNone result ((i : ℕ) → i < length nodes.now → slice_index (hashes_of nodes.now) i ≡ hash
        → (d : K) → false ≡ K.eq key (slice_index_or (keys_of (entries_of nodes.now)) i d)) }
{
    if nodes.is_empty() {
        return None;
    }
    let mut link = heads[bucket_of(hash, heads.len())];
    while link > 0 {
        let index = link as usize - 1;
        let node = &nodes[index];
        if node.hash == hash && key == node.key {
            return Some(index);
        }
        link = node.next;
    }
    None
}
