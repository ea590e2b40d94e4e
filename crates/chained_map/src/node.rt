//! Entries in their chains.
ghost use Rattle.std.specs.Prelude.{◌≡◌, ◌<◌, length, set};
ghost use Rattle.chained_map.specs.steps.Nodes.{entries_of, hashes_of, nexts_of};

/// An entry of a map.
#[derive(Clone, Copy)]
pub(crate) struct Node<K, V> {
    pub(crate) key: K,
    pub(crate) value: V,
    /// The hash of the key.
    pub(crate) hash: u32,
    /// One more than the index of the latest node before this one in the same bucket, 0 if there is
    /// none.
    pub(crate) next: u32,
}

/// Writes a node's link.
#[inline(always)]
pub(crate) fn set_next<K: Copy, V: Copy>(nodes: &mut [Node<K, V>], index: usize, link: u32)
    requires { index < length nodes.old }
    ensures nexts { nexts_of nodes.new ≡ set (nexts_of nodes.old) index link }
    ensures hashes { hashes_of nodes.new ≡ hashes_of nodes.old }
    ensures entries { entries_of nodes.new ≡ entries_of nodes.old }
{
    nodes[index].next = link;
}
