//! The chains of nodes, from their heads on.
ghost use Rattle.std.specs.Prelude.{◌≡◌, ◌+◌, ◌-◌, ◌<◌, ◌≤◌, ◌^◌, [], ◌∷◌, ◌++◌, length, set, replicate, slice_get, vec_capacity, Some};
ghost use Rattle.std.specs.List.{swap_remove};
ghost use Rattle.std.specs.Map.{values_of};
ghost use Rattle.chained_map.specs.steps.Chains.{IsChained, IsChainedUpTo, IsPlaceOf, WritesLinkAt};
ghost use Rattle.chained_map.specs.steps.Nodes.{entries_of, hashes_of};

use crate::buckets::bucket_of;
use crate::node::{Node, set_next};

/// No node has this index.
const NOWHERE: usize = 0x1_0000_0000;

/// Where a node stands in a bucket's chain, or belongs there.
#[derive(Clone, Copy)]
struct Place {
    /// 0 if the bucket's head leads to the node or beyond, else one more than the index of the node
    /// whose link does.
    at: usize,
    /// That head or link.
    link: u32,
}

/// The place of a node in a bucket's chain.
fn find_place<K: Copy, V: Copy>(
    heads: &[u32],
    nodes: &[Node<K, V>],
    out: usize,
    bucket: usize,
    index: usize,
) -> Place
    requires chained { IsChainedUpTo (length nodes.now) out heads.now nodes.now }
    requires bucket { bucket < length heads.now }
    requires index { index < length nodes.now }
    requires few { length nodes.now ≤ 2 ^ 31 }
    ensures { IsPlaceOf heads.now nodes.now out bucket index result.at result.link }
{
    let mut at = 0;
    let mut link = heads[bucket];
    while link as usize > index + 1 {
        at = link as usize;
        link = nodes[at - 1].next;
    }
    Place { at, link }
}

/// Writes what leads to a place: the head of the bucket, or a link.
fn set_link<K: Copy, V: Copy>(
    heads: &mut [u32],
    nodes: &mut [Node<K, V>],
    bucket: usize,
    at: usize,
    link: u32,
)
    requires bucket { bucket < length heads.old }
    requires at { at ≤ length nodes.old }
    ensures writes { WritesLinkAt heads.old nodes.old heads.new nodes.new bucket at link }
    ensures long { length heads.new ≡ length heads.old }
    ensures hashes { hashes_of nodes.new ≡ hashes_of nodes.old }
    ensures entries { entries_of nodes.new ≡ entries_of nodes.old }
{
    if at == 0 {
        heads[bucket] = link;
    } else {
        set_next(nodes, at - 1, link);
    }
}

/// Takes a node out of its chain.
fn unlink<K: Copy, V: Copy>(heads: &mut [u32], nodes: &mut [Node<K, V>], index: usize)
    requires chained { IsChained heads.old nodes.old }
    requires index { index < length nodes.old }
    requires few { (length nodes.old ≤ length heads.old) × (length heads.old ≤ 2 ^ 31) }
    ensures chained { IsChainedUpTo (length nodes.new) index heads.new nodes.new }
    ensures long { (length heads.new ≡ length heads.old) × (length nodes.new ≡ length nodes.old) }
    ensures hashes { hashes_of nodes.new ≡ hashes_of nodes.old }
    ensures entries { entries_of nodes.new ≡ entries_of nodes.old }
{
    let node = nodes[index];
    let bucket = bucket_of(node.hash, heads.len());
    let place = find_place(heads, nodes, NOWHERE, bucket, index);
    set_link(heads, nodes, bucket, place.at, node.next);
}

/// Puts a node that is out into its chain. At an index past the nodes there is none.
fn relink<K: Copy, V: Copy>(heads: &mut [u32], nodes: &mut [Node<K, V>], index: usize)
    requires chained { IsChainedUpTo (length nodes.old) index heads.old nodes.old }
    requires index { index ≤ length nodes.old }
    requires few { (length nodes.old ≤ length heads.old) × (length heads.old ≤ 2 ^ 31) }
    ensures chained { IsChained heads.new nodes.new }
    ensures long { (length heads.new ≡ length heads.old) × (length nodes.new ≡ length nodes.old) }
    ensures hashes { hashes_of nodes.new ≡ hashes_of nodes.old }
    ensures entries { entries_of nodes.new ≡ entries_of nodes.old }
{
    if index == nodes.len() {
        return;
    }
    let bucket = bucket_of(nodes[index].hash, heads.len());
    let place = find_place(heads, nodes, index, bucket, index);
    set_next(nodes, index, place.link);
    set_link(heads, nodes, bucket, place.at, index as u32 + 1);
}

/// Takes the last node out of its chain, which leads to it first, unless it is out.
fn unlink_last<K: Copy, V: Copy>(heads: &mut [u32], nodes: &[Node<K, V>], out: usize)
    requires chained { IsChainedUpTo (length nodes.now) out heads.old nodes.now }
    requires out { out < length nodes.now }
    requires few { (length nodes.now ≤ length heads.old) × (length heads.old ≤ 2 ^ 31) }
    ensures chained { IsChainedUpTo (length nodes.now - 1) out heads.new nodes.now }
    ensures long { length heads.new ≡ length heads.old }
{
    let last = nodes.len() - 1;
    if out == last {
        return;
    }
    let node = nodes[last];
    let bucket = bucket_of(node.hash, heads.len());
    heads[bucket] = node.next;
}

/// Takes a node and the last one out of their chains.
fn unlink_both<K: Copy, V: Copy>(heads: &mut [u32], nodes: &mut [Node<K, V>], index: usize)
    requires chained { IsChained heads.old nodes.old }
    requires index { index < length nodes.old }
    requires few { (length nodes.old ≤ length heads.old) × (length heads.old ≤ 2 ^ 31) }
    ensures chained { IsChainedUpTo (length nodes.new - 1) index heads.new nodes.new }
    ensures long { (length heads.new ≡ length heads.old) × (length nodes.new ≡ length nodes.old) }
    ensures hashes { hashes_of nodes.new ≡ hashes_of nodes.old }
    ensures entries { entries_of nodes.new ≡ entries_of nodes.old }
{
    unlink(heads, nodes, index);
    unlink_last(heads, nodes, index);
}

/// Removes a node, and moves the last one to its place.
pub(crate) fn remove_node<K: Copy, V: Copy>(
    heads: &mut [u32],
    nodes: &mut Vec<Node<K, V>>,
    index: usize,
) -> V
    requires chained { IsChained heads.old nodes.old.items }
    requires index { index < length nodes.old.items }
    requires few { (length nodes.old.items ≤ length heads.old) × (length heads.old ≤ 2 ^ 31) }
    ensures chained { IsChained heads.new nodes.new.items }
    ensures long { length heads.new ≡ length heads.old }
    ensures hashes { hashes_of nodes.new.items ≡ swap_remove (hashes_of nodes.old.items) index 0 }
    ensures entries { (entry : K × V)
        → entries_of nodes.new.items ≡ swap_remove (entries_of nodes.old.items) index entry }
    ensures one_fewer { length nodes.new.items + 1 ≡ length nodes.old.items }
    ensures value { slice_get (values_of (entries_of nodes.old.items)) index ≡ Some result }
    ensures capacity { vec_capacity nodes.new ≡ vec_capacity nodes.old }
{
    unlink_both(heads, nodes, index);
    let removed = nodes.swap_remove(index);
    relink(heads, nodes, index);
    removed.value
}

/// Adds a node, the first of its bucket's chain. There is room for it.
#[inline(always)]
pub(crate) fn push_node<K: Copy, V: Copy>(
    heads: &mut [u32],
    nodes: &mut Vec<Node<K, V>>,
    hash: u32,
    key: K,
    value: V,
)
    requires chained { IsChained heads.old nodes.old.items }
    requires few { (length nodes.old.items < length heads.old) × (length heads.old ≤ 2 ^ 31) }
    requires room { length nodes.old.items < vec_capacity nodes.old }
    ensures chained { IsChained heads.new nodes.new.items }
    ensures long { length heads.new ≡ length heads.old }
    ensures hashes { hashes_of nodes.new.items ≡ hashes_of nodes.old.items ++ hash ∷ [] }
    ensures entries { entries_of nodes.new.items ≡ entries_of nodes.old.items ++ (key, value) ∷ [] }
    ensures one_more { length nodes.new.items ≡ length nodes.old.items + 1 }
    ensures capacity { vec_capacity nodes.new ≡ vec_capacity nodes.old }
{
    let bucket = bucket_of(hash, heads.len());
    let index = nodes.len();
    nodes.push_reserved(Node {
        key,
        value,
        hash,
        next: heads[bucket],
    });
    heads[bucket] = index as u32 + 1;
}

/// Chains all nodes anew, from heads that lead nowhere.
pub(crate) fn link_all<K: Copy, V: Copy>(heads: &mut [u32], nodes: &mut [Node<K, V>])
    requires empty { heads.old ≡ replicate (length heads.old) 0 }
    requires few { (length nodes.old ≤ length heads.old) × (length heads.old ≤ 2 ^ 31) }
    ensures chained { IsChained heads.new nodes.new }
    ensures long { length heads.new ≡ length heads.old }
    ensures hashes { hashes_of nodes.new ≡ hashes_of nodes.old }
    ensures entries { entries_of nodes.new ≡ entries_of nodes.old }
{
    for index in 0..nodes.len() {
        let bucket = bucket_of(nodes[index].hash, heads.len());
        set_next(nodes, index, heads[bucket]);
        heads[bucket] = index as u32 + 1;
    }
}
