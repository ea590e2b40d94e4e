//! The index by which a node is found again.
ghost use Rattle.std.specs.Prelude.{◌≡◌, ◌<◌, ℕ, length, IfSome, List};
ghost use Rattle.packet_sets.specs.Sets.{branch_at};

use crate::branch::Branch;
use crate::places::place_near;
use std::alloc::{AllocError, Global};

/// A table by hash: the last node of each bucket, and for each node the one before it in its bucket,
/// 0 where there is none. Nothing is claimed of it: a node that it names is compared.
#[derive(Drop)]
pub(crate) struct Index {
    last: Vec<u32>,
    before: Vec<u32>,
}

/// The first number of buckets, a power of two, as all later ones.
const BUCKETS: usize = 4096;

/// The bucket of a node.
fn bucket_of(branch: Branch, buckets: usize) -> usize
    requires { 0 < buckets }
    ensures { result < buckets }
{
    let bit = u64::from(branch.bit).wrapping_mul(0x9e37_79b9_7f4a_7c15);
    let low = u64::from(branch.low).wrapping_mul(0xc2b2_ae3d_27d4_eb4f);
    let high = u64::from(branch.high).wrapping_mul(0x1656_67b1_9e37_79f9);
    place_near(branch.low, branch.high, bit ^ low ^ high, buckets)
}

impl Index {
    /// The index of no node.
    pub(crate) fn new(alloc: Global) -> Result<Index, AllocError> {
        Ok(Index {
            last: vec![in alloc; 0; BUCKETS]?,
            before: Vec::new(alloc),
        })
    }

    /// The number of a node that is this one.
    pub(crate) fn find(&self, nodes: &[Branch], wanted: Branch) -> Option<u32>
        ensures below { IfSome result (λ n. n < length nodes.now) }
        ensures same { IfSome result (λ n. branch_at nodes.now n ≡ wanted) }
    {
        if self.last.is_empty() {
            return None;
        }
        let mut at = self.last[bucket_of(wanted, self.last.len())];
        while at != 0 {
            let node = at as usize;
            if node >= nodes.len() || node >= self.before.len() {
                return None;
            }
            let found = nodes[node];
            if found.bit == wanted.bit && found.low == wanted.low && found.high == wanted.high {
                return Some(at);
            }
            let before = self.before[node];
            if before >= at {
                return None;
            }
            at = before;
        }
        None
    }

    /// Adds the nodes that it hasn't yet, with twice the buckets where there are fewer than two for
    /// each node: so most buckets have one node at most.
    pub(crate) fn add(&mut self, alloc: Global, nodes: &[Branch]) -> Result<(), AllocError> {
        if nodes.len() > self.last.len() / 2 && self.last.len() < 0x4000_0000 {
            let last = vec![in alloc; 0; self.last.len() * 2]?;
            self.before = Vec::with_capacity(alloc, nodes.len())?;
            self.last = last;
        }
        if self.last.is_empty() {
            return Ok(());
        }
        for node in self.before.len()..nodes.len() {
            let bucket = bucket_of(nodes[node], self.last.len());
            self.before.push(self.last[bucket])?;
            self.last[bucket] = u32::try_from(node).unwrap_or(0);
        }
        Ok(())
    }
}
