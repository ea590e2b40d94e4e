//! Results of operations, as many as there is room for.
ghost use Rattle.std.specs.Prelude.{◌≡◌, ◌<◌, ◌≤◌, ℕ, List, length, IfSome, IfOk};
ghost use Rattle.packet_sets.specs.declared.branch.Branch.{Branch};
ghost use Rattle.packet_sets.specs.steps.Nodes.{AreNodes};
ghost use Rattle.packet_sets.specs.steps.Operations.{AreRight, IsResult, IsRight};

use crate::operation::Operation;
use crate::places::place_near;
use std::alloc::{AllocError, Global};

/// What an operation made of two nodes.
#[derive(Clone, Copy)]
pub(crate) struct Entry {
    pub(crate) operation: Operation,
    pub(crate) left: u32,
    pub(crate) right: u32,
    pub(crate) result: u32,
}

/// None and none is none.
const BEGIN: Entry = Entry {
    operation: Operation::And,
    left: 0,
    right: 0,
    result: 0,
};

/// The least and the greatest size, powers of two, as those between. The greatest takes 64 MiB: nearly
/// all results of a walk through 16,000 rules are still there when the same ones are walked again.
const LEAST: usize = 4096;

const GREATEST: usize = 0x40_0000;

/// A table by hash of results. Each place has the last one that was put there.
#[derive(Drop)]
pub(crate) struct Memo {
    entries: Vec<Entry>,
}

/// The place of an operation's result.
fn place_of(operation: Operation, left: u32, right: u32, places: usize) -> usize
    requires { 0 < places }
    ensures { result < places }
{
    let salt = match operation {
        Operation::And => 0x1656_67b1_9e37_79f9,
        Operation::Or => 0x2545_f491_4f6c_dd1d,
        Operation::Without => 0x27d4_eb2f_1656_67c5,
    };
    let first = u64::from(left).wrapping_mul(0x9e37_79b9_7f4a_7c15);
    let second = u64::from(right).wrapping_mul(0xc2b2_ae3d_27d4_eb4f);
    place_near(left, right, first ^ second ^ salt, places)
}

impl Memo {
    /// No results but that none and none is none.
    pub(crate) fn new(alloc: Global) -> Result<Memo, AllocError>
        ensures { (nodes : List Branch) → AreNodes nodes
            → IfOk result (λ memo. AreRight nodes memo.entries.items) }
    {
        Ok(Memo {
            entries: vec![in alloc; BEGIN; LEAST]?,
        })
    }

    /// The result of an operation, `None` where it is forgotten.
    pub(crate) fn recall(&self, operation: Operation, left: u32, right: u32) -> Option<u32>
        ensures { (nodes : List Branch) → AreRight nodes self.now.entries.items
            → IfSome result (λ n. IsResult nodes operation left right n) }
    {
        if self.entries.is_empty() {
            return None;
        }
        let entry = self.entries[place_of(operation, left, right, self.entries.len())];
        if entry.operation != operation {
            return None;
        }
        if entry.left == left && entry.right == right {
            return Some(entry.result);
        }
        None
    }

    /// Puts a result at its place.
    pub(crate) fn keep(&mut self, entry: Entry)
        ensures { (nodes : List Branch) → AreRight nodes self.old.entries.items → IsRight nodes entry
            → AreRight nodes self.new.entries.items }
    {
        if self.entries.is_empty() {
            return;
        }
        let place = place_of(entry.operation, entry.left, entry.right, self.entries.len());
        self.entries[place] = entry;
    }

    /// Makes room for the results of more nodes. It leaves the memo where memory is refused.
    pub(crate) fn grow(&mut self, alloc: Global, count: usize) -> Result<(), AllocError>
        ensures { (nodes : List Branch) → AreNodes nodes → AreRight nodes self.old.entries.items
            → AreRight nodes self.new.entries.items }
    {
        let places = self.entries.len();
        if count <= places || places >= GREATEST {
            return Ok(());
        }
        let mut larger = Memo {
            entries: vec![in alloc; BEGIN; places * 2]?,
        };
        for entry in &self.entries {
            larger.keep(*entry);
        }
        *self = larger;
        Ok(())
    }
}
