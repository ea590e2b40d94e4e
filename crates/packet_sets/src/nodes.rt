//! The nodes of diagrams.
ghost use Rattle.std.specs.Prelude.{◌≡◌, ◌<◌, ◌≤◌, ◌-◌, ◌^◌, ℕ, Bool, cond, length, max, IfOk, IfErr};
ghost use Rattle.packet_sets.specs.Sets.{branch_at, meaning};
ghost use Rattle.packet_sets.specs.steps.Nodes.{bit_of, AreNodes, Grows, IsJoined, IsPart};
ghost use Rattle.packet_sets.specs.declared.fault.SetError.TheVariants.{Memory, TooLarge};

use crate::branch::Branch;
use crate::fault::SetError;
use crate::index::Index;
use std::alloc::Global;
use std::marker::Model;

/// The bit of the two nodes at which walks end.
pub(crate) const END: u32 = u32::MAX;

/// Nodes, children before parents. 0 is none and 1 is all.
#[derive(Drop)]
pub(crate) struct Nodes {
    alloc: Global,
    list: Vec<Branch>,
    index: Index,
    limit: u32,
}

impl Model for Nodes {
    ghost use Rattle.std.specs.Prelude.{◌≤◌, length, max};
    ghost use Rattle.packet_sets.specs.Sets.{DiagramsView};
    ghost use Rattle.packet_sets.specs.steps.Nodes.{AreNodes};

    ghost Value = { DiagramsView };

    ghost view = { λ n. record { nodes = n.list.items; limit = n.limit } };

    ghost invariant = { λ n. AreNodes n.list.items × (length n.list.items ≤ max 2 n.limit) };
}

impl Nodes {
    /// The two nodes at which walks end.
    pub(crate) fn new(alloc: Global, limit: u32) -> Result<Nodes, SetError>
        ensures limit { IfOk result (λ nodes. nodes.limit ≡ limit) }
        ensures few { IfOk result (λ nodes. length nodes.nodes ≡ 2) }
        ensures sound { IfOk result (λ nodes. AreNodes nodes.nodes) }
        ensures memory { IfErr result (λ e. e ≡ Memory) }
    {
        let none = Branch {
            bit: END,
            low: 0,
            high: 0,
        };
        let all = Branch {
            bit: END,
            low: 1,
            high: 1,
        };
        let mut list = Vec::with_capacity(alloc, 1024)?;
        list.push(none)?;
        list.push(all)?;
        let mut index = Index::new(alloc)?;
        index.add(alloc, &list)?;
        Ok(Nodes {
            alloc,
            list,
            index,
            limit,
        })
    }

    /// How many nodes there are.
    pub(crate) fn count(&self) -> usize
        ensures count { result ≡ length self.now.nodes }
        ensures few { result ≤ max 2 self.now.limit }
    {
        self.list.len()
    }

    /// The bit of a node.
    pub(crate) fn bit(&self, node: u32) -> u32
        requires { node < length self.now.nodes }
        ensures bit { result ≡ bit_of self.now.nodes node }
        ensures end { node < 2 → result ≡ 2 ^ 32 - 1 }
        ensures before { 2 ≤ node → result < 2 ^ 32 - 1 }
    {
        self.list[node as usize].bit
    }

    /// A node.
    pub(crate) fn branch(&self, node: u32) -> Branch
        requires { node < length self.now.nodes }
        ensures { result ≡ branch_at self.now.nodes node }
    {
        self.list[node as usize]
    }

    /// Where packets go on from a node that have this bit, and those that haven't. The node has no
    /// earlier bit.
    pub(crate) fn part(&self, node: u32, bit: u32) -> Branch
        requires node { node < length self.now.nodes }
        requires bit { bit ≤ bit_of self.now.nodes node }
        requires end { bit < 2 ^ 32 - 1 }
        ensures { IsPart self.now.nodes node bit result }
    {
        let branch = self.list[node as usize];
        if branch.bit == bit {
            branch
        } else {
            Branch {
                bit,
                low: node,
                high: node,
            }
        }
    }

    /// The node of the packets that have the bit and are in `high`, or haven't it and are in `low`.
    ///
    /// # Errors
    ///
    /// `TooLarge` where there are as many nodes as the limit allows and this one isn't among them.
    pub(crate) fn join(&mut self, bit: u32, low: u32, high: u32) -> Result<u32, SetError>
        requires bit { bit < 2 ^ 32 - 1 }
        requires low { low < length self.old.nodes }
        requires high { high < length self.old.nodes }
        requires low_after { bit < bit_of self.old.nodes low }
        requires high_after { bit < bit_of self.old.nodes high }
        ensures grows { Grows self.old self.new }
        ensures sound { AreNodes self.new.nodes }
        ensures joined { IfOk result (λ n. IsJoined self.new.nodes bit low high n) }
        ensures too_large { IfErr result (λ e. e ≡ TooLarge
            → self.new.limit ≤ length self.new.nodes) }
    {
        let count = self.list.len();
        if low == high {
            return Ok(low);
        }
        let wanted = Branch { bit, low, high };
        if let Some(found) = self.index.find(&self.list, wanted) {
            return Ok(found);
        }
        if count >= self.limit as usize {
            return Err(SetError::TooLarge);
        }
        self.list.push(wanted)?;
        self.index.add(self.alloc, &self.list)?;
        Ok(count as u32)
    }
}
