//! Sets of packets and operations on them.
ghost use Rattle.std.specs.Prelude.{◌≡◌, ◌<◌, ◌≤◌, ◌-◌, ◌^◌, ◌⊎◌, ◌&&◌, ◌||◌, not, ℕ, Bool, true, false, length, max, IfOk, IfSome, IfNone, IfErr};
ghost use Rattle.packet_sets.specs.Sets.{branch_at, holds, IsSet, Keeps, Means};
ghost use Rattle.packet_sets.specs.steps.Nodes.{bit_of, AreNodes, Grows, IsJoined};
ghost use Rattle.packet_sets.specs.steps.Operations.{IsResult, IsStep};
ghost use Rattle.packet_sets.specs.declared.fault.SetError.TheVariants.{Memory, TooLarge};

use crate::branch::Branch;
use crate::fault::SetError;
use crate::memo::{Entry, Memo};
use crate::nodes::Nodes;
use crate::operation::{Operation, settled};
use crate::packet_set::PacketSet;
use std::alloc::Global;
use std::marker::Model;

/// Sets of packets, as diagrams that share their nodes.
#[derive(Drop)]
pub struct Diagrams {
    alloc: Global,
    nodes: Nodes,
    memo: Memo,
}

impl Model for Diagrams {
    ghost use Rattle.packet_sets.specs.Sets.{DiagramsView};
    ghost use Rattle.packet_sets.specs.steps.Nodes.{AreNodes};
    ghost use Rattle.packet_sets.specs.steps.Operations.{AreRight};

    ghost Value = { DiagramsView };

    ghost view = { λ d. d.nodes };

    ghost invariant = { λ d. AreNodes d.nodes.nodes × AreRight d.nodes.nodes d.memo.entries.items };
}

/// The least bit of two nodes, and where packets go on from each by it.
#[derive(Clone, Copy)]
pub(crate) struct Step {
    pub(crate) bit: u32,
    pub(crate) left: Branch,
    pub(crate) right: Branch,
}

impl Diagrams {
    /// No sets but none and all. At most `limit` nodes will be made, and two in any case.
    ///
    /// # Errors
    ///
    /// `Memory` where an allocation failed.
    pub fn new(alloc: Global, limit: u32) -> Result<Diagrams, SetError>
        ensures limit { IfOk result (λ diagrams. diagrams.limit ≡ limit) }
        ensures none { IfOk result (λ diagrams. Means diagrams PacketSet.NONE (λ packet. false)) }
        ensures all { IfOk result (λ diagrams. Means diagrams PacketSet.ALL (λ packet. true)) }
        ensures memory { IfErr result (λ e. e ≡ Memory) }
    {
        let nodes = Nodes::new(alloc, limit)?;
        let memo = Memo::new(alloc)?;
        Ok(Diagrams { alloc, nodes, memo })
    }

    /// How many nodes there are: the memory that the sets take, about 40 bytes each.
    pub fn count(&self) -> usize
        ensures count { result ≡ length self.now.nodes }
        ensures few { result ≤ max 2 self.now.limit }
    {
        self.nodes.count()
    }

    /// No packet and all packets. It does nothing.
    pub fn ends(&self)
        ensures none { Means self.now PacketSet.NONE (λ packet. false) }
        ensures all { Means self.now PacketSet.ALL (λ packet. true) }
    {
        self.sound();
    }

    /// The packets that are in both sets.
    ///
    /// # Errors
    ///
    /// `TooLarge` where more nodes are needed than the limit allows, `Memory` where an allocation
    /// failed.
    pub fn and(&mut self, left: PacketSet, right: PacketSet) -> Result<PacketSet, SetError>
        requires left { IsSet self.old left }
        requires right { IsSet self.old right }
        ensures keeps { Keeps self.old self.new }
        ensures value { IfOk result (λ set. Means self.new set
            (λ packet. holds self.old left packet && holds self.old right packet)) }
        ensures too_large { IfErr result (λ e. e ≡ TooLarge
            → self.new.limit ≤ length self.new.nodes) }
    {
        let node = self.apply(Operation::And, left.node, right.node)?;
        Ok(PacketSet { node })
    }

    /// The packets that are in either set.
    ///
    /// # Errors
    ///
    /// `TooLarge` where more nodes are needed than the limit allows, `Memory` where an allocation
    /// failed.
    pub fn or(&mut self, left: PacketSet, right: PacketSet) -> Result<PacketSet, SetError>
        requires left { IsSet self.old left }
        requires right { IsSet self.old right }
        ensures keeps { Keeps self.old self.new }
        ensures value { IfOk result (λ set. Means self.new set
            (λ packet. holds self.old left packet || holds self.old right packet)) }
        ensures too_large { IfErr result (λ e. e ≡ TooLarge
            → self.new.limit ≤ length self.new.nodes) }
    {
        let node = self.apply(Operation::Or, left.node, right.node)?;
        Ok(PacketSet { node })
    }

    /// The packets of the first set that aren't in the second.
    ///
    /// # Errors
    ///
    /// `TooLarge` where more nodes are needed than the limit allows, `Memory` where an allocation
    /// failed.
    pub fn without(&mut self, left: PacketSet, right: PacketSet) -> Result<PacketSet, SetError>
        requires left { IsSet self.old left }
        requires right { IsSet self.old right }
        ensures keeps { Keeps self.old self.new }
        ensures value { IfOk result (λ set. Means self.new set
            (λ packet. holds self.old left packet && not (holds self.old right packet))) }
        ensures too_large { IfErr result (λ e. e ≡ TooLarge
            → self.new.limit ≤ length self.new.nodes) }
    {
        let node = self.apply(Operation::Without, left.node, right.node)?;
        Ok(PacketSet { node })
    }

    /// The packets that aren't in the set.
    ///
    /// # Errors
    ///
    /// `TooLarge` where more nodes are needed than the limit allows, `Memory` where an allocation
    /// failed.
    pub fn not(&mut self, set: PacketSet) -> Result<PacketSet, SetError>
        requires { IsSet self.old set }
        ensures keeps { Keeps self.old self.new }
        ensures value { IfOk result (λ other. Means self.new other
            (λ packet. not (holds self.old set packet))) }
        ensures too_large { IfErr result (λ e. e ≡ TooLarge
            → self.new.limit ≤ length self.new.nodes) }
    {
        self.ends();
        self.without(PacketSet::ALL, set)
    }

    /// The nodes are in order. It does nothing.
    pub(crate) fn sound(&self)
        ensures { AreNodes self.now.nodes }
    {
        let _ = &self.nodes;
    }

    /// A node.
    pub(crate) fn branch(&self, node: u32) -> Branch
        requires { node < length self.now.nodes }
        ensures { result ≡ branch_at self.now.nodes node }
    {
        self.nodes.branch(node)
    }

    /// The node of the packets that have the bit and are in `high`, or haven't it and are in `low`.
    pub(crate) fn join(&mut self, bit: u32, low: u32, high: u32) -> Result<u32, SetError>
        requires bit { bit < 2 ^ 32 - 1 }
        requires low { low < length self.old.nodes }
        requires high { high < length self.old.nodes }
        requires low_after { bit < bit_of self.old.nodes low }
        requires high_after { bit < bit_of self.old.nodes high }
        ensures grows { Grows self.old self.new }
        ensures joined { IfOk result (λ n. IsJoined self.new.nodes bit low high n) }
        ensures too_large { IfErr result (λ e. e ≡ TooLarge
            → self.new.limit ≤ length self.new.nodes) }
    {
        self.nodes.join(bit, low, high)
    }

    /// The result where it needs no walk or is remembered.
    fn known(&self, operation: Operation, left: u32, right: u32) -> Option<u32>
        requires left { left < length self.now.nodes }
        requires right { right < length self.now.nodes }
        ensures some { IfSome result (λ n. IsResult self.now.nodes operation left right n) }
        ensures none { IfNone result ((2 ≤ left) ⊎ (2 ≤ right)) }
    {
        self.sound();
        match settled(operation, left, right) {
            Some(node) => Some(node),
            None => self.memo.recall(operation, left, right),
        }
    }

    /// The least bit of two nodes, not both ends, and where packets go on from them by it.
    fn step(&self, left: u32, right: u32) -> Step
        requires left { left < length self.now.nodes }
        requires right { right < length self.now.nodes }
        requires inner { (2 ≤ left) ⊎ (2 ≤ right) }
        ensures { IsStep self.now.nodes left right result }
    {
        let bit = self.nodes.bit(left).min(self.nodes.bit(right));
        Step {
            bit,
            left: self.nodes.part(left, bit),
            right: self.nodes.part(right, bit),
        }
    }

    /// Remembers a result.
    fn remember(&mut self, entry: Entry) -> Result<(), SetError>
        requires left { entry.left < length self.old.nodes }
        requires right { entry.right < length self.old.nodes }
        requires result { IsResult self.old.nodes entry.operation entry.left entry.right entry.result }
        ensures same { self.new ≡ self.old }
        ensures memory { IfErr result (λ e. e ≡ Memory) }
    {
        self.memo.grow(self.alloc, self.nodes.count())?;
        self.memo.keep(entry);
        Ok(())
    }

    /// The node of the operation's result.
    fn apply(&mut self, operation: Operation, left: u32, right: u32) -> Result<u32, SetError>
        requires left { left < length self.old.nodes }
        requires right { right < length self.old.nodes }
        ensures grows { Grows self.old self.new }
        ensures value { IfOk result (λ n. IsResult self.new.nodes operation left right n) }
        ensures too_large { IfErr result (λ e. e ≡ TooLarge
            → self.new.limit ≤ length self.new.nodes) }
    {
        if let Some(node) = self.known(operation, left, right) {
            return Ok(node);
        }
        let step = self.step(left, right);
        let low = self.apply(operation, step.left.low, step.right.low)?;
        let high = self.apply(operation, step.left.high, step.right.high)?;
        let node = self.join(step.bit, low, high)?;
        self.remember(Entry {
            operation,
            left,
            right,
            result: node,
        })?;
        Ok(node)
    }
}
