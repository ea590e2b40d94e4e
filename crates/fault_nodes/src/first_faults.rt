//! The search for the node of a fault.
ghost use Rattle.std.specs.Prelude.{◌≡◌, ◌+◌, ◌<◌, ◌↔◌, suc, None, IfOk, IfSome, IsTrue};
ghost use Rattle.nft_tree.specs.TreeViews.{tables_of};
ghost use Rattle.rule_check.specs.WellFormed.{LeastFault, WellFormed};
ghost use Rattle.fault_nodes.specs.ReadParts.{read_up_to};
ghost use Rattle.fault_nodes.specs.Nodes.{CompletesFault, position};
ghost use Rattle.fault_nodes.specs.Parts.{declarations, ruleset_parts};

use crate::counting::{declarations, ruleset_parts};
use crate::node_at::node_at;
use crate::nodes::FaultyNode;
use crate::reading::read_up_to;
use box_file::Plant;
use nft_tree::Ruleset;
use rule_check::{CheckFault, least_fault, least_fault_unique};
use std::alloc::{AllocError, Global};

/// The fault with the lowest number that a ruleset has on a box, and the node with which it gets
/// it: read as far as the node, the ruleset has this fault as its least, and without the node it
/// hasn't. `None` if the ruleset is well formed.
///
/// All declarations are read first, so that each name is known, then all rules, statements and
/// elements, both in text order. `likely` is a guess of how many are read before the node: where it
/// is right less is judged, and the answer is the same by any guess.
///
/// # Errors
///
/// If an allocation fails, or the ruleset has 2^64 - 1 nodes or more, which no memory holds.
pub fn first_fault(
    alloc: Global,
    tree: &Ruleset,
    network: &Plant,
    likely: usize,
) -> Result<Option<FaultyNode>, AllocError>
    ensures fine { IfOk result (λ o. o ≡ None → WellFormed (tables_of tree.now) network.now) }
    ensures fault { IfOk result (λ o. IfSome o (λ found.
        LeastFault found.fault (tables_of tree.now) network.now)) }
    ensures node { IfOk result (λ o. IfSome o (λ found.
        CompletesFault found.fault found.node (tables_of tree.now) network.now)) }
    ensures position { IfOk result (λ o. IfSome o (λ found.
        found.position ≡ position (tables_of tree.now) found.node)) }
{
    let Some(fault) = least_fault(alloc, tree, network)? else {
        return Ok(None);
    };
    let total = declarations(tree).saturating_add(ruleset_parts(tree));
    if total == usize::MAX {
        return Err(AllocError);
    }
    let subject = Subject {
        tree,
        network,
        fault,
    };
    let position = subject.completed_at(alloc, total, likely)?;
    Ok(Some(FaultyNode {
        fault,
        node: node_at(tree, position),
        position,
    }))
}

/// A ruleset on a box, and its least fault.
#[derive(Clone, Copy)]
struct Subject<'t> {
    tree: &'t Ruleset,
    network: &'t Plant,
    fault: CheckFault,
}

impl<'t> Subject<'t> {
    /// How much of the ruleset is read before the node with which it gets the fault, of `total`
    /// declarations and parts in all.
    fn completed_at(&self, alloc: Global, total: usize, likely: usize) -> Result<usize, AllocError>
        requires has { LeastFault self.now.fault (tables_of self.now.tree.now) self.now.network.now }
        requires total { total ≡ declarations (tables_of self.now.tree.now)
            + ruleset_parts (tables_of self.now.tree.now) }
        ensures within { IfOk result (λ position. position < total) }
        ensures with_it { IfOk result (λ position. LeastFault self.now.fault
            (read_up_to (suc position) (tables_of self.now.tree.now)) self.now.network.now) }
        ensures without_it { IfOk result (λ position. LeastFault self.now.fault
            (read_up_to position (tables_of self.now.tree.now)) self.now.network.now → ⊥) }
    {
        let mut without = 0usize;
        let mut with = total;
        while with - without > 1 {
            let middle = between(without, with, likely);
            if self.has_fault(alloc, middle)? {
                with = middle;
            } else {
                without = middle;
            }
        }
        Ok(without)
    }

    /// Whether the ruleset that is read up to `count` has the fault as its least.
    fn has_fault(&self, alloc: Global, count: usize) -> Result<bool, AllocError>
        ensures { IfOk result (λ b. IsTrue b ↔ LeastFault self.now.fault
            (read_up_to count (tables_of self.now.tree.now)) self.now.network.now) }
    {
        least_fault_unique();
        let read = read_up_to(alloc, self.tree, count)?;
        Ok(match least_fault(alloc, &read, self.network)? {
            Some(found) => is_same(found, self.fault),
            None => false,
        })
    }
}

/// A number between two others: behind or at the likely one where that is, before it where it was
/// too late, at four times the distance each time, or else in the middle.
fn between(without: usize, with: usize, likely: usize) -> usize
    requires { without + 1 < with }
    ensures { (without < result) × (result < with) }
{
    let behind = likely.saturating_add(1);
    if without < behind && behind < with {
        return behind;
    }
    if without < likely && likely < with {
        return likely;
    }
    let distance = behind.saturating_sub(with).saturating_mul(3);
    let before = with.saturating_sub(distance);
    if without < before && before < with {
        return before;
    }
    without + (with - without) / 2
}

/// Whether two faults are the same one.
fn is_same(one: CheckFault, other: CheckFault) -> bool
    ensures { IsTrue result ↔ (one ≡ other) }
{
    one as u8 == other as u8
}
