//! The nodes of a ruleset that have faults, found by halves of its parts.
use crate::fault_list::MOST;
use box_file::Plant;
use fault_nodes::{
    FaultyNode, declarations, first_fault, node_of_part, ruleset_between, ruleset_parts,
};
use nft_tree::Ruleset;
use rule_check::least_fault;
use std::alloc::{AllocError, Global};

/// A ruleset on a box, and those of its nodes that were found.
#[derive(Drop)]
struct NodeSearch<'a> {
    alloc: Global,
    tree: &'a Ruleset,
    network: &'a Plant,
    found: Vec<FaultyNode>,
}

/// Nodes of a ruleset that have faults: a declaration that is refused without rules and elements, or
/// else of each range of parts that is refused, and neither half of it, the part that completes the
/// fault. None only where the ruleset is accepted.
///
/// # Errors
/// `AllocError` for want of memory.
pub fn faulty_nodes<'a>(
    alloc: Global,
    tree: &'a Ruleset,
    network: &'a Plant,
) -> Result<Vec<FaultyNode>, AllocError> {
    let mut search = NodeSearch {
        alloc,
        tree,
        network,
        found: Vec::new(alloc),
    };
    if least_fault(alloc, tree, network)?.is_none() {
        return Ok(search.found);
    }
    let declared = ruleset_between(alloc, tree, 0, 0)?;
    match first_fault(alloc, &declared, network, 0)? {
        Some(found) => search.found.push(found)?,
        None => {
            let _ = search.search(0, ruleset_parts(tree))?;
        }
    }
    Ok(search.found)
}

impl<'a> NodeSearch<'a> {
    /// Searches a range of parts (rules, statements and elements), by their numbers in text order,
    /// `end` exclusive, and returns whether they are refused together.
    fn search(&mut self, start: usize, end: usize) -> Result<bool, AllocError> {
        if self.found.len() >= MOST {
            return Ok(true);
        }
        let middle = start.saturating_add(end.saturating_sub(start) / 2);
        if start < middle && middle < end {
            let first = self.is_refused(start, middle)? && self.search(start, middle)?;
            // Where the first half is accepted, the fault is likely one of the second.
            let is_likely = !first || self.is_refused(middle, end)?;
            let second = is_likely && self.search(middle, end)?;
            if first || second {
                return Ok(true);
            }
        }
        let is_refused = self.is_refused(start, end)?;
        if is_refused {
            self.add_completing(start, end)?;
        }
        Ok(is_refused)
    }

    /// Whether the parts of a range are refused together.
    fn is_refused(&self, start: usize, end: usize) -> Result<bool, AllocError> {
        let parts = ruleset_between(self.alloc, self.tree, start, end)?;
        Ok(least_fault(self.alloc, &parts, self.network)?.is_some())
    }

    /// Adds the part with which those of a range get their fault. Where it is a rule or a statement
    /// around them, it is found by itself.
    fn add_completing(&mut self, start: usize, end: usize) -> Result<(), AllocError> {
        let parts = ruleset_between(self.alloc, self.tree, start, end)?;
        let declared = declarations(&parts);
        let total = declared.saturating_add(ruleset_parts(&parts));
        let likely = total.saturating_sub(1);
        let Some(found) = first_fault(self.alloc, &parts, self.network, likely)? else {
            return Ok(());
        };
        let part = end.saturating_sub(total.saturating_sub(found.position));
        if start <= part
            && let Some(node) = node_of_part(self.tree, part)
        {
            self.found.push(FaultyNode {
                fault: found.fault,
                node,
                position: declared.saturating_add(part),
            })?;
        }
        Ok(())
    }
}
