//! Nodes that are read part by part, and lists of them.
ghost use Rattle.std.specs.Prelude.{◌≡◌, ℕ, map, min, slice_range, IfOk};
ghost use Rattle.fault_nodes.specs.ReadParts.{all_with_parts_between, parts_between};

use nft_tree::TreeNode;
use std::alloc::{AllocError, Global};

/// A node that is read part by part.
pub trait PartNode: Drop {
    ghost Tree: { Type 0 };

    /// The model, as that of `TreeNode`.
    ghost tree: { Self → Tree };

    /// The number of its parts.
    ghost parts_of: { Tree → ℕ };

    /// The node with only the parts between two numbers.
    ghost cut: { ℕ → ℕ → Tree → Tree };

    /// The number of its parts, saturated at `usize::MAX`.
    fn parts(&self) -> usize
        ensures { result ≡ min (parts_of (tree self.now)) usize.MAX };

    /// A copy of the node with only its parts `from..to`.
    ///
    /// # Errors
    ///
    /// If an allocation fails.
    fn between(&self, alloc: Global, from: usize, to: usize) -> Result<Self, AllocError>
        ensures { IfOk result (λ node. tree node ≡ cut from to (tree self.now)) };
}

/// Copies of the nodes `from..to`, as far as there are any.
///
/// # Errors
///
/// If an allocation fails.
pub fn nodes_between<T: TreeNode>(
    alloc: Global,
    nodes: &[T],
    from: usize,
    to: usize,
) -> Result<Vec<T>, AllocError>
    ensures { IfOk result (λ copies. map T.tree copies.items
        ≡ slice_range (map T.tree nodes.now) from to) }
{
    let end = to.min(nodes.len());
    let mut copies = Vec::new(alloc);
    for node in &nodes[from.min(end)..end] {
        copies.push(node.try_clone()?)?;
    }
    Ok(copies)
}

/// Copies of the nodes with only the parts `from..to` of them all. A node that has none of them
/// is left out.
///
/// # Errors
///
/// If an allocation fails.
pub fn parts_between<T: PartNode>(
    alloc: Global,
    nodes: &[T],
    mut from: usize,
    mut to: usize,
) -> Result<Vec<T>, AllocError>
    ensures { IfOk result (λ copies. map T.tree copies.items
        ≡ parts_between T.parts_of T.cut from to (map T.tree nodes.now)) }
{
    let mut copies = Vec::new(alloc);
    for node in nodes {
        let parts = node.parts();
        if from < to.min(parts) {
            copies.push(node.between(alloc, from, to)?)?;
        }
        from = from.saturating_sub(parts);
        to = to.saturating_sub(parts);
    }
    Ok(copies)
}

/// Copies of all nodes with only the parts `from..to` of them all.
///
/// # Errors
///
/// If an allocation fails.
pub fn all_with_parts_between<T: PartNode>(
    alloc: Global,
    nodes: &[T],
    mut from: usize,
    mut to: usize,
) -> Result<Vec<T>, AllocError>
    ensures { IfOk result (λ copies. map T.tree copies.items
        ≡ all_with_parts_between T.parts_of T.cut from to (map T.tree nodes.now)) }
{
    let mut copies = Vec::new(alloc);
    for node in nodes {
        let parts = node.parts();
        copies.push(node.between(alloc, from, to)?)?;
        from = from.saturating_sub(parts);
        to = to.saturating_sub(parts);
    }
    Ok(copies)
}
