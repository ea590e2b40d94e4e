//! The nodes of a tree, and lists of them.
ghost use Rattle.std.specs.Prelude.{◌≡◌, List, Option, map, option_map, IfOk};
ghost use Rattle.nft_tree.specs.Tree.{Text};

use std::alloc::AllocError as Memory;

/// A node of the tree: it has a model, and can be copied.
pub trait TreeNode: Drop {
    ghost Tree: { Type 0 };

    /// The model: what contracts compare.
    ghost tree: { Self → Tree };

    /// A copy of the node.
    ///
    /// # Errors
    ///
    /// `Memory` if an allocation was refused.
    fn try_clone(&self) -> Result<Self, Memory>
        ensures { IfOk result (λ copy. tree copy ≡ tree self.now) };
}

impl TreeNode for Vec<u8> {
    ghost Tree = { Text };

    ghost tree = { λ text. text.items };

    fn try_clone(&self) -> Result<Vec<u8>, Memory> {
        Ok(self.clone()?)
    }
}

impl<T: TreeNode> TreeNode for Vec<T> {
    ghost Tree = { List T.Tree };

    ghost tree = { λ nodes. map T.tree nodes.items };

    fn try_clone(&self) -> Result<Vec<T>, Memory> {
        let mut copies = Vec::with_capacity(*self.allocator(), self.len())?;
        for node in self {
            copies.push(node.try_clone()?)?;
        }
        Ok(copies)
    }
}

impl<T: TreeNode> TreeNode for Option<T> {
    ghost Tree = { Option T.Tree };

    ghost tree = { option_map T.tree };

    fn try_clone(&self) -> Result<Option<T>, Memory> {
        match self {
            Some(node) => Ok(Some(node.try_clone()?)),
            None => Ok(None),
        }
    }
}
