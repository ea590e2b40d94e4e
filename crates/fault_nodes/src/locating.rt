//! Positions in lists of nodes.
ghost use Rattle.std.specs.Prelude.{◌≡◌, ℕ, ◌<◌, map, min};
ghost use Rattle.fault_nodes.specs.steps.Spots.{IsSpot};

use nft_tree::TreeNode;

/// Where in a list of nodes a position lies.
#[derive(Clone, Copy)]
pub struct Spot {
    /// The index of the node that holds it; the number of nodes if it is past them all.
    pub index: usize,
    /// How much of that node is before it.
    pub rest: usize,
}

/// The spot of a position in a list of nodes of these weights, which may saturate at `usize::MAX`.
pub fn locate<T: TreeNode, F: Fn(&T) -> usize>(nodes: &[T], position: usize, weight: F) -> Spot
    requires callable { F.IsAlwaysCallable weight }
    requires small { position < usize.MAX }
    ensures { (weight_of : T.Tree → ℕ)
        → ((x : _) (n : ℕ) → F.post weight x n → n ≡ min (weight_of (T.tree x.now)) usize.MAX)
        → IsSpot weight_of (map T.tree nodes.now) position result }
{
    let mut rest = position;
    for (index, node) in nodes.iter().enumerate() {
        let weight = weight(node);
        if rest < weight {
            return Spot { index, rest };
        }
        rest -= weight;
    }
    Spot {
        index: nodes.len(),
        rest,
    }
}
