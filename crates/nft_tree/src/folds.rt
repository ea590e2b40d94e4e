//! `any` and `sum` over lists, with contracts about the items' trees.
ghost use Rattle.std.specs.Prelude.{◌≡◌, ℕ, Bool, map, min, sum_by};
ghost use Rattle.std.specs.List.{list_any};

use crate::tree_nodes::TreeNode;

/// Whether some item passes the test.
pub fn any<T: TreeNode, F: Fn(&T) -> bool>(items: &[T], test: F) -> bool
    requires { F.IsAlwaysCallable test }
    ensures { (passes : T.Tree → Bool)
        → ((x : _) (b : Bool) → F.post test x b → b ≡ passes (T.tree x.now))
        → result ≡ list_any passes (map T.tree items.now) }
{
    items.iter().any(test)
}

/// The sum of the items' weights, saturating at `usize::MAX`.
pub fn sum<T: TreeNode, F: Fn(&T) -> usize>(items: &[T], weight: F) -> usize
    requires { F.IsAlwaysCallable weight }
    ensures { (weight_of : T.Tree → ℕ)
        → ((x : _) (n : ℕ) → F.post weight x n → n ≡ min (weight_of (T.tree x.now)) usize.MAX)
        → result ≡ min (sum_by weight_of (map T.tree items.now)) usize.MAX }
{
    let mut sum = 0usize;
    for item in items {
        sum = sum.saturating_add(weight(item));
    }
    sum
}
