//! Operations on two sets.
ghost use Rattle.std.specs.Prelude.{◌≡◌, ◌<◌, ◌≤◌, ◌⊎◌, ℕ, List, length, IfSome, IfNone};
ghost use Rattle.packet_sets.specs.declared.branch.Branch.{Branch};
ghost use Rattle.packet_sets.specs.steps.Nodes.{AreNodes};
ghost use Rattle.packet_sets.specs.steps.Operations.{IsResult};

/// What is made of two sets.
#[derive(Clone, Copy, PartialEq, Eq)]
pub(crate) enum Operation {
    /// The packets of both.
    And,
    /// The packets of either.
    Or,
    /// The packets of the first that aren't in the second.
    Without,
}

/// The result where one of the nodes is an end or both are the same, `None` where it needs a walk.
pub(crate) fn settled(operation: Operation, left: u32, right: u32) -> Option<u32>
    ensures some { (nodes : List Branch) → AreNodes nodes → left < length nodes → right < length nodes
        → IfSome result (λ n. IsResult nodes operation left right n) }
    ensures none { IfNone result ((2 ≤ left) ⊎ (2 ≤ right)) }
{
    match operation {
        Operation::And => settled_and(left, right),
        Operation::Or => settled_or(left, right),
        Operation::Without => settled_without(left, right),
    }
}

fn settled_and(left: u32, right: u32) -> Option<u32>
    ensures some { (nodes : List Branch) → AreNodes nodes → left < length nodes → right < length nodes
        → IfSome result (λ n. IsResult nodes Operation.And left right n) }
    ensures none { IfNone result ((2 ≤ left) ⊎ (2 ≤ right)) }
{
    if left == 0 {
        return Some(0);
    }
    if right == 0 {
        return Some(0);
    }
    if left == 1 {
        return Some(right);
    }
    if right == 1 {
        return Some(left);
    }
    if left == right {
        return Some(left);
    }
    None
}

fn settled_or(left: u32, right: u32) -> Option<u32>
    ensures some { (nodes : List Branch) → AreNodes nodes → left < length nodes → right < length nodes
        → IfSome result (λ n. IsResult nodes Operation.Or left right n) }
    ensures none { IfNone result ((2 ≤ left) ⊎ (2 ≤ right)) }
{
    if left == 1 {
        return Some(1);
    }
    if right == 1 {
        return Some(1);
    }
    if left == 0 {
        return Some(right);
    }
    if right == 0 {
        return Some(left);
    }
    if left == right {
        return Some(left);
    }
    None
}

fn settled_without(left: u32, right: u32) -> Option<u32>
    ensures some { (nodes : List Branch) → AreNodes nodes → left < length nodes → right < length nodes
        → IfSome result (λ n. IsResult nodes Operation.Without left right n) }
    ensures none { IfNone result ((2 ≤ left) ⊎ (2 ≤ right)) }
{
    if left == 0 {
        return Some(0);
    }
    if right == 1 {
        return Some(0);
    }
    if right == 0 {
        return Some(left);
    }
    if left == right {
        return Some(0);
    }
    None
}
