//! Topological sort by depth-first search with an explicit stack (the `path`). Meeting a node that
//! is on the path proves a cycle.
ghost use Rattle.std.specs.Prelude.{◌≡◌, ◌<◌, ◌++◌, List, [], ◌∷◌, ℕ, length, IfOk};
ghost use Rattle.chain_graph.specs.steps.Targets.{rows_of, TargetsInRange};
ghost use Rattle.chain_graph.specs.steps.Search.{IsSearch, StepResult, VisitResult, IsSortResult};

use std::alloc::{AllocError, Global};

#[derive(Drop)]
pub enum SortResult {
    /// A topological order: each node once, after all its targets.
    Order(Vec<usize>),
    /// The graph has a cycle.
    Cycle,
}

/// The state of a node in the search.
#[derive(Clone, Copy, PartialEq, Eq)]
enum Mark {
    New,
    /// It is on the path.
    Open,
    Done,
}

#[derive(Drop)]
struct Search {
    marks: Vec<Mark>,
    /// For each node, how many of its targets are not done. They are visited from the last to the
    /// first; a target is counted off when it is met again after it is done.
    left: Vec<usize>,
    /// The stack: each node has an edge to the next.
    path: Vec<usize>,
    /// The nodes that are done, each after all its targets.
    order: Vec<usize>,
}

/// The initial state: all nodes new.
fn start(alloc: Global, targets: &[Vec<usize>]) -> Result<Search, AllocError>
    ensures search { IfOk result (λ search. IsSearch (rows_of targets.now) search) }
    ensures path { IfOk result (λ search. search.path.items ≡ []) }
{
    let mut left = Vec::with_capacity(alloc, targets.len())?;
    for row in targets {
        left.push(row.len())?;
    }
    let marks = vec![in alloc; Mark::New; targets.len()]?;
    let path = Vec::with_capacity(alloc, targets.len())?;
    let order = Vec::with_capacity(alloc, targets.len())?;
    Ok(Search {
        marks,
        left,
        path,
        order,
    })
}

/// Advances the path's last node by one target, or finishes it. False if that shows a cycle.
fn step(targets: &[Vec<usize>], search: &mut Search, last: usize) -> Result<bool, AllocError>
    requires range { TargetsInRange (rows_of targets.now) }
    requires search { IsSearch (rows_of targets.now) search.old }
    requires below { last < length targets.now }
    requires last { (rest : List ℕ) × (search.old.path.items ≡ rest ++ last ∷ []) }
    ensures steps { IfOk result (λ fine.
        StepResult (rows_of targets.now) search.old search.new fine) }
{
    let left = search.left[last];
    if left == 0 {
        search.marks[last] = Mark::Done;
        search.order.push(last)?;
        search.path.pop();
        return Ok(true);
    }
    let target = targets[last][left - 1];
    match search.marks[target] {
        Mark::Done => {
            search.left[last] = left - 1;
            Ok(true)
        }
        Mark::New => {
            search.marks[target] = Mark::Open;
            search.path.push(target)?;
            Ok(true)
        }
        Mark::Open => Ok(false),
    }
}

/// Searches from a node. False if that shows a cycle.
fn visit(targets: &[Vec<usize>], search: &mut Search, root: usize) -> Result<bool, AllocError>
    requires range { TargetsInRange (rows_of targets.now) }
    requires search { IsSearch (rows_of targets.now) search.old }
    requires path { search.old.path.items ≡ [] }
    requires root { root < length targets.now }
    ensures visits { IfOk result (λ fine.
        VisitResult (rows_of targets.now) search.old search.new root fine) }
{
    if search.marks[root] != Mark::New {
        return Ok(true);
    }
    search.marks[root] = Mark::Open;
    search.path.push(root)?;
    while let Some(&last) = search.path.last() {
        if !step(targets, search, last)? {
            return Ok(false);
        }
    }
    Ok(true)
}

/// Sorts the nodes so that each comes after all its targets, unless there is a cycle.
pub fn topological_sort(alloc: Global, targets: &[Vec<usize>]) -> Result<SortResult, AllocError>
    requires { TargetsInRange (rows_of targets.now) }
    ensures { IfOk result (λ found. IsSortResult (rows_of targets.now) found) }
{
    let mut search = start(alloc, targets)?;
    for root in 0..targets.len() {
        if !visit(targets, &mut search, root)? {
            return Ok(SortResult::Cycle);
        }
    }
    Ok(SortResult::Order(search.order))
}
