//! Lemmas about jumps and gotos, each as the contract of a function that does nothing.
ghost use Rattle.std.specs.Prelude.{◌⊎◌, ℕ, List, Contains};
ghost use Rattle.nft_tree.specs.Tree.{TableTree};
ghost use Rattle.rule_paths.specs.Paths.{Caller, AreCosts, Cycles, TooDeep, TooCostly, MisplacedNat};

/// Whether jumps and gotos have a cycle is decidable; and where they have none, whether a path is
/// too deep, the cost too high, or a NAT statement misplaced.
pub fn path_faults_decidable()
    ensures cycles { (tables : List TableTree) → Cycles tables ⊎ (Cycles tables → ⊥) }
    ensures deep { (tables : List TableTree) → (Cycles tables → ⊥)
        → TooDeep tables ⊎ (TooDeep tables → ⊥) }
    ensures costly { (tables : List TableTree) → (Cycles tables → ⊥)
        → TooCostly tables ⊎ (TooCostly tables → ⊥) }
    ensures nat { (tables : List TableTree) → (Cycles tables → ⊥)
        → MisplacedNat tables ⊎ (MisplacedNat tables → ⊥) }
{}

/// Where jumps and gotos have no cycle, the cost equations of each table have a solution.
pub fn costs_exist()
    ensures { (tables : List TableTree) (t : TableTree) → (Cycles tables → ⊥) → Contains tables t
        → (cost : Caller → ℕ) × AreCosts t cost }
{}
