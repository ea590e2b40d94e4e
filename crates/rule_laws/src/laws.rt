//! Lemmas about well-formed rulesets, each as the contract of a function that does nothing.
ghost use Rattle.std.specs.Prelude.{◌≡◌, ℕ, Bool, List, Contains, Some, slice_get, slice_index};
ghost use Rattle.nft_tree.specs.Tree.{TableTree};
ghost use Rattle.box_file.specs.Box.{PlantTree};
ghost use Rattle.rule_paths.specs.Paths.{Caller, AreCosts};
ghost use Rattle.rule_paths.specs.Findings.{AreChainDepths};
ghost use Rattle.rule_check.specs.WellFormed.{WellFormed};
ghost use Rattle.rule_meaning.specs.declared.stage.HookStage.{HookStage};
ghost use Rattle.rule_meaning.specs.Runs.{table_program};
ghost use Rattle.rule_meaning.specs.Hooks.{BaseChain, base_chains_of, RunsBaseChain, Chains, Stage};
ghost use Rattle.rule_laws.specs.Terminates.{Terminates};
ghost use Rattle.rule_laws.specs.Ranking.{IsRanking, weight_by, chain_cost_by};

use rule_paths::costs_exist;

/// In a well-formed ruleset each base chain and each stage of a hook has a result, for all facts and
/// events before.
pub fn hooks_terminate()
    ensures base { (tables : List TableTree) (network : PlantTree) → WellFormed tables network
        → (b : BaseChain) → Contains (base_chains_of tables) b
        → Terminates (RunsBaseChain network tables b) }
    ensures chains { (tables : List TableTree) (network : PlantTree) → WellFormed tables network
        → (test : BaseChain → Bool) → Terminates (Chains network tables test) }
    ensures stages { (tables : List TableTree) (network : PlantTree) → WellFormed tables network
        → (stage : HookStage) → Terminates (Stage stage network tables) }
{
    costs_exist();
}

/// In a well-formed ruleset the costs and depths of chains are a ranking of each table's program: a
/// statement weighs more than its targets cost, and a jump's target has a smaller depth.
pub fn costs_rank_chains()
    ensures { (tables : List TableTree) (network : PlantTree) → WellFormed tables network
        → (number : ℕ) (t : TableTree) → slice_get tables number ≡ Some t → (cost : Caller → ℕ)
        → AreCosts t cost → (depths : List ℕ) → AreChainDepths t depths
        → IsRanking (table_program network number t) (weight_by cost) (chain_cost_by t cost)
        (λ c. slice_index depths c) }
{}
