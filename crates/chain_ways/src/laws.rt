//! Runs of packets and their ways agree, each law as the contract of a function that does nothing.
ghost use Rattle.std.specs.Prelude.{◌≡◌, List, Contains, Some, slice_get};
ghost use Rattle.nft_tree.specs.Tree.{Statement, TableTree};
ghost use Rattle.box_file.specs.Box.{PlantTree};
ghost use Rattle.rule_check.specs.WellFormed.{WellFormed};
ghost use Rattle.rule_meaning.specs.declared.stage.HookStage.{HookStage};
ghost use Rattle.rule_meaning.specs.Runs.{Program};
ghost use Rattle.rule_meaning.specs.Hooks.{BaseChain, base_chains_of};
ghost use Rattle.chain_ways.specs.BaseWays.{StageRunsAreWays};
ghost use Rattle.chain_ways.specs.Laws.{RunsAreWays, WaysAreRuns, BaseChainEventsFitWays, BaseChainRunsAreWays};

use rule_laws::{costs_rank_chains, hooks_terminate};
use rule_meaning::hook_result_unique;
use rule_paths::{costs_exist, path_faults_decidable};
use rule_sets::rule_runs_to_its_end;

/// Where each chain costs more than those that its rules jump or go to, a packet runs through a chain
/// along its way.
pub fn runs_are_ways()
    ensures runs { (p : Program Statement) → RunsAreWays p }
    ensures ways { (p : Program Statement) → WaysAreRuns p }
{
    rule_runs_to_its_end();
}

/// In a well-formed ruleset a packet runs through each base chain along its way.
pub fn base_chain_runs_are_ways()
    ensures { (tables : List TableTree) (network : PlantTree) → WellFormed tables network
        → (b : BaseChain) → Contains (base_chains_of tables) b
        → (table : TableTree) → slice_get tables b.number.table ≡ Some table
        → BaseChainRunsAreWays network tables b table }
{
    rule_runs_to_its_end();
    path_faults_decidable();
    costs_exist();
    costs_rank_chains();
    hooks_terminate();
}

/// In a well-formed ruleset the events of a packet in a base chain show which rules its way comes to,
/// and which it meets.
pub fn base_chain_events_fit_ways()
    ensures { (tables : List TableTree) (network : PlantTree) → WellFormed tables network
        → (b : BaseChain) → Contains (base_chains_of tables) b
        → (table : TableTree) → slice_get tables b.number.table ≡ Some table
        → BaseChainEventsFitWays network tables b table }
{
    base_chain_runs_are_ways();
}

/// In a well-formed ruleset each packet runs through the base chains of a stage along its ways through
/// them, one after another.
pub fn stage_runs_are_ways()
    ensures { (tables : List TableTree) (network : PlantTree) → WellFormed tables network
        → (stage : HookStage) → StageRunsAreWays network tables stage }
{
    base_chain_runs_are_ways();
    hooks_terminate();
    hook_result_unique();
}
