//! Lemmas about faults of rulesets, each as the contract of a function that does nothing.
ghost use Rattle.std.specs.Prelude.{◌≡◌, ◌⊎◌, List};
ghost use Rattle.nft_tree.specs.Tree.{TableTree};
ghost use Rattle.box_file.specs.Box.{PlantTree};
ghost use Rattle.rule_check.specs.WellFormed.{LeastFault, WellFormed};
ghost use Rattle.rule_check.specs.declared.fault.CheckFault.{CheckFault};

use rule_names::duplicate_names_decidable;
use rule_paths::path_faults_decidable;

/// A ruleset has at most one least fault on a box, and none if it is well formed.
pub fn least_fault_unique()
    ensures one { (tables : List TableTree) (network : PlantTree) (fault other : CheckFault)
        → LeastFault fault tables network → LeastFault other tables network → fault ≡ other }
    ensures faultless { (tables : List TableTree) (network : PlantTree) (fault : CheckFault)
        → WellFormed tables network → LeastFault fault tables network → ⊥ }
{}

/// Every ruleset is well formed on a box, or has a least fault.
pub fn well_formed_or_least_fault()
    ensures { (tables : List TableTree) (network : PlantTree)
        → WellFormed tables network ⊎ ((fault : CheckFault) × LeastFault fault tables network) }
{
    duplicate_names_decidable();
    path_faults_decidable();
}
