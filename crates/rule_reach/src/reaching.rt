//! What packets do in a ruleset, told by their sets.
ghost use Rattle.std.specs.Prelude.{◌≡◌, ◌++◌, ◌∷◌, [], List, map, All, IfOk, OnOk};
ghost use Rattle.nft_tree.specs.Tree.{TableTree};
ghost use Rattle.box_file.specs.Box.{PlantTree};
ghost use Rattle.fact_sets.specs.Cases.{AreCases};
ghost use Rattle.rule_meaning.specs.Hooks.{BaseChain};
ghost use Rattle.chain_sets.specs.RuleSets.{sets_of};
ghost use Rattle.rule_reach.specs.Reach.{IsAnswer, IsPolicyReach, rules_of, run_chains};
ghost use Rattle.rule_reach.specs.Sets.{AreBaseSets, AreReachSets};
ghost use Rattle.rule_reach.specs.steps.Rules.{IsReach};
ghost use Rattle.rule_reach.specs.steps.Telling.{AreRuleSets};

use crate::answers::{PolicyReach, Reach};
use crate::rules::all_rules;
use crate::sets::{BaseSets, ReachSets};
use crate::telling::{all_told, some_end};
use packet_sets::Diagrams;
use rule_check::Checked;
use std::alloc::{AllocError, Global};

/// Adds what packets do that come to a base chain.
fn add_base(
    alloc: Global,
    diagrams: &Diagrams,
    sets: &BaseSets,
    reach: &mut Reach,
) -> Result<(), AllocError>
    requires rules { AreRuleSets diagrams.now (sets_of sets.now.rules) }
    requires ends { AreCases diagrams.now sets.now.ends.items }
    ensures { OnOk result ((network : PlantTree) (tables : List TableTree) (bases : List BaseChain)
        (b : BaseChain) → AreBaseSets network tables diagrams.now b sets.now
        → IsReach network tables bases reach.old → IsReach network tables (bases ++ b ∷ []) reach.new) }
{
    let chain = sets.chain;
    reach.rules = all_told(alloc, diagrams, chain.table, &sets.rules, &reach.rules)?;
    let applies = some_end(diagrams, &sets.ends);
    reach.policies.push(PolicyReach { chain, applies })?;
    Ok(())
}

impl ReachSets {
    /// What packets do in the ruleset that the sets are of: for each rule whether some packet meets
    /// its last statement, and whether any comes to it; and for each base chain to which packets come
    /// whether its policy applies to any.
    ///
    /// # Errors
    ///
    /// `AllocError` where an allocation failed.
    pub fn reach(&self, alloc: Global, checked: &Checked) -> Result<Reach, AllocError>
        requires { AreReachSets checked.now.network checked.now.rules self.now }
        ensures rules { IfOk result (λ reach.
            map (λ r. r.rule) reach.rules.items ≡ rules_of checked.now.rules) }
        ensures answers { IfOk result (λ reach. All (λ r. IsAnswer checked.now.network checked.now.rules
            (run_chains checked.now.rules) r.rule r.answer) reach.rules.items) }
        ensures policies { IfOk result (λ reach. map (λ p. p.chain) reach.policies.items
            ≡ map (λ b. b.number) (run_chains checked.now.rules)) }
        ensures applies { IfOk result (λ reach. All (IsPolicyReach checked.now.network
            checked.now.rules (run_chains checked.now.rules)) reach.policies.items) }
    {
        let tables = checked.names(alloc)?;
        let mut reach = Reach {
            rules: all_rules(alloc, &tables)?,
            policies: Vec::new(alloc),
        };
        for base in &self.bases {
            add_base(alloc, &self.diagrams, base, &mut reach)?;
        }
        Ok(reach)
    }
}
