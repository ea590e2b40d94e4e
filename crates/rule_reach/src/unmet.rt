//! Why rules of a ruleset aren't met.
ghost use Rattle.std.specs.Prelude.{◌≡◌, ◌≢◌, ◌≤◌, length, map, filter, All, IfOk, IfErr};
ghost use Rattle.std.specs.List.{AllZip};
ghost use Rattle.lowering.specs.Lowered.{HasDeclared};
ghost use Rattle.rule_check.specs.WellFormed.{WellFormed};
ghost use Rattle.rule_reach.specs.declared.answers.ReachError.TheVariants.{TooDeep, TooLarge};
ghost use Rattle.rule_reach.specs.Reach.{run_chains};
ghost use Rattle.packet_sets.specs.Sets.{Keeps};
ghost use Rattle.rule_reach.specs.Sets.{AreReachSets, AreSetsOf};
ghost use Rattle.rule_reach.specs.Takers.{IsUnmet, is_unmet};

use crate::answers::{Reach, ReachError, Unmet};
use crate::sets::{BaseSets, ReachSets};
use crate::takers::Told;
use box_file::Plant;
use lowering::declared;
use packet_sets::Diagrams;
use rule_check::Checked;
use rule_code::Lookups;
use rule_names::TableNames;
use rule_sets::box_interfaces;
use std::alloc::{AllocError, Global};

/// The declared sets and maps of all tables.
fn all_declared(
    alloc: Global,
    network: &Plant,
    tables: &[TableNames],
) -> Result<Vec<Lookups>, AllocError>
    requires { WellFormed tables.now network.now }
    ensures { IfOk result (λ lookups. AllZip (HasDeclared network.now) tables.now lookups.items) }
{
    let mut all = Vec::new(alloc);
    for names in tables {
        all.push(declared(alloc, network, names)?)?;
    }
    Ok(all)
}

/// Of each rule that no packet meets why, by the sets of base chains.
fn unmet_by(
    alloc: Global,
    diagrams: &mut Diagrams,
    bases: &[BaseSets],
    checked: &Checked,
    reach: &Reach,
) -> Result<Vec<Unmet>, ReachError>
    requires fine { WellFormed checked.now.rules checked.now.network }
    requires sets { AreSetsOf checked.now.network checked.now.rules diagrams.old
        (run_chains checked.now.rules) bases.now }
    ensures keeps { Keeps diagrams.old diagrams.new }
    ensures rules { IfOk result (λ unmet. map (λ u. u.rule) unmet.items
        ≡ map (λ r. r.rule) (filter is_unmet reach.now.rules.items)) }
    ensures why { IfOk result (λ unmet. All (IsUnmet checked.now.network checked.now.rules
        (run_chains checked.now.rules)) unmet.items) }
    ensures too_large { IfErr result (λ e. e ≡ TooLarge
        → diagrams.new.limit ≤ length diagrams.new.nodes) }
    ensures never_deep { IfErr result (λ e. e ≢ TooDeep) }
{
    let network = checked.plant();
    let tables = checked.names(alloc)?;
    let interfaces = box_interfaces(alloc, network)?;
    let mut declared = all_declared(alloc, network, &tables)?;
    let lookups = declared.as_mut_slice();
    let told = Told {
        network,
        tables: &tables,
        interfaces: &interfaces,
        bases,
    };
    let mut all = Vec::new(alloc);
    for rule in &reach.rules {
        if rule.is_unmet() {
            all.push(told.unmet(alloc, diagrams, lookups, rule.rule)?)?;
        }
    }
    Ok(all)
}

impl ReachSets {
    /// Of each rule that `reach` says no packet meets, in its order: which rules take the packets that
    /// would meet it, and whether there are any. Nodes are added to the diagrams.
    ///
    /// # Errors
    ///
    /// `TooLarge` where more nodes are needed than the limit allows, `Memory` where an allocation
    /// failed.
    pub fn unmet(
        &mut self,
        alloc: Global,
        checked: &Checked,
        reach: &Reach,
    ) -> Result<Vec<Unmet>, ReachError>
        requires { AreReachSets checked.now.network checked.now.rules self.old }
        ensures sets { AreReachSets checked.now.network checked.now.rules self.new }
        ensures limit { self.new.diagrams.limit ≡ self.old.diagrams.limit }
        ensures rules { IfOk result (λ unmet. map (λ u. u.rule) unmet.items
            ≡ map (λ r. r.rule) (filter is_unmet reach.now.rules.items)) }
        ensures why { IfOk result (λ unmet. All (IsUnmet checked.now.network checked.now.rules
            (run_chains checked.now.rules)) unmet.items) }
        ensures too_large { IfErr result (λ e. e ≡ TooLarge
            → self.new.diagrams.limit ≤ length self.new.diagrams.nodes) }
        ensures never_deep { IfErr result (λ e. e ≢ TooDeep) }
    {
        checked.known_bounds();
        unmet_by(alloc, &mut self.diagrams, &self.bases, checked, reach)
    }
}
