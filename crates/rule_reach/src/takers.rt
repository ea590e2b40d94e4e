//! Which rules take the packets of a rule that none meets.
ghost use Rattle.std.specs.Prelude.{◌≡◌, ◌<◌, ◌≤◌, ◌+◌, ◌^◌, ◌∷◌, [], ℕ, List, Option, false, length, map, IfOk, IfErr, OnOk};
ghost use Rattle.std.specs.List.{AllZip, list_any};
ghost use Rattle.std.specs.Option.{option_map};
ghost use Rattle.nft_tree.specs.Tree.{TableTree};
ghost use Rattle.nft_tree.specs.TreeViews.{statement};
ghost use Rattle.box_file.specs.Box.{PlantTree};
ghost use Rattle.packet_sets.specs.Sets.{IsSet, Keeps, Means};
ghost use Rattle.packet_sets.specs.declared.fault.SetError.TheVariants.{TooLarge};
ghost use Rattle.rule_types.specs.Types.{statement_mismatches};
ghost use Rattle.rule_values.specs.Faults.{statement_out_of_range};
ghost use Rattle.rule_check.specs.WellFormed.{WellFormed};
ghost use Rattle.rule_meaning.specs.Hooks.{BaseChain};
ghost use Rattle.rule_meaning.specs.Runs.{table_program};
ghost use Rattle.lowering.specs.Lowered.{Extends, HasDeclared};
ghost use Rattle.fact_sets.specs.Boxes.{NOTHING};
ghost use Rattle.fact_sets.specs.Facts.{facts_of};
ghost use Rattle.rule_sets.specs.Ends.{rule_end};
ghost use Rattle.rule_sets.specs.Interfaces.{interfaces_of};
ghost use Rattle.chain_sets.specs.RuleSets.{sets_of};
ghost use Rattle.rule_reach.specs.Reach.{run_chains};
ghost use Rattle.chain_ways.specs.BaseWays.{program_at};
ghost use Rattle.rule_reach.specs.Sets.{AreBaseSets, AreSetsOf};
ghost use Rattle.rule_reach.specs.Takers.{AreTakers, IsUnmet, Whether, comes_for, meets_alone, takes};
ghost use Rattle.rule_reach.specs.steps.Alone.{MeansAlone, statements_at};
ghost use Rattle.rule_reach.specs.steps.Telling.{AreRuleSets};

use crate::answers::Unmet;
use crate::sets::BaseSets;
use crate::telling::has_packet;
use box_file::Plant;
use fact_sets::{Interfaces, Reader, Written};
use nft_tree::{RuleNo, Stmt};
use packet_sets::{Diagrams, PacketSet, SetError};
use rule_code::Lookups;
use rule_names::TableNames;
use rule_sets::{Setting, met, rule_ends};
use std::alloc::Global;

/// The tables of a ruleset on its box, and the sets of its base chains.
#[derive(Clone, Copy)]
pub(crate) struct Told<'a, 't> {
    pub(crate) network: &'a Plant,
    pub(crate) tables: &'a [TableNames<'t>],
    pub(crate) interfaces: &'a Interfaces,
    pub(crate) bases: &'a [BaseSets],
}

/// What the packets that would meet a rule as they came do at an earlier rule of its chain.
#[derive(Clone, Copy)]
struct AtRule {
    /// Some come to it.
    come: bool,
    /// Some of them don't come to the next.
    end: bool,
}

/// The statements of a rule of the table.
fn statements_of<'t>(names: &TableNames<'t>, rule: RuleNo) -> Option<&'t [Stmt]>
    ensures { option_map (λ stmts. map statement stmts.now) result ≡ statements_at names.now rule }
{
    let chain = names.chains().get(rule.chain as usize)?;
    let index = (rule.rule as usize).checked_sub(1)?;
    let found = chain.rules.get(index)?;
    Some(&found.statements)
}

/// The packets that meet the last statement of a rule of the table, by the facts with which they come
/// to base chains.
fn met_alone(
    alloc: Global,
    diagrams: &mut Diagrams,
    lookups: &mut Lookups,
    setting: Setting<'_, '_>,
    interfaces: &Interfaces,
    rule: RuleNo,
    stmts: &[Stmt],
) -> Result<PacketSet, SetError>
    requires declared { HasDeclared setting.network.now setting.names.now lookups.old }
    requires types { list_any (statement_mismatches setting.names.now) (map statement stmts.now)
        ≡ false }
    requires bounds { list_any statement_out_of_range (map statement stmts.now) ≡ false }
    ensures keeps { Keeps diagrams.old diagrams.new }
    ensures extends { OnOk result (Extends lookups.old lookups.new) }
    ensures value { IfOk result (λ set. Means diagrams.new set (λ packet.
        (rule_end (table_program setting.entry.network.now rule.table setting.entry.names.now)
        rule.chain rule.rule 1 (map statement stmts.now)
        (facts_of interfaces.now NOTHING packet)).met)) }
    ensures too_large { IfErr result (λ e. e ≡ TooLarge
        → diagrams.new.limit ≤ length diagrams.new.nodes) }
{
    let reader = Reader {
        interfaces,
        written: Written::NOTHING,
    };
    diagrams.ends();
    let everything = PacketSet::ALL;
    let ends = rule_ends(
        alloc, diagrams, lookups, setting, reader, rule, stmts, everything,
    )?;
    met(diagrams, &ends)
}

/// What packets of a base chain do at rule `number` of the rule's chain, of those that would meet the
/// rule as they came, `alone`.
fn at_base(
    diagrams: &mut Diagrams,
    alone: PacketSet,
    rule: RuleNo,
    number: u32,
    base: &BaseSets,
) -> Result<AtRule, SetError>
    requires alone { IsSet diagrams.old alone }
    requires sets { AreRuleSets diagrams.old (sets_of base.now.rules) }
    requires number { number + 1 < 2 ^ 32 }
    ensures keeps { Keeps diagrams.old diagrams.new }
    ensures come { IfOk result (λ at. (network : PlantTree) (tables : List TableTree) (b : BaseChain)
        → MeansAlone network tables diagrams.old rule alone
        → AreBaseSets network tables diagrams.old b base.now
        → Whether network tables (b ∷ []) (comes_for network tables rule number) at.come) }
    ensures end { IfOk result (λ at. (network : PlantTree) (tables : List TableTree) (b : BaseChain)
        → MeansAlone network tables diagrams.old rule alone
        → AreBaseSets network tables diagrams.old b base.now
        → Whether network tables (b ∷ []) (takes network tables rule number) at.end) }
    ensures too_large { IfErr result (λ e. e ≡ TooLarge
        → diagrams.new.limit ≤ length diagrams.new.nodes) }
{
    if base.chain.table != rule.table {
        return Ok(AtRule {
            come: false,
            end: false,
        });
    }
    let here = base.rules.sets(rule.chain, number).reached;
    let next = base.rules.sets(rule.chain, number + 1).reached;
    let come = diagrams.and(alone, here)?;
    let end = diagrams.without(come, next)?;
    Ok(AtRule {
        come: has_packet(diagrams, come),
        end: has_packet(diagrams, end),
    })
}

impl Told<'_, '_> {
    /// The packets that meet the last statement of a rule, by the facts with which they come to base
    /// chains; none where there is no such rule.
    fn alone(
        self,
        alloc: Global,
        diagrams: &mut Diagrams,
        lookups: &mut [Lookups],
        rule: RuleNo,
    ) -> Result<PacketSet, SetError>
        requires fine { WellFormed self.tables.now self.network.now }
        requires interfaces { self.interfaces.now ≡ interfaces_of self.network.now }
        requires declared { AllZip (HasDeclared self.network.now) self.tables.now lookups.old }
        ensures keeps { Keeps diagrams.old diagrams.new }
        ensures declared { OnOk result
            (AllZip (HasDeclared self.entry.network.now) self.entry.tables.now lookups.new) }
        ensures value { IfOk result
            (MeansAlone self.entry.network.now self.entry.tables.now diagrams.new rule) }
        ensures too_large { IfErr result (λ e. e ≡ TooLarge
            → diagrams.new.limit ≤ length diagrams.new.nodes) }
    {
        diagrams.ends();
        let table = rule.table as usize;
        let Some(names) = self.tables.get(table) else {
            return Ok(PacketSet::NONE);
        };
        let Some(stmts) = statements_of(names, rule) else {
            return Ok(PacketSet::NONE);
        };
        let setting = Setting {
            network: self.network,
            names,
        };
        let interfaces = self.interfaces;
        met_alone(
            alloc,
            diagrams,
            &mut lookups[table],
            setting,
            interfaces,
            rule,
            stmts,
        )
    }

    /// What packets of all base chains do at rule `number` of the rule's chain.
    fn at_rule(
        self,
        diagrams: &mut Diagrams,
        alone: PacketSet,
        rule: RuleNo,
        number: u32,
    ) -> Result<AtRule, SetError>
        requires sets { AreSetsOf self.network.now self.tables.now diagrams.old
            (run_chains self.tables.now) self.bases.now }
        requires alone { MeansAlone self.network.now self.tables.now diagrams.old rule alone }
        requires number { number + 1 < 2 ^ 32 }
        ensures keeps { Keeps diagrams.old diagrams.new }
        ensures come { IfOk result (λ at. Whether self.entry.network.now self.entry.tables.now
            (run_chains self.entry.tables.now)
            (comes_for self.entry.network.now self.entry.tables.now rule number) at.come) }
        ensures end { IfOk result (λ at. Whether self.entry.network.now self.entry.tables.now
            (run_chains self.entry.tables.now)
            (takes self.entry.network.now self.entry.tables.now rule number) at.end) }
        ensures too_large { IfErr result (λ e. e ≡ TooLarge
            → diagrams.new.limit ≤ length diagrams.new.nodes) }
    {
        let mut come = false;
        let mut end = false;
        for base in self.bases {
            let at = at_base(diagrams, alone, rule, number, base)?;
            come |= at.come;
            end |= at.end;
        }
        Ok(AtRule { come, end })
    }

    /// The numbers of the rules that take packets which would meet the rule as they came. Behind a rule
    /// to which none of them comes, none takes any.
    fn takers(
        self,
        alloc: Global,
        diagrams: &mut Diagrams,
        alone: PacketSet,
        rule: RuleNo,
    ) -> Result<Vec<u32>, SetError>
        requires sets { AreSetsOf self.network.now self.tables.now diagrams.old
            (run_chains self.tables.now) self.bases.now }
        requires alone { MeansAlone self.network.now self.tables.now diagrams.old rule alone }
        ensures keeps { Keeps diagrams.old diagrams.new }
        ensures takers { IfOk result (λ takers. AreTakers self.entry.network.now
            self.entry.tables.now (run_chains self.entry.tables.now) rule takers.items) }
        ensures too_large { IfErr result (λ e. e ≡ TooLarge
            → diagrams.new.limit ≤ length diagrams.new.nodes) }
    {
        let mut takers = Vec::new(alloc);
        for number in 1..rule.rule {
            let at = self.at_rule(diagrams, alone, rule, number)?;
            if !at.come {
                break;
            }
            if at.end {
                takers.push(number)?;
            }
        }
        Ok(takers)
    }

    /// Why no packet meets the rule.
    pub(crate) fn unmet(
        self,
        alloc: Global,
        diagrams: &mut Diagrams,
        lookups: &mut [Lookups],
        rule: RuleNo,
    ) -> Result<Unmet, SetError>
        requires fine { WellFormed self.tables.now self.network.now }
        requires interfaces { self.interfaces.now ≡ interfaces_of self.network.now }
        requires declared { AllZip (HasDeclared self.network.now) self.tables.now lookups.old }
        requires sets { AreSetsOf self.network.now self.tables.now diagrams.old
            (run_chains self.tables.now) self.bases.now }
        ensures keeps { Keeps diagrams.old diagrams.new }
        ensures declared { OnOk result
            (AllZip (HasDeclared self.entry.network.now) self.entry.tables.now lookups.new) }
        ensures rule { IfOk result (λ unmet. unmet.rule ≡ rule) }
        ensures why { IfOk result (IsUnmet self.entry.network.now self.entry.tables.now
            (run_chains self.entry.tables.now)) }
        ensures too_large { IfErr result (λ e. e ≡ TooLarge
            → diagrams.new.limit ≤ length diagrams.new.nodes) }
    {
        let alone = self.alone(alloc, diagrams, lookups, rule)?;
        let first = self.at_rule(diagrams, alone, rule, 1)?;
        let takers = self.takers(alloc, diagrams, alone, rule)?;
        Ok(Unmet {
            rule,
            takers,
            matches_some: first.come,
        })
    }
}
