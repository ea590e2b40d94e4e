//! The packets of some states through one rule.
ghost use Rattle.std.specs.Prelude.{◌≡◌, ◌≤◌, ◌∷◌, [], false, length, map, IfOk, IfErr, OnOk};
ghost use Rattle.std.specs.List.{list_any};
ghost use Rattle.packet_sets.specs.Sets.{IsSet, Keeps};
ghost use Rattle.nft_tree.specs.TreeViews.{statement};
ghost use Rattle.rule_types.specs.Types.{statement_mismatches};
ghost use Rattle.rule_values.specs.Faults.{statement_out_of_range};
ghost use Rattle.rule_meaning.specs.Runs.{table_program};
ghost use Rattle.lowering.specs.Lowered.{Extends, HasDeclared};
ghost use Rattle.fact_sets.specs.Cases.{AreCases};
ghost use Rattle.packet_sets.specs.declared.fault.SetError.TheVariants.{TooLarge};
ghost use Rattle.chain_sets.specs.RuleSets.{sets_of};
ghost use Rattle.chain_sets.specs.steps.Looks.{AreRuleSets};
ghost use Rattle.chain_sets.specs.steps.Merging.{HavePackets};
ghost use Rattle.chain_sets.specs.steps.Turns.{GoThrough};

use crate::merging::add_cases;
use crate::outcomes::{Turn, turns_of};
use crate::table::TableSetting;
use crate::visits::{RuleSets, Visits};
use fact_sets::{Case, Reader, Written};
use nft_tree::{RuleNo, Stmt};
use packet_sets::{Diagrams, SetError};
use rule_code::Lookups;
use rule_sets::{met, rule_ends};
use std::alloc::Global;

/// Where the rule ends for the packets of one state, which come to it.
fn state_turns(
    alloc: Global,
    diagrams: &mut Diagrams,
    lookups: &mut Lookups,
    table: TableSetting<'_, '_>,
    rule: RuleNo,
    stmts: &[Stmt],
    state: Case<Written>,
    visits: &mut Visits,
) -> Result<Vec<Case<Turn>>, SetError>
    requires declared { HasDeclared table.setting.network.now table.setting.names.now lookups.old }
    requires types { list_any (statement_mismatches table.setting.names.now) (map statement stmts.now)
        ≡ false }
    requires bounds { list_any statement_out_of_range (map statement stmts.now) ≡ false }
    requires state { IsSet diagrams.old state.set }
    requires visits { AreRuleSets diagrams.old (sets_of visits.old) }
    ensures keeps { Keeps diagrams.old diagrams.new }
    ensures extends { OnOk result (Extends lookups.old lookups.new) }
    ensures turns { IfOk result (λ turns. GoThrough (table_program table.entry.setting.network.now
        rule.table table.entry.setting.names.now) table.entry.interfaces.now rule.chain rule.rule
        (map statement stmts.now) diagrams.old diagrams.new (state ∷ []) turns.items
        (sets_of visits.old) (sets_of visits.new)) }
    ensures too_large { IfErr result (λ e. e ≡ TooLarge
        → diagrams.new.limit ≤ length diagrams.new.nodes) }
{
    let reader = Reader {
        interfaces: table.interfaces,
        written: state.outcome,
    };
    let setting = table.setting;
    let ends = rule_ends(
        alloc, diagrams, lookups, setting, reader, rule, stmts, state.set,
    )?;
    let met = met(diagrams, &ends)?;
    let reached = state.set;
    visits.add(diagrams, rule, RuleSets { reached, met })?;
    Ok(turns_of(alloc, &ends)?)
}

/// Where the rule ends for the packets of all states.
pub(crate) fn rule_turns(
    alloc: Global,
    diagrams: &mut Diagrams,
    lookups: &mut Lookups,
    table: TableSetting<'_, '_>,
    rule: RuleNo,
    stmts: &[Stmt],
    states: &[Case<Written>],
    visits: &mut Visits,
) -> Result<Vec<Case<Turn>>, SetError>
    requires declared { HasDeclared table.setting.network.now table.setting.names.now lookups.old }
    requires types { list_any (statement_mismatches table.setting.names.now) (map statement stmts.now)
        ≡ false }
    requires bounds { list_any statement_out_of_range (map statement stmts.now) ≡ false }
    requires states { AreCases diagrams.old states.now }
    requires visits { AreRuleSets diagrams.old (sets_of visits.old) }
    ensures keeps { Keeps diagrams.old diagrams.new }
    ensures extends { OnOk result (Extends lookups.old lookups.new) }
    ensures turns { IfOk result (λ turns. GoThrough (table_program table.entry.setting.network.now
        rule.table table.entry.setting.names.now) table.entry.interfaces.now rule.chain rule.rule
        (map statement stmts.now) diagrams.old diagrams.new states.now turns.items
        (sets_of visits.old) (sets_of visits.new)) }
    ensures packets { IfOk result (λ turns. HavePackets diagrams.new turns.items) }
    ensures too_large { IfErr result (λ e. e ≡ TooLarge
        → diagrams.new.limit ≤ length diagrams.new.nodes) }
{
    let mut turns = Vec::new(alloc);
    for state in states {
        let more = state_turns(alloc, diagrams, lookups, table, rule, stmts, *state, visits)?;
        add_cases(diagrams, &mut turns, &more)?;
    }
    Ok(turns)
}
