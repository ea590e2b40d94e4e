//! The packets of some states through the rules of a chain, and of those that it leads to.
ghost use Rattle.std.specs.Prelude.{◌≡◌, ◌≤◌, ◌<◌, ◌^◌, ◌+◌, ◌∷◌, [], false, length, map, IfOk, IfErr, OnOk};
ghost use Rattle.std.specs.List.{list_any};
ghost use Rattle.packet_sets.specs.Sets.{IsSet, Keeps};
ghost use Rattle.nft_tree.specs.TreeViews.{statement};
ghost use Rattle.rule_types.specs.Types.{statement_mismatches, table_mismatches};
ghost use Rattle.rule_values.specs.Faults.{item_out_of_range, statement_out_of_range};
ghost use Rattle.rule_meaning.specs.Runs.{table_program};
ghost use Rattle.lowering.specs.Lowered.{Extends, HasDeclared};
ghost use Rattle.fact_sets.specs.Cases.{AreCases};
ghost use Rattle.chain_sets.specs.declared.fault.WalkError.TheVariants.{TooDeep, TooLarge};
ghost use Rattle.chain_ways.specs.Nesting.{NestsOver};
ghost use Rattle.chain_sets.specs.RuleSets.{sets_of};
ghost use Rattle.chain_sets.specs.steps.Looks.{AreRuleSets};
ghost use Rattle.chain_sets.specs.steps.Nesting.{RuleNests, SomeTurnNests, VerdictNests};
ghost use Rattle.chain_sets.specs.steps.Walking.{Leave, Pass, Walk};

use crate::fault::WalkError;
use crate::merging::add_cases;
use crate::outcomes::{
    ChainEnd, Course, Exit, Turn, behind, chain_ends, course_of, ended, next, one_exit,
};
use crate::table::{TableSetting, rules_of};
use crate::turns::rule_turns;
use crate::visits::Visits;
use chain_ways::rule_exit;
use fact_sets::{Case, Written};
use nft_tree::{RuleNo, Stmt};
use packet_sets::Diagrams;
use rule_code::Lookups;
use std::alloc::{AllocError, Global};

/// Where the packets of a turn are behind the rule, where so many levels of chains are left.
#[cycle(walking)]
fn turn_exits(
    alloc: Global,
    diagrams: &mut Diagrams,
    lookups: &mut Lookups,
    table: TableSetting<'_, '_>,
    levels: u32,
    rule: RuleNo,
    turn: Case<Turn>,
    visits: &mut Visits,
) -> Result<Vec<Case<Exit>>, WalkError>
    requires declared { HasDeclared table.setting.network.now table.setting.names.now lookups.old }
    requires types { table_mismatches table.setting.names.now ≡ false }
    requires bounds { list_any item_out_of_range table.setting.names.now.items ≡ false }
    requires turn { IsSet diagrams.old turn.set }
    requires visits { AreRuleSets diagrams.old (sets_of visits.old) }
    ensures keeps { Keeps diagrams.old diagrams.new }
    ensures extends { OnOk result (Extends lookups.old lookups.new) }
    ensures value { IfOk result (λ exits. Leave (table_program table.entry.setting.network.now
        table.entry.number table.entry.setting.names.now) table.entry.interfaces.now levels
        diagrams.old diagrams.new (turn ∷ []) exits.items (sets_of visits.old) (sets_of visits.new)) }
    ensures too_large { IfErr result (λ e. e ≡ TooLarge
        → diagrams.new.limit ≤ length diagrams.new.nodes) }
    ensures too_deep { IfErr result (λ e. e ≡ TooDeep → VerdictNests (table_program table.entry.setting.network.now
        table.entry.number table.entry.setting.names.now)
        levels turn.outcome.verdict) }
{
    let written = turn.outcome.written;
    match course_of(rule, rule_exit(turn.outcome.verdict), written) {
        Course::To(exit) => Ok(one_exit(alloc, turn.set, exit)?),
        Course::Through { chain, is_jump } => {
            let state = Case {
                set: turn.set,
                outcome: written,
            };
            let ends = walk_chain(
                alloc,
                diagrams,
                lookups,
                table,
                levels,
                chain,
                &[state],
                visits,
            )?;
            Ok(behind(alloc, is_jump, &ends)?)
        }
    }
}

/// Where the packets of all turns of the rule are.
#[cycle(walking)]
fn rule_exits(
    alloc: Global,
    diagrams: &mut Diagrams,
    lookups: &mut Lookups,
    table: TableSetting<'_, '_>,
    levels: u32,
    rule: RuleNo,
    turns: &[Case<Turn>],
    visits: &mut Visits,
) -> Result<Vec<Case<Exit>>, WalkError>
    requires declared { HasDeclared table.setting.network.now table.setting.names.now lookups.old }
    requires types { table_mismatches table.setting.names.now ≡ false }
    requires bounds { list_any item_out_of_range table.setting.names.now.items ≡ false }
    requires turns { AreCases diagrams.old turns.now }
    requires visits { AreRuleSets diagrams.old (sets_of visits.old) }
    ensures keeps { Keeps diagrams.old diagrams.new }
    ensures extends { OnOk result (Extends lookups.old lookups.new) }
    ensures value { IfOk result (λ exits. Leave (table_program table.entry.setting.network.now
        table.entry.number table.entry.setting.names.now) table.entry.interfaces.now levels
        diagrams.old diagrams.new turns.now exits.items (sets_of visits.old) (sets_of visits.new)) }
    ensures too_large { IfErr result (λ e. e ≡ TooLarge
        → diagrams.new.limit ≤ length diagrams.new.nodes) }
    ensures too_deep { IfErr result (λ e. e ≡ TooDeep → SomeTurnNests (table_program table.entry.setting.network.now
        table.entry.number table.entry.setting.names.now)
        levels turns.now) }
{
    let mut exits = Vec::new(alloc);
    for turn in turns {
        let more = turn_exits(alloc, diagrams, lookups, table, levels, rule, *turn, visits)?;
        add_cases(diagrams, &mut exits, &more)?;
    }
    Ok(exits)
}

/// Where the packets of the states are behind a rule of the table.
#[cycle(walking)]
fn pass_rule(
    alloc: Global,
    diagrams: &mut Diagrams,
    lookups: &mut Lookups,
    table: TableSetting<'_, '_>,
    levels: u32,
    rule: RuleNo,
    stmts: &[Stmt],
    states: &[Case<Written>],
    visits: &mut Visits,
) -> Result<Vec<Case<Exit>>, WalkError>
    requires declared { HasDeclared table.setting.network.now table.setting.names.now lookups.old }
    requires types { table_mismatches table.setting.names.now ≡ false }
    requires bounds { list_any item_out_of_range table.setting.names.now.items ≡ false }
    requires here { rule.table ≡ table.number }
    requires its_types { list_any (statement_mismatches table.setting.names.now)
        (map statement stmts.now) ≡ false }
    requires its_bounds { list_any statement_out_of_range (map statement stmts.now) ≡ false }
    requires states { AreCases diagrams.old states.now }
    requires visits { AreRuleSets diagrams.old (sets_of visits.old) }
    ensures keeps { Keeps diagrams.old diagrams.new }
    ensures extends { OnOk result (Extends lookups.old lookups.new) }
    ensures value { IfOk result (λ exits. Pass (table_program table.entry.setting.network.now
        table.entry.number table.entry.setting.names.now) table.entry.interfaces.now levels
        rule.chain rule.rule (map statement stmts.now)
        diagrams.old diagrams.new states.now exits.items (sets_of visits.old) (sets_of visits.new)) }
    ensures too_large { IfErr result (λ e. e ≡ TooLarge
        → diagrams.new.limit ≤ length diagrams.new.nodes) }
    ensures too_deep { IfErr result (λ e. e ≡ TooDeep → RuleNests (table_program table.entry.setting.network.now
        table.entry.number table.entry.setting.names.now)
        levels rule.chain rule.rule (map statement stmts.now)) }
{
    let turns = rule_turns(alloc, diagrams, lookups, table, rule, stmts, states, visits)?;
    rule_exits(
        alloc, diagrams, lookups, table, levels, rule, &turns, visits,
    )
}

/// The number of a rule, by its index.
fn rule_number(table: u32, chain: u32, index: usize) -> Result<RuleNo, AllocError>
    requires { index + 1 < 2 ^ 64 }
    ensures { IfOk result (λ number. number ≡ record { table = table; chain = chain; rule = index + 1 }) }
{
    // no memory holds so many rules
    match u32::try_from(index + 1) {
        Ok(rule) => Ok(RuleNo { table, chain, rule }),
        Err(_) => Err(AllocError),
    }
}

/// How the ways of the states' packets through a chain end, where so many levels of chains are left,
/// this one included.
#[cycle(walking)]
pub(crate) fn walk_chain(
    alloc: Global,
    diagrams: &mut Diagrams,
    lookups: &mut Lookups,
    table: TableSetting<'_, '_>,
    levels: u32,
    chain: u32,
    states: &[Case<Written>],
    visits: &mut Visits,
) -> Result<Vec<Case<ChainEnd>>, WalkError>
    requires declared { HasDeclared table.setting.network.now table.setting.names.now lookups.old }
    requires types { table_mismatches table.setting.names.now ≡ false }
    requires bounds { list_any item_out_of_range table.setting.names.now.items ≡ false }
    requires states { AreCases diagrams.old states.now }
    requires visits { AreRuleSets diagrams.old (sets_of visits.old) }
    ensures keeps { Keeps diagrams.old diagrams.new }
    ensures extends { OnOk result (Extends lookups.old lookups.new) }
    ensures value { IfOk result (λ ends. Walk (table_program table.entry.setting.network.now
        table.entry.number table.entry.setting.names.now) table.entry.interfaces.now levels chain
        diagrams.old diagrams.new states.now ends.items (sets_of visits.old) (sets_of visits.new)) }
    ensures too_large { IfErr result (λ e. e ≡ TooLarge
        → diagrams.new.limit ≤ length diagrams.new.nodes) }
    ensures too_deep { IfErr result (λ e. e ≡ TooDeep → NestsOver (table_program table.entry.setting.network.now
        table.entry.number table.entry.setting.names.now)
        levels chain) }
{
    let Some(deeper) = levels.checked_sub(1) else {
        return Err(WalkError::TooDeep);
    };
    let rules = rules_of(table.setting.names, chain);
    let mut states = states.to_vec(alloc)?;
    let mut ends = Vec::new(alloc);
    for (index, rule) in rules.iter().enumerate() {
        let number = rule_number(table.number, chain, index)?;
        let exits = pass_rule(
            alloc,
            diagrams,
            lookups,
            table,
            deeper,
            number,
            &rule.statements,
            &states,
            visits,
        )?;
        add_cases(diagrams, &mut ends, &chain_ends(alloc, &exits)?)?;
        states = next(alloc, &exits)?;
    }
    add_cases(diagrams, &mut ends, &ended(alloc, &states)?)?;
    Ok(ends)
}
