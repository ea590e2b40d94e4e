//! The ends of a rule.
ghost use Rattle.std.specs.Prelude.{◌≡◌, ◌≤◌, [], false, length, map, IfOk, IfErr, OnOk};
ghost use Rattle.std.specs.List.{list_any};
ghost use Rattle.packet_sets.specs.Sets.{IsSet, Keeps};
ghost use Rattle.packet_sets.specs.declared.fault.SetError.TheVariants.{TooLarge};
ghost use Rattle.nft_tree.specs.TreeViews.{statement};
ghost use Rattle.rule_types.specs.Types.{statement_mismatches};
ghost use Rattle.rule_values.specs.Faults.{statement_out_of_range};
ghost use Rattle.rule_meaning.specs.Runs.{table_program};
ghost use Rattle.lowering.specs.Lowered.{Extends, HasDeclared};
ghost use Rattle.rule_sets.specs.Ends.{AddsEnds, rule_end};

use crate::cutting::cut_to;
use crate::progress::{Place, Progress};
use crate::statements::Setting;
use fact_sets::{Case, Reader, Written};
use nft_tree::{RuleNo, Stmt};
use packet_sets::{Diagrams, PacketSet, SetError};
use rule_code::Lookups;
use rule_meaning::{RuleVerdict, StatementPosition};
use std::alloc::Global;

/// With what a rule ends: what rules have written then, and its verdict, if it gives one.
#[derive(Clone, Copy, PartialEq, Eq)]
pub struct End {
    pub written: Written,
    pub verdict: Option<RuleVerdict>,
    /// Its last statement was reached and didn't fail.
    pub met: bool,
}

/// The same, statement by statement from these packets on.
fn ends_from(
    alloc: Global,
    diagrams: &mut Diagrams,
    lookups: &mut Lookups,
    setting: Setting<'_, '_>,
    reader: Reader<'_>,
    rule: RuleNo,
    stmts: &[Stmt],
    set: PacketSet,
) -> Result<Vec<Case<End>>, SetError>
    requires declared { HasDeclared setting.network.now setting.names.now lookups.old }
    requires types { list_any (statement_mismatches setting.names.now) (map statement stmts.now)
        ≡ false }
    requires bounds { list_any statement_out_of_range (map statement stmts.now) ≡ false }
    requires set { IsSet diagrams.old set }
    ensures keeps { Keeps diagrams.old diagrams.new }
    ensures extends { OnOk result (Extends lookups.old lookups.new) }
    ensures value { IfOk result (λ ends. AddsEnds diagrams.old diagrams.new reader.entry set
        (rule_end (table_program setting.entry.network.now rule.table setting.entry.names.now)
        rule.chain rule.rule 1 (map statement stmts.now)) [] ends.items) }
    ensures too_large { IfErr result (λ e. e ≡ TooLarge
        → diagrams.new.limit ≤ length diagrams.new.nodes) }
{
    let mut progress = Progress::new(alloc, set, reader.written)?;
    let mut statement: u32 = 1;
    for stmt in stmts {
        let place = Place {
            setting,
            reader,
            position: StatementPosition { rule, statement },
            stmt,
            last: statement as usize == stmts.len(),
        };
        progress = progress.after(alloc, diagrams, lookups, place)?;
        // no memory holds so many statements
        statement = statement.checked_add(1).ok_or(SetError::Memory)?;
    }
    Ok(progress.finish()?)
}

/// The ends of a rule, for the packets of a set and what was written before it: each packet is in
/// exactly one, with its facts then and the rule's verdict for it.
///
/// # Errors
///
/// `TooLarge` where more nodes are needed than the limit allows, `Memory` where an allocation
/// failed.
pub fn rule_ends(
    alloc: Global,
    diagrams: &mut Diagrams,
    lookups: &mut Lookups,
    setting: Setting<'_, '_>,
    reader: Reader<'_>,
    rule: RuleNo,
    stmts: &[Stmt],
    set: PacketSet,
) -> Result<Vec<Case<End>>, SetError>
    requires declared { HasDeclared setting.network.now setting.names.now lookups.old }
    requires types { list_any (statement_mismatches setting.names.now) (map statement stmts.now)
        ≡ false }
    requires bounds { list_any statement_out_of_range (map statement stmts.now) ≡ false }
    requires set { IsSet diagrams.old set }
    ensures keeps { Keeps diagrams.old diagrams.new }
    ensures extends { OnOk result (Extends lookups.old lookups.new) }
    ensures value { IfOk result (λ ends. AddsEnds diagrams.old diagrams.new reader.entry set
        (rule_end (table_program setting.entry.network.now rule.table setting.entry.names.now)
        rule.chain rule.rule 1 (map statement stmts.now)) [] ends.items) }
    ensures too_large { IfErr result (λ e. e ≡ TooLarge
        → diagrams.new.limit ≤ length diagrams.new.nodes) }
{
    // What all packets do in the rule takes small diagrams, however large that of the set is.
    diagrams.ends();
    let everything = PacketSet::ALL;
    let all = ends_from(
        alloc, diagrams, lookups, setting, reader, rule, stmts, everything,
    )?;
    cut_to(alloc, diagrams, set, &all)
}
