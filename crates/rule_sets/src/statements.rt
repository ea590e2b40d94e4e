//! The cases of statements.
ghost use Rattle.std.specs.Prelude.{◌≡◌, ◌≤◌, false, length, IfOk, IfErr, OnOk};
ghost use Rattle.packet_sets.specs.Sets.{Keeps};
ghost use Rattle.packet_sets.specs.declared.fault.SetError.TheVariants.{TooLarge};
ghost use Rattle.nft_tree.specs.TreeViews.{statement};
ghost use Rattle.rule_types.specs.Types.{statement_mismatches};
ghost use Rattle.rule_values.specs.Faults.{statement_out_of_range};
ghost use Rattle.rule_meaning.specs.Statements.{statement_effect};
ghost use Rattle.lowering.specs.Lowered.{AddsFewTables, Extends, HasDeclared, scope_of};
ghost use Rattle.action_cases.specs.Effects.{Decides};

use action_cases::{Outcome, action_cases};
use box_file::Plant;
use fact_sets::{Case, Reader};
use lowering::action;
use nft_tree::Stmt;
use packet_sets::{Diagrams, SetError};
use rule_code::Lookups;
use rule_meaning::StatementPosition;
use rule_names::TableNames;
use std::alloc::Global;

/// What the rules of a table stand in.
#[derive(Clone, Copy)]
pub struct Setting<'a, 't> {
    pub network: &'a Plant,
    pub names: &'a TableNames<'t>,
}

/// The cases of a statement at a position of the table: each packet of a case is one with whose facts
/// the statement does what the case says, and with those of the packets of no case it fails.
///
/// # Errors
///
/// `TooLarge` where more nodes are needed than the limit allows, `Memory` where an allocation
/// failed.
pub fn statement_cases(
    alloc: Global,
    diagrams: &mut Diagrams,
    lookups: &mut Lookups,
    setting: Setting<'_, '_>,
    reader: Reader<'_>,
    position: StatementPosition,
    stmt: &Stmt,
) -> Result<Vec<Case<Outcome>>, SetError>
    requires declared { HasDeclared setting.network.now setting.names.now lookups.old }
    requires types { statement_mismatches setting.names.now (statement stmt.now) ≡ false }
    requires bounds { statement_out_of_range (statement stmt.now) ≡ false }
    ensures keeps { Keeps diagrams.old diagrams.new }
    ensures extends { OnOk result (Extends lookups.old lookups.new) }
    ensures few { OnOk result (AddsFewTables lookups.old lookups.new) }
    ensures value { IfOk result (λ cases. Decides diagrams.new reader.entry cases.items
        (statement_effect (scope_of setting.entry.network.now setting.entry.names.now) position
        (statement stmt.now))) }
    ensures too_large { IfErr result (λ e. e ≡ TooLarge
        → diagrams.new.limit ≤ length diagrams.new.nodes) }
{
    let action = action(
        alloc,
        setting.network,
        setting.names,
        position,
        stmt,
        lookups,
    )?;
    action_cases(reader, alloc, diagrams, lookups, &action)
}
