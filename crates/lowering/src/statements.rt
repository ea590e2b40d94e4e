//! Lowers statements.
ghost use Rattle.std.specs.Prelude.{◌≡◌, false, IfOk, OnOk};
ghost use Rattle.nft_tree.specs.Tree as tree;
ghost use Rattle.nft_tree.specs.TreeViews.{operand_tree, statement};
ghost use Rattle.rule_types.specs.Types.{statement_mismatches};
ghost use Rattle.rule_values.specs.Faults.{statement_out_of_range};
ghost use Rattle.rule_meaning.specs.Statements.{operand_number};
ghost use Rattle.rule_code.specs.declared.code.Lookups.{Lookups};
ghost use Rattle.lowering.specs.Lowered.{AddsFewTables, HasDeclared, Extends, HasEffectOf, scope_of};
ghost use Rattle.lowering.specs.steps.Actions.{ReadsAs};

use crate::lookup_tables::{number_map_index, verdict_map_index};
use crate::matches::lower_match;
use crate::nat_statements::lower_nat;
use crate::tables::rule_verdict;
use box_file::Plant;
use nft_tree::{MarkField, Operand, Stmt, ValueType};
use rule_code::{Action, Lookups, Operand as Source};
use rule_meaning::StatementPosition;
use rule_names::TableNames;
use std::alloc::{AllocError, Global};

/// The operand of `meta mark set` or `ct mark set`.
fn lower_operand(
    alloc: Global,
    network: &Plant,
    names: &TableNames,
    field: MarkField,
    operand: &Operand,
    lookups: &mut Lookups,
) -> Result<Source, AllocError>
    requires declared { HasDeclared network.now names.now lookups.old }
    requires types { statement_mismatches names.now (tree.set_mark field (operand_tree operand.now))
        ≡ false }
    requires bounds { statement_out_of_range (tree.set_mark field (operand_tree operand.now))
        ≡ false }
    ensures extends { OnOk result (Extends lookups.old lookups.new) }
    ensures few { OnOk result (AddsFewTables lookups.old lookups.new) }
    ensures reads { IfOk result (ReadsAs lookups.new
        (operand_number (scope_of network.now names.now) (operand_tree operand.now))) }
{
    match operand {
        Operand::Number(number) => Ok(Source::Number(*number as u32)),
        Operand::Mark(read) => Ok(Source::Mark(*read)),
        Operand::MapLookup(look) => {
            let number = number_map_index(alloc, network, names, ValueType::Mark, look, lookups)?;
            Ok(Source::MapLookup(look.selector, number))
        }
    }
}

/// The action with the effect of the statement, on every packet. The statement is at the position
/// in a rule of the table. The tables of anonymous sets and maps are added.
///
/// # Errors
///
/// `AllocError` for want of memory; there may be one more table then, which no action refers to.
pub fn action(
    alloc: Global,
    network: &Plant,
    names: &TableNames,
    position: StatementPosition,
    stmt: &Stmt,
    lookups: &mut Lookups,
) -> Result<Action, AllocError>
    requires declared { HasDeclared network.now names.now lookups.old }
    requires types { statement_mismatches names.now (statement stmt.now) ≡ false }
    requires bounds { statement_out_of_range (statement stmt.now) ≡ false }
    ensures extends { OnOk result (Extends lookups.old lookups.new) }
    ensures few { OnOk result (AddsFewTables lookups.old lookups.new) }
    ensures effect { IfOk result (λ action. (later : Lookups) → Extends lookups.new later
        → HasEffectOf network.now names.now later position (statement stmt.now) action) }
{
    match stmt {
        Stmt::Match(test) => lower_match(alloc, network, names, test, lookups),
        Stmt::Counter(_) => Ok(Action::Count(position)),
        Stmt::Log(_) => Ok(Action::Log(position)),
        Stmt::NoTrack => Ok(Action::NoTrack),
        Stmt::SetMark(field, operand) => {
            let source = lower_operand(alloc, network, names, *field, operand, lookups)?;
            Ok(Action::SetMark(*field, source))
        }
        Stmt::VerdictMap(selector, map) => Ok(Action::LookUpVerdict(
            *selector,
            verdict_map_index(alloc, network, names, *selector, map, lookups)?,
        )),
        Stmt::Verdict(verdict) => Ok(Action::GiveVerdict(rule_verdict(names, verdict)?)),
        Stmt::Nat(nat) => lower_nat(alloc, network, names, nat, lookups),
    }
}
