//! The code of tables.
ghost use Rattle.std.specs.Prelude.{◌≡◌, [], false, IfOk, OnOk};
ghost use Rattle.std.specs.List.{list_any};
ghost use Rattle.rule_types.specs.Types.{table_mismatches};
ghost use Rattle.rule_values.specs.Faults.{has_wrong_value, item_out_of_range};
ghost use Rattle.lowering.specs.Lowered.{HasDeclared};
ghost use Rattle.code_layout.specs.CodeLayout.{AreTableCodes, IsTableCode};

use box_file::Plant;
use code_layout::{add_chain, to_u32};
use lowering::declared;
use rule_code::{StepList, TableCode};
use rule_index::IndexedTable;
use rule_meaning::ChainNo;
use rule_names::TableNames;
use std::alloc::{AllocError, Global};

/// Adds the chains of a table to its code; `table` is its number.
fn add_chains(
    alloc: Global,
    network: &Plant,
    names: &TableNames,
    table: u32,
    code: &mut TableCode,
) -> Result<(), AllocError>
    requires types { table_mismatches names.now ≡ false }
    requires bounds { list_any item_out_of_range names.now.items ≡ false }
    requires declared { HasDeclared network.now names.now code.old.lookups }
    requires no_steps { code.old.steps.items ≡ [] }
    requires no_chains { code.old.chain_offsets.items ≡ [] }
    requires no_tables { code.old.tables ≡ 0 }
    requires none_merged { code.old.merged ≡ 0 }
    requires none_dropped { code.old.dropped ≡ 0 }
    ensures { OnOk result (IsTableCode network.now table names.now code.new) }
{
    for (place, chain) in names.chains().iter().enumerate() {
        let number = ChainNo {
            table,
            chain: to_u32(place)?,
        };
        code.chain_offsets.push(code.steps.list().len())?;
        add_chain(alloc, network, names, number, chain, code)?;
    }
    Ok(())
}

/// The code of one table; `table` is its number.
fn table_code(
    alloc: Global,
    network: &Plant,
    names: &TableNames,
    table: u32,
) -> Result<TableCode, AllocError>
    requires types { table_mismatches names.now ≡ false }
    requires bounds { list_any item_out_of_range names.now.items ≡ false }
    ensures { IfOk result (λ code. IsTableCode network.now table names.now code) }
{
    let mut code = TableCode {
        lookups: declared(alloc, network, names)?,
        steps: StepList::new(alloc),
        chain_offsets: Vec::new(alloc),
        tables: 0,
        merged: 0,
        dropped: 0,
    };
    add_chains(alloc, network, names, table, &mut code)?;
    Ok(code)
}

/// Adds the code of each table, in text order.
pub(crate) fn add_tables(
    alloc: Global,
    network: &Plant,
    names: &[TableNames],
    codes: &mut Vec<IndexedTable>,
) -> Result<(), AllocError>
    requires types { list_any table_mismatches names.now ≡ false }
    requires bounds { list_any (has_wrong_value network.now) names.now ≡ false }
    requires none { codes.old.items ≡ [] }
    ensures { OnOk result (AreTableCodes network.now names.now codes.new.items) }
{
    for (number, table) in names.iter().enumerate() {
        let code = table_code(alloc, network, table, to_u32(number)?)?;
        codes.push(IndexedTable::new(alloc, code)?)?;
    }
    Ok(())
}
