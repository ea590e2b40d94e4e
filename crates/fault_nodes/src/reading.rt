//! Rulesets with some of their parts, and rulesets as far as they have been read.
ghost use Rattle.std.specs.Prelude.{◌≡◌, map, take, IfOk};
ghost use Rattle.nft_tree.specs.TreeViews.{item_tree, table_tree, tables_of};
ghost use Rattle.fault_nodes.specs.ReadParts.{first_declarations, item_between, read_up_to, ruleset_between, table_declared};

use crate::counting::{declarations, table_declarations};
use crate::lists::{PartNode, all_with_parts_between};
use nft_tree::{Item, Ruleset, Table};
use std::alloc::{AllocError, Global};

/// A copy of the ruleset with all its tables and their items, and only the parts `from..to`.
///
/// Its parts are its rules, statements and elements, counted from 0 in text order: a rule comes
/// before its statements, and a statement before the elements of its anonymous set or map. A rule
/// or statement of which only later parts are wanted stays, with these alone.
///
/// # Errors
///
/// If an allocation fails.
pub fn ruleset_between(
    alloc: Global,
    tree: &Ruleset,
    from: usize,
    to: usize,
) -> Result<Ruleset, AllocError>
    ensures { IfOk result (λ copy. tables_of copy ≡ ruleset_between from to (tables_of tree.now)) }
{
    Ok(Ruleset {
        tables: all_with_parts_between(alloc, &tree.tables, from, to)?,
    })
}

/// A copy of the ruleset, read up to `count`: its first declarations, or all of them and its first
/// parts.
///
/// # Errors
///
/// If an allocation fails.
pub fn read_up_to(alloc: Global, tree: &Ruleset, count: usize) -> Result<Ruleset, AllocError>
    ensures { IfOk result (λ copy. tables_of copy ≡ read_up_to count (tables_of tree.now)) }
{
    let declared = declarations(tree);
    if count > declared {
        return ruleset_between(alloc, tree, 0, count - declared);
    }
    Ok(Ruleset {
        tables: first_declarations(alloc, &tree.tables, count)?,
    })
}

/// The first `count` declarations of some tables.
fn first_declarations(
    alloc: Global,
    tables: &[Table],
    count: usize,
) -> Result<Vec<Table>, AllocError>
    ensures { IfOk result (λ copies. map table_tree copies.items
        ≡ first_declarations count (map table_tree tables.now)) }
{
    let mut copies = Vec::new(alloc);
    let mut left = count;
    for table in tables {
        if left == 0 {
            break;
        }
        copies.push(table_declared(alloc, table, left - 1)?)?;
        left = left.saturating_sub(table_declarations(table));
    }
    Ok(copies)
}

/// A table with its first `count` items, without their parts.
fn table_declared(alloc: Global, table: &Table, count: usize) -> Result<Table, AllocError>
    ensures { IfOk result (λ copy. table_tree copy ≡ table_declared count (table_tree table.now)) }
{
    Ok(Table {
        family: table.family,
        name: table.name.clone()?,
        items: items_declared(alloc, &table.items, count)?,
    })
}

/// The first `count` items, without their parts.
fn items_declared(alloc: Global, items: &[Item], count: usize) -> Result<Vec<Item>, AllocError>
    ensures { IfOk result (λ copies. map item_tree copies.items
        ≡ map (item_between 0 0) (take count (map item_tree items.now))) }
{
    let mut copies = Vec::new(alloc);
    for item in &items[..count.min(items.len())] {
        copies.push(item.between(alloc, 0, 0)?)?;
    }
    Ok(copies)
}
