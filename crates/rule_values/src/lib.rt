//! Checks of values: that they are of their types and in range (N09), that the interfaces they name
//! exist (N13), and that overlapping map elements have the same data (N12).
#![tactic(auto)]

ghost use Rattle.std.specs.Prelude.{◌≡◌, IfOk};
ghost use Rattle.std.specs.List.{list_any};
ghost use Rattle.nft_tree.specs.TreeViews.{table_tree, tables_of};
ghost use Rattle.rule_values.specs.Faults.{has_contradiction, has_wrong_value, names_unknown_interface};

mod bounds;
mod comparable_data;
mod contradictions;
mod elements;
mod keys;
mod value_check;
mod values;

use bounds::item_out_of_range;
use box_file::Plant;
use contradictions::any_contradicts;
use nft_tree::{Ruleset, Table, any};
use std::alloc::{AllocError, Global};
use value_check::ValueCheck;
use values::table_fails;

/// Whether a value isn't of its type or a number is out of range (N09): in comparisons, set
/// elements, map keys and data; ports, TCP flags, marks, log prefixes and priorities.
pub fn has_wrong_value(network: &Plant, tree: &Ruleset) -> bool
    ensures { result ≡ list_any (has_wrong_value network.now) (tables_of tree.now) }
{
    any(&tree.tables, |table| table_has_wrong_value(network, table))
}

fn table_has_wrong_value(network: &Plant, table: &Table) -> bool
    ensures { result ≡ has_wrong_value network.now (table_tree table.now) }
{
    table_fails(ValueCheck::IsOfType, network, table) || any(&table.items, item_out_of_range)
}

/// Whether a value of type iface_index names an interface that the box doesn't have (N13).
pub fn names_unknown_interface(network: &Plant, tree: &Ruleset) -> bool
    ensures { result ≡ list_any (names_unknown_interface network.now) (tables_of tree.now) }
{
    any(
        &tree.tables,
        |table| table_fails(ValueCheck::IsOnBox, network, table),
    )
}

/// Whether two overlapping elements of a map have different data (N12).
///
/// # Errors
///
/// If an allocation fails.
pub fn has_contradiction(alloc: Global, network: &Plant, tree: &Ruleset) -> Result<bool, AllocError>
    ensures { IfOk result (λ b. b ≡ list_any (has_contradiction network.now) (tables_of tree.now)) }
{
    any_contradicts(alloc, network, &tree.tables)
}
