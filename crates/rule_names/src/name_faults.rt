//! Faults of the names that rules and maps refer to.
ghost use Rattle.std.specs.Prelude.{◌≡◌, List, flat_map, map};
ghost use Rattle.std.specs.List.{list_any};
ghost use Rattle.nft_tree.specs.Tree.{ItemTree, RuleTree, Statement, Text};
ghost use Rattle.nft_tree.specs.TreeViews.{item_tree, rule_tree, statement};
ghost use Rattle.rule_names.specs.Names.{jumps_to_base_chain, jumps_to_unknown_chain, refers_to_unknown_set};
ghost use Rattle.rule_names.specs.steps.NameFaults.{has_fault, names_of_item, names_of_rule, names_of_statement, table_has_fault};

use crate::references::statement_refers_to_unknown_set;
use crate::table::TableNames;
use crate::targets::TargetTest;
use nft_tree::{Item, MapDecl, Rule, Stmt};

/// A fault that a name may have.
#[derive(Clone, Copy)]
pub(crate) enum NameFault {
    /// The target of a jump or goto passes the test.
    Target(TargetTest),
    /// A reference (`@name`) is to no set or map.
    UnknownSet,
}

/// A part of a table, in which such names stand.
trait HasNames: Drop {
    ghost use Rattle.rule_names.specs.declared.name_faults.NameFault.{NameFault};

    ghost Tree: { Type 0 };

    /// The model: what contracts speak of.
    ghost tree: { Self → Tree };

    /// The names that may have the fault.
    ghost names_of: { NameFault → Tree → List Text };

    /// Whether one of its names has the fault.
    fn has_fault(&self, fault: NameFault, names: &TableNames) -> bool
        ensures { result ≡ list_any (has_fault fault names.now)
            (names_of fault (tree self.now)) };
}

fn any_has_fault<T: HasNames>(items: &[T], fault: NameFault, names: &TableNames) -> bool
    ensures { result ≡ list_any (has_fault fault names.now)
        (flat_map (T.names_of fault) (map T.tree items.now)) }
{
    for item in items {
        if item.has_fault(fault, names) {
            return true;
        }
    }
    false
}

impl HasNames for Stmt {
    ghost Tree = { Statement };

    ghost tree = { statement };

    ghost names_of = { names_of_statement };

    fn has_fault(&self, fault: NameFault, names: &TableNames) -> bool {
        match fault {
            NameFault::Target(test) => test.of_statement(names, self),
            NameFault::UnknownSet => statement_refers_to_unknown_set(names, self),
        }
    }
}

impl HasNames for Rule {
    ghost Tree = { RuleTree };

    ghost tree = { rule_tree };

    ghost names_of = { names_of_rule };

    fn has_fault(&self, fault: NameFault, names: &TableNames) -> bool {
        any_has_fault(&self.statements, fault, names)
    }
}

impl HasNames for Item {
    ghost Tree = { ItemTree };

    ghost tree = { item_tree };

    ghost names_of = { names_of_item };

    /// In the rules of a chain, or the data of a map, also if no rule uses the map.
    fn has_fault(&self, fault: NameFault, names: &TableNames) -> bool {
        match (self, fault) {
            (Item::Chain(chain), _) => any_has_fault(&chain.rules, fault, names),
            (
                Item::Map(
                    MapDecl {
                        elements: Some(pairs),
                        ..
                    },
                ),
                NameFault::Target(test),
            ) => test.of_pairs(names, pairs),
            _ => false,
        }
    }
}

fn table_has_fault(names: &TableNames, fault: NameFault) -> bool
    ensures { result ≡ table_has_fault fault names.now }
{
    any_has_fault(&names.table().items, fault, names)
}

fn some_table_has_fault(names: &[TableNames], fault: NameFault) -> bool
    ensures { result ≡ list_any (table_has_fault fault) names.now }
{
    for table in names {
        if table_has_fault(table, fault) {
            return true;
        }
    }
    false
}

/// Whether a rule or a map element jumps or goes to a name that is no chain of its table (N02).
pub fn jumps_to_unknown_chain(names: &[TableNames]) -> bool
    ensures { result ≡ list_any jumps_to_unknown_chain names.now }
{
    some_table_has_fault(names, NameFault::Target(TargetTest::IsNoChain))
}

/// Whether a rule or a map element jumps or goes to a base chain (N07).
pub fn jumps_to_base_chain(names: &[TableNames]) -> bool
    ensures { result ≡ list_any jumps_to_base_chain names.now }
{
    some_table_has_fault(names, NameFault::Target(TargetTest::IsBaseChain))
}

/// Whether a rule refers by `@` to a name that is no set or map of its table (N03).
pub fn refers_to_unknown_set(names: &[TableNames]) -> bool
    ensures { result ≡ list_any refers_to_unknown_set names.now }
{
    some_table_has_fault(names, NameFault::UnknownSet)
}
