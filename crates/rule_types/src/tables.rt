//! Type checking of tables.
ghost use Rattle.std.specs.Prelude.{◌≡◌, Bool, map};
ghost use Rattle.std.specs.List.{list_any};
ghost use Rattle.nft_tree.specs.Tree.{ItemTree, RuleTree, Statement, TableTree};
ghost use Rattle.nft_tree.specs.TreeViews.{item_tree, rule_tree, statement};
ghost use Rattle.rule_types.specs.Types.{item_mismatches, rule_mismatches, statement_mismatches, table_mismatches};

use crate::keys::set_mismatches;
use crate::maps::map_mismatches;
use crate::statements::statement_mismatches;
use nft_tree::{Item, Rule, Stmt};
use rule_names::TableNames;

/// Whether some types of the ruleset don't match (N08): a set or map with another key type than its
/// selector; a map for a set or the reverse; verdicts for values or the reverse; map data that
/// isn't a mark (in `mark set`) or an address (in `snat`, `dnat`); an order or a range of a type
/// without it; a concatenation over 128 bits, or with another number of parts than its set.
pub fn has_type_mismatch(names: &[TableNames]) -> bool
    ensures { result ≡ list_any table_mismatches names.now }
{
    for table in names {
        if table_mismatches(table) {
            return true;
        }
    }
    false
}

fn table_mismatches(names: &TableNames) -> bool
    ensures { result ≡ table_mismatches names.now }
{
    any_mismatches(&names.table().items, names)
}

/// A part of a table, in which types are to match.
trait Typed: Drop {
    ghost Tree: { Type 0 };

    /// The model: what contracts speak of.
    ghost tree: { Self → Tree };

    ghost mismatches_in: { TableTree → Tree → Bool };

    fn mismatches(&self, names: &TableNames) -> bool
        ensures { result ≡ mismatches_in names.now (tree self.now) };
}

fn any_mismatches<T: Typed>(parts: &[T], names: &TableNames) -> bool
    ensures { result ≡ list_any (T.mismatches_in names.now) (map T.tree parts.now) }
{
    for part in parts {
        if part.mismatches(names) {
            return true;
        }
    }
    false
}

impl Typed for Item {
    ghost Tree = { ItemTree };

    ghost tree = { item_tree };

    ghost mismatches_in = { item_mismatches };

    fn mismatches(&self, names: &TableNames) -> bool {
        match self {
            Item::Chain(chain) => any_mismatches(&chain.rules, names),
            Item::Set(set) => set_mismatches(set),
            Item::Map(map) => map_mismatches(map),
            Item::Comment(_) => false,
        }
    }
}

impl Typed for Rule {
    ghost Tree = { RuleTree };

    ghost tree = { rule_tree };

    ghost mismatches_in = { rule_mismatches };

    fn mismatches(&self, names: &TableNames) -> bool {
        any_mismatches(&self.statements, names)
    }
}

impl Typed for Stmt {
    ghost Tree = { Statement };

    ghost tree = { statement };

    ghost mismatches_in = { statement_mismatches };

    fn mismatches(&self, names: &TableNames) -> bool {
        statement_mismatches(names, self)
    }
}
