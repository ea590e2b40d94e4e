//! The numbers of declarations and parts. Sums saturate at `usize::MAX`, which no text reaches.
ghost use Rattle.std.specs.Prelude.{◌≡◌, min};
ghost use Rattle.nft_tree.specs.TreeViews.{item_tree, map_ref_tree, rule_tree, set_ref_tree, statement, table_tree, tables_of};
ghost use Rattle.rule_check.specs.Limits.{map_ref_elements, set_ref_elements, statement_elements};
ghost use Rattle.fault_nodes.specs.Parts.{declarations, item_parts, rule_parts, ruleset_parts, statement_parts};
ghost use Rattle.fault_nodes.specs.Parts.{table_declarations, table_parts};

use nft_tree::{
    DestinationTarget, Item, MapLookup, MapRef, Match, Nat, Operand, Rule, Ruleset, SetRef,
    SourceTarget, Stmt, Table, sum,
};

/// The tables of a ruleset and their items.
pub fn declarations(tree: &Ruleset) -> usize
    ensures { result ≡ min (declarations (tables_of tree.now)) usize.MAX }
{
    sum(&tree.tables, table_declarations)
}

/// The table and its items.
pub fn table_declarations(table: &Table) -> usize
    ensures { result ≡ min (table_declarations (table_tree table.now)) usize.MAX }
{
    table.items.len().saturating_add(1)
}

/// The rules, statements and elements of a ruleset.
pub fn ruleset_parts(tree: &Ruleset) -> usize
    ensures { result ≡ min (ruleset_parts (tables_of tree.now)) usize.MAX }
{
    sum(&tree.tables, table_parts)
}

/// The rules, statements and elements of a table.
pub fn table_parts(table: &Table) -> usize
    ensures { result ≡ min (table_parts (table_tree table.now)) usize.MAX }
{
    sum(&table.items, item_parts)
}

/// The rules, statements and elements of a chain, or the elements of a set or map.
pub fn item_parts(item: &Item) -> usize
    ensures { result ≡ min (item_parts (item_tree item.now)) usize.MAX }
{
    match item {
        Item::Comment(_) => 0,
        Item::Chain(chain) => sum(&chain.rules, rule_parts),
        Item::Set(set) => set.elements.as_ref().map_or(0, Vec::len),
        Item::Map(map) => map.elements.as_ref().map_or(0, Vec::len),
    }
}

/// The rule, its statements and their elements.
pub fn rule_parts(rule: &Rule) -> usize
    ensures { result ≡ min (rule_parts (rule_tree rule.now)) usize.MAX }
{
    sum(&rule.statements, statement_parts).saturating_add(1)
}

/// The statement and the elements of its anonymous set or map.
pub fn statement_parts(stmt: &Stmt) -> usize
    ensures { result ≡ min (statement_parts (statement stmt.now)) usize.MAX }
{
    statement_elements(stmt).saturating_add(1)
}

/// The elements of the anonymous set or map in a statement.
fn statement_elements(stmt: &Stmt) -> usize
    ensures { result ≡ min (statement_elements (statement stmt.now)) usize.MAX }
{
    match stmt {
        Stmt::Match(Match::In(_, set) | Match::NotIn(_, set)) => set_ref_elements(set),
        Stmt::VerdictMap(_, map)
        | Stmt::SetMark(_, Operand::MapLookup(MapLookup { map, .. }))
        | Stmt::Nat(
            Nat::Source(SourceTarget::MapLookup(MapLookup { map, .. }))
            | Nat::Destination(DestinationTarget::MapLookup(MapLookup { map, .. })),
        ) => map_ref_elements(map),
        _ => 0,
    }
}

fn set_ref_elements(set: &SetRef) -> usize
    ensures { result ≡ set_ref_elements (set_ref_tree set.now) }
{
    match set {
        SetRef::Named(_) => 0,
        SetRef::Anonymous(elements) => elements.len(),
    }
}

fn map_ref_elements(map: &MapRef) -> usize
    ensures { result ≡ map_ref_elements (map_ref_tree map.now) }
{
    match map {
        MapRef::Named(_) => 0,
        MapRef::Anonymous(pairs) => pairs.len(),
    }
}
