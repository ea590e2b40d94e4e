//! The node at a position.
ghost use Rattle.std.specs.Prelude.{◌≡◌, ℕ, ◌+◌, ◌<◌, ◌≤◌, List, None, Some, IfSome, min};
ghost use Rattle.nft_tree.specs.Tree as tree;
ghost use Rattle.nft_tree.specs.Tree.{TableTree};
ghost use Rattle.nft_tree.specs.TreeViews.{item_tree, rule_tree, tables_of};
ghost use Rattle.fault_nodes.specs.Nodes.{IsNode, before_item, before_rule, item_at, position, rule_at};
ghost use Rattle.fault_nodes.specs.Parts.{declarations, item_parts, rule_parts, ruleset_parts};

use crate::counting::{
    declarations, item_parts, rule_parts, ruleset_parts, statement_parts, table_declarations,
    table_parts,
};
use crate::locating::locate;
use crate::nodes::Node;
use nft_tree::{Item, Rule, Ruleset};

/// The node before which `before` declarations and parts are read.
pub fn node_at(tree: &Ruleset, before: usize) -> Node
    requires inside { before < declarations (tables_of tree.now) + ruleset_parts (tables_of tree.now) }
    requires small { before < usize.MAX }
    ensures there { IsNode (tables_of tree.now) result }
    ensures position { position (tables_of tree.now) result ≡ before }
{
    let declared = declarations(tree);
    if before < declared {
        declaration_at(tree, before)
    } else {
        part_at(tree, before - declared)
    }
}

/// The rule, statement or element before which `before` parts are read; `None` if there are no
/// more.
pub fn node_of_part(tree: &Ruleset, before: usize) -> Option<Node>
    ensures there { IfSome result (λ node. IsNode (tables_of tree.now) node
        × (position (tables_of tree.now) node ≡ declarations (tables_of tree.now) + before)) }
    ensures none { result ≡ None → min (ruleset_parts (tables_of tree.now)) usize.MAX ≤ before }
{
    if before < ruleset_parts(tree) {
        Some(part_at(tree, before))
    } else {
        None
    }
}

/// The table or item before which `before` declarations are read.
fn declaration_at(tree: &Ruleset, before: usize) -> Node
    requires inside { before < declarations (tables_of tree.now) }
    requires small { before < usize.MAX }
    ensures there { IsNode (tables_of tree.now) result }
    ensures position { position (tables_of tree.now) result ≡ before }
{
    let spot = locate(&tree.tables, before, table_declarations);
    match spot.rest.checked_sub(1) {
        None => Node::Table { table: spot.index },
        Some(item) => Node::Item {
            table: spot.index,
            item,
        },
    }
}

/// The rule, statement or element before which `before` parts are read.
fn part_at(tree: &Ruleset, before: usize) -> Node
    requires inside { before < ruleset_parts (tables_of tree.now) }
    requires small { before < usize.MAX }
    ensures there { IsNode (tables_of tree.now) result }
    ensures position { position (tables_of tree.now) result
        ≡ declarations (tables_of tree.now) + before }
{
    let table = locate(&tree.tables, before, table_parts);
    let items = &tree.tables[table.index].items;
    let item = locate(items, table.rest, item_parts);
    part_of_item(&items[item.index], table.index, item.index, item.rest)
}

/// The part of the item at this place before which `before` of its parts are read.
fn part_of_item(item: &Item, table: usize, index: usize, before: usize) -> Node
    requires inside { before < item_parts (item_tree item.now) }
    requires small { before < usize.MAX }
    ensures there { (tables : List TableTree) → item_at tables table index ≡ Some (item_tree item.now)
        → IsNode tables result }
    ensures position { (tables : List TableTree)
        → item_at tables table index ≡ Some (item_tree item.now)
        → position tables result ≡ declarations tables + before_item tables table index + before }
{
    match item {
        Item::Chain(chain) => {
            let rule = locate(&chain.rules, before, rule_parts);
            part_of_rule(
                &chain.rules[rule.index],
                RulePlace {
                    table,
                    item: index,
                    rule: rule.index,
                },
                rule.rest,
            )
        }
        _ => Node::Element {
            table,
            item: index,
            element: before,
        },
    }
}

/// The place of a rule.
#[derive(Clone, Copy)]
struct RulePlace {
    table: usize,
    item: usize,
    rule: usize,
}

/// The rule at this place, or its statement or element, before which `before` of its parts are
/// read.
fn part_of_rule(node: &Rule, place: RulePlace, before: usize) -> Node
    requires inside { before < rule_parts (rule_tree node.now) }
    requires small { before < usize.MAX }
    ensures there { (tables : List TableTree)
        → rule_at tables place.table place.item place.rule ≡ Some (rule_tree node.now)
        → IsNode tables result }
    ensures position { (tables : List TableTree)
        → rule_at tables place.table place.item place.rule ≡ Some (rule_tree node.now)
        → position tables result
        ≡ declarations tables + before_rule tables place.table place.item place.rule + before }
{
    let RulePlace { table, item, rule } = place;
    let Some(before) = before.checked_sub(1) else {
        return Node::Rule { table, item, rule };
    };
    let spot = locate(&node.statements, before, statement_parts);
    match spot.rest.checked_sub(1) {
        None => Node::Statement {
            table,
            item,
            rule,
            statement: spot.index,
        },
        Some(element) => Node::AnonymousElement {
            table,
            item,
            rule,
            statement: spot.index,
            element,
        },
    }
}
