//! The parts of statements, rules, items and tables.
ghost use Rattle.std.specs.Prelude.{◌≡◌, ℕ, map, slice_range, IfOk};
ghost use Rattle.std.specs.Option.{option_map};
ghost use Rattle.nft_tree.specs.Tree as item;
ghost use Rattle.nft_tree.specs.Tree.{ItemTree, RuleTree, Statement, TableTree};
ghost use Rattle.nft_tree.specs.TreeViews.{item_tree, map_tree, rule_tree, set_tree, statement, table_tree};
ghost use Rattle.fault_nodes.specs.ReadParts.{item_between, rule_between, statement_between, table_between};
ghost use Rattle.fault_nodes.specs.Parts.{item_parts, rule_parts, statement_parts, table_parts};

use crate::counting::{item_parts, rule_parts, statement_parts, table_parts};
use crate::elements::statement_with;
use crate::lists::{PartNode, all_with_parts_between, nodes_between, parts_between};
use nft_tree::{Chain, Item, MapDecl, Rule, SetDecl, Stmt, Table, TreeNode};
use std::alloc::{AllocError, Global};

impl PartNode for Stmt {
    ghost Tree = { Statement };

    ghost tree = { statement };

    ghost parts_of = { statement_parts };

    ghost cut = { statement_between };

    fn parts(&self) -> usize {
        statement_parts(self)
    }

    fn between(&self, alloc: Global, from: usize, to: usize) -> Result<Stmt, AllocError> {
        statement_with(alloc, self, from.saturating_sub(1), to.saturating_sub(1))
    }
}

impl PartNode for Rule {
    ghost Tree = { RuleTree };

    ghost tree = { rule_tree };

    ghost parts_of = { rule_parts };

    ghost cut = { rule_between };

    fn parts(&self) -> usize {
        rule_parts(self)
    }

    fn between(&self, alloc: Global, from: usize, to: usize) -> Result<Rule, AllocError> {
        Ok(Rule {
            statements: parts_between(
                alloc,
                &self.statements,
                from.saturating_sub(1),
                to.saturating_sub(1),
            )?,
            comment: self.comment.try_clone()?,
        })
    }
}

impl PartNode for Item {
    ghost Tree = { ItemTree };

    ghost tree = { item_tree };

    ghost parts_of = { item_parts };

    ghost cut = { item_between };

    fn parts(&self) -> usize {
        item_parts(self)
    }

    fn between(&self, alloc: Global, from: usize, to: usize) -> Result<Item, AllocError> {
        Ok(match self {
            Item::Comment(text) => Item::Comment(text.clone()?),
            Item::Chain(chain) => Item::Chain(Chain {
                name: chain.name.clone()?,
                notes: chain.notes.try_clone()?,
                head: chain.head.try_clone()?,
                rules: parts_between(alloc, &chain.rules, from, to)?,
            }),
            Item::Set(set) => Item::Set(set_with(alloc, set, from, to)?),
            Item::Map(map) => Item::Map(map_with(alloc, map, from, to)?),
        })
    }
}

impl PartNode for Table {
    ghost Tree = { TableTree };

    ghost tree = { table_tree };

    ghost parts_of = { table_parts };

    ghost cut = { table_between };

    fn parts(&self) -> usize {
        table_parts(self)
    }

    fn between(&self, alloc: Global, from: usize, to: usize) -> Result<Table, AllocError> {
        Ok(Table {
            family: self.family,
            name: self.name.clone()?,
            items: all_with_parts_between(alloc, &self.items, from, to)?,
        })
    }
}

/// The set with its elements `from..to`.
fn set_with(alloc: Global, set: &SetDecl, from: usize, to: usize) -> Result<SetDecl, AllocError>
    ensures { IfOk result (λ copy. item.set (set_tree copy)
        ≡ item_between from to (item.set (set_tree set.now))) }
{
    Ok(SetDecl {
        name: set.name.clone()?,
        key: set.key.try_clone()?,
        flags: set.flags.clone()?,
        size: set.size,
        auto_merge: set.auto_merge,
        comment: set.comment.clone()?,
        elements: listed_between(alloc, &set.elements, from, to)?,
    })
}

/// The map with its elements `from..to`.
fn map_with(alloc: Global, map: &MapDecl, from: usize, to: usize) -> Result<MapDecl, AllocError>
    ensures { IfOk result (λ copy. item.map_item (map_tree copy)
        ≡ item_between from to (item.map_item (map_tree map.now))) }
{
    Ok(MapDecl {
        name: map.name.clone()?,
        types: map.types,
        flags: map.flags.clone()?,
        size: map.size,
        auto_merge: map.auto_merge,
        comment: map.comment.clone()?,
        elements: listed_between(alloc, &map.elements, from, to)?,
    })
}

/// The nodes `from..to`, if any are listed.
fn listed_between<T: TreeNode>(
    alloc: Global,
    nodes: &Option<Vec<T>>,
    from: usize,
    to: usize,
) -> Result<Option<Vec<T>>, AllocError>
    ensures { IfOk result (λ copy. option_map (λ v. map T.tree v.items) copy
        ≡ option_map (λ xs. slice_range xs from to) (option_map (λ v. map T.tree v.items) nodes.now)) }
{
    Ok(match nodes {
        Some(nodes) => Some(nodes_between(alloc, nodes, from, to)?),
        None => None,
    })
}
