//! The names of a ruleset, indexed once: they last beside the ruleset.
ghost use Rattle.std.specs.Prelude.{◌≡◌, ◌↔◌, List, [], ◌∷◌, ◌++◌, All, IsTrue, map, IfOk, IfSome, MatchOption};
ghost use Rattle.nft_tree.specs.Tree.{ItemTree};
ghost use Rattle.nft_tree.specs.TreeViews.{item_tree, table_tree, tables_of};
ghost use Rattle.rule_names.specs.Names.{DuplicateName, HasDuplicate, table_names};
ghost use Rattle.rule_names.specs.Indexed.{names_in};
ghost use Rattle.rule_names.specs.steps.Table.{AreIndexed, HasDuplicateIn, HasUniqueNames, IsIndexOf, IsIndexOrDuplicate};

use crate::index::NameIndex;
use crate::table::TableNames;
use nft_tree::{Family, Item, Ruleset, Table};
use std::alloc::{AllocError, Global};
use std::marker::Model;

/// The names of a table's chains, sets and maps, each with its index among its kind.
pub struct ItemNames {
    pub(crate) chains: NameIndex,
    pub(crate) sets: NameIndex,
    pub(crate) maps: NameIndex,
}

// Written out, so that dropping one is a call.
impl Drop for ItemNames {
    fn drop(self) {
        let ItemNames {
            chains: _,
            sets: _,
            maps: _,
        } = self;
    }
}

impl ItemNames {
    /// Indexes the names of items; `None` if one is declared twice.
    fn of(alloc: Global, items: &[Item]) -> Result<Option<ItemNames>, AllocError>
        ensures { IfOk result (λ o. MatchOption o (HasDuplicateIn (map item_tree items.now))
            (IsIndexOf (map item_tree items.now))) }
    {
        let mut names = ItemNames {
            chains: NameIndex::new(alloc),
            sets: NameIndex::new(alloc),
            maps: NameIndex::new(alloc),
        };
        for item in items {
            if !names.add(alloc, item)? {
                return Ok(None);
            }
        }
        Ok(Some(names))
    }

    /// Adds the name of an item at the end; false if it is taken. Sets and maps share a namespace.
    fn add(&mut self, alloc: Global, item: &Item) -> Result<bool, AllocError>
        ensures { (items : List ItemTree) → IsIndexOf items self.old
            → IfOk result (IsIndexOrDuplicate (items ++ item_tree item.now ∷ []) self.new) }
    {
        match item {
            Item::Comment(_) => Ok(true),
            Item::Chain(chain) => self.chains.add(alloc, &chain.name),
            Item::Set(set) => self.sets.add_apart(alloc, &set.name, &self.maps),
            Item::Map(map) => self.maps.add_apart(alloc, &map.name, &self.sets),
        }
    }
}

/// Whether two tables of the family have the same name.
fn has_duplicate_table(alloc: Global, tables: &[Table], family: Family) -> Result<bool, AllocError>
    ensures { IfOk result (λ duplicate. IsTrue duplicate
        ↔ HasDuplicate (table_names family (map table_tree tables.now))) }
{
    let mut names = NameIndex::new(alloc);
    for table in tables {
        if table.family == family {
            if !names.add(alloc, &table.name)? {
                return Ok(true);
            }
        }
    }
    Ok(false)
}

/// Indexes each table; `None` if a name is declared twice within one.
fn names_in_each(alloc: Global, tables: &[Table]) -> Result<Option<Vec<ItemNames>>, AllocError>
    ensures { IfOk result (λ o. MatchOption o (DuplicateName (map table_tree tables.now))
        (λ names. AreIndexed (map table_tree tables.now) names.items)) }
{
    let mut names = Vec::with_capacity(alloc, tables.len())?;
    for table in tables {
        let Some(of_table) = ItemNames::of(alloc, &table.items)? else {
            return Ok(None);
        };
        names.push(of_table)?;
    }
    Ok(Some(names))
}

/// The names of a ruleset's chains, sets and maps, by table. They are looked up beside the ruleset
/// that they were read from.
pub struct RulesetNames {
    tables: Vec<ItemNames>,
}

// Written out, so that dropping one is a call.
impl Drop for RulesetNames {
    fn drop(self) {
        let RulesetNames { tables: _ } = self;
    }
}

impl Model for RulesetNames {
    ghost use Rattle.std.specs.Prelude.{List};
    ghost use Rattle.rule_names.specs.declared.ruleset_names.ItemNames.{ItemNames as NamesOfItems};

    ghost Value = { List NamesOfItems };

    ghost view = { λ n. n.tables.items };
}

impl RulesetNames {
    /// Indexes the names of a ruleset. `None` if two tables of one family, two chains of a table,
    /// or two sets or maps of a table have the same name (N01).
    ///
    /// # Errors
    ///
    /// If an allocation fails.
    pub fn of(alloc: Global, tree: &Ruleset) -> Result<Option<RulesetNames>, AllocError>
        ensures names { IfOk result (λ answer. MatchOption answer (DuplicateName (tables_of tree.now))
            (λ names. names ≡ map names_in (tables_of tree.now))) }
        ensures apart { IfOk result (λ answer. IfSome answer (λ _. DuplicateName (tables_of tree.now)
            → ⊥)) }
    {
        if has_duplicate_table(alloc, &tree.tables, Family::Ip)? {
            return Ok(None);
        }
        if has_duplicate_table(alloc, &tree.tables, Family::Inet)? {
            return Ok(None);
        }
        let Some(tables) = names_in_each(alloc, &tree.tables)? else {
            return Ok(None);
        };
        Ok(Some(RulesetNames { tables }))
    }

    /// The tables of the ruleset, with lookup by these names.
    ///
    /// # Errors
    ///
    /// If an allocation fails.
    pub fn tables<'t>(
        &'t self,
        alloc: Global,
        tree: &'t Ruleset,
    ) -> Result<Vec<TableNames<'t>>, AllocError>
        requires names { self.now ≡ map names_in (tables_of tree.now) }
        requires apart { DuplicateName (tables_of tree.now) → ⊥ }
        ensures { IfOk result (λ tables. tables.items ≡ tables_of tree.now) }
    {
        let mut tables = Vec::with_capacity(alloc, tree.tables.len())?;
        for (place, table) in tree.tables.iter().enumerate() {
            tables.push_reserved(TableNames::new(alloc, table, &self.tables[place])?);
        }
        Ok(tables)
    }
}
