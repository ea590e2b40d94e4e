//! Tables with lookup of their chains, sets and maps by name.
ghost use Rattle.std.specs.Prelude.{◌≡◌, List, [], ◌∷◌, ◌++◌, is_some, map, IfOk, OnOk};
ghost use Rattle.std.specs.Option.{option_map};
ghost use Rattle.nft_tree.specs.Tree.{ItemTree};
ghost use Rattle.nft_tree.specs.TreeViews.{chain_tree, item_tree, map_tree, set_tree, table_tree};
ghost use Rattle.nft_tree.specs.TableItems.{chains_of, maps_of, sets_of};
ghost use Rattle.rule_names.specs.Names.{HasDuplicate, chain_named, chain_names, is_base_chain};
ghost use Rattle.rule_names.specs.Names.{is_set_or_map, map_named, map_names, index_in, set_named, set_names};
ghost use Rattle.rule_names.specs.Indexed.{names_in};
ghost use Rattle.rule_names.specs.steps.Index.{at_index};
ghost use Rattle.rule_names.specs.steps.Table.{AreListed, HasUniqueNames};

use crate::ruleset_names::ItemNames;
use nft_tree::{Chain, Item, MapDecl, SetDecl, Table};
use std::alloc::{AllocError, Global};
use std::marker::Model;

/// The chains, sets and maps of a table, each in text order.
#[derive(Drop)]
struct Listed<'t> {
    chains: Vec<&'t Chain>,
    sets: Vec<&'t SetDecl>,
    maps: Vec<&'t MapDecl>,
}

impl<'t> Listed<'t> {
    fn of(alloc: Global, items: &'t [Item]) -> Result<Listed<'t>, AllocError>
        ensures { IfOk result (AreListed (map item_tree items.now)) }
    {
        let mut listed = Listed {
            chains: Vec::new(alloc),
            sets: Vec::new(alloc),
            maps: Vec::new(alloc),
        };
        for item in items {
            listed.add(item)?;
        }
        Ok(listed)
    }

    /// Adds the item at the end of its kind.
    fn add(&mut self, item: &'t Item) -> Result<(), AllocError>
        ensures { (items : List ItemTree) → AreListed items self.old
            → OnOk result (AreListed (items ++ item_tree item.now ∷ []) self.new) }
    {
        match item {
            Item::Comment(_) => {}
            Item::Chain(chain) => self.chains.push(chain)?,
            Item::Set(set) => self.sets.push(set)?,
            Item::Map(map) => self.maps.push(map)?,
        }
        Ok(())
    }
}

/// The item at an index that a name may have.
fn at<'t, T>(items: &[&'t T], index: Option<usize>) -> Option<&'t T>
    ensures { result ≡ at_index items.now index }
{
    items.get(index?).copied()
}

/// A table with lookup of its chains, sets and maps by name, in constant time.
#[derive(Drop)]
pub struct TableNames<'t> {
    table: &'t Table,
    names: &'t ItemNames,
    listed: Listed<'t>,
}

impl<'t> Model for TableNames<'t> {
    ghost use Rattle.std.specs.Prelude.{◌≡◌};
    ghost use Rattle.nft_tree.specs.Tree.{TableTree};
    ghost use Rattle.nft_tree.specs.TreeViews.{table_tree};
    ghost use Rattle.rule_names.specs.steps.Table.{IsNamed};

    ghost Value = { TableTree };

    ghost view = { λ n. table_tree n.table.now };

    ghost invariant = { λ n. IsNamed (table_tree n.table.now) n.names.now n.listed };
}

impl<'t> TableNames<'t> {
    /// The table with its names.
    pub(crate) fn new(
        alloc: Global,
        table: &'t Table,
        names: &'t ItemNames,
    ) -> Result<TableNames<'t>, AllocError>
        requires names { names.now ≡ names_in (table_tree table.now) }
        requires apart { HasUniqueNames (table_tree table.now) }
        ensures { IfOk result (λ made. made ≡ table_tree table.now) }
    {
        let listed = Listed::of(alloc, &table.items)?;
        Ok(TableNames {
            table,
            names,
            listed,
        })
    }

    pub fn table(&self) -> &'t Table
        ensures { table_tree result.now ≡ self.now }
    {
        self.table
    }

    /// The chains of the table, in text order.
    pub fn chains(&self) -> &[&'t Chain]
        ensures all { map (λ c. chain_tree c.now) result.now ≡ chains_of self.now }
        ensures apart { HasDuplicate (chain_names self.now) → ⊥ }
    {
        &self.listed.chains
    }

    /// The sets of the table, in text order.
    pub fn sets(&self) -> &[&'t SetDecl]
        ensures all { map (λ s. set_tree s.now) result.now ≡ sets_of self.now }
        ensures apart { HasDuplicate (set_names self.now) → ⊥ }
    {
        &self.listed.sets
    }

    /// The maps of the table, in text order.
    pub fn maps(&self) -> &[&'t MapDecl]
        ensures all { map (λ m. map_tree m.now) result.now ≡ maps_of self.now }
        ensures apart { HasDuplicate (map_names self.now) → ⊥ }
    {
        &self.listed.maps
    }

    /// The index of the chain with that name among the table's chains, from 0.
    pub fn chain_index(&self, name: &[u8]) -> Option<usize>
        ensures { result ≡ index_in name.now (chain_names self.now) }
    {
        self.names.chains.index(name)
    }

    /// The index of the set with that name among the table's sets, from 0.
    pub fn set_index(&self, name: &[u8]) -> Option<usize>
        ensures { result ≡ index_in name.now (set_names self.now) }
    {
        self.names.sets.index(name)
    }

    /// The index of the map with that name among the table's maps, from 0.
    pub fn map_index(&self, name: &[u8]) -> Option<usize>
        ensures { result ≡ index_in name.now (map_names self.now) }
    {
        self.names.maps.index(name)
    }

    /// The set with that name.
    pub fn set(&self, name: &[u8]) -> Option<&'t SetDecl>
        ensures { option_map (λ s. set_tree s.now) result ≡ set_named self.now name.now }
    {
        at(&self.listed.sets, self.names.sets.index(name))
    }

    /// The map with that name.
    pub fn map(&self, name: &[u8]) -> Option<&'t MapDecl>
        ensures { option_map (λ m. map_tree m.now) result ≡ map_named self.now name.now }
    {
        at(&self.listed.maps, self.names.maps.index(name))
    }

    /// The chain with that name.
    fn chain(&self, name: &[u8]) -> Option<&'t Chain>
        ensures found { option_map (λ c. chain_tree c.now) result ≡ chain_named self.now name.now }
        ensures apart { HasDuplicate (chain_names self.now) → ⊥ }
    {
        at(&self.listed.chains, self.names.chains.index(name))
    }

    /// Whether a chain has that name.
    pub(crate) fn has_chain(&self, name: &[u8]) -> bool
        ensures { result ≡ is_some (chain_named self.now name.now) }
    {
        self.names.chains.contains(name)
    }

    /// Whether a base chain has that name.
    pub(crate) fn has_base_chain(&self, name: &[u8]) -> bool
        ensures { result ≡ is_base_chain self.now name.now }
    {
        match self.chain(name) {
            None => false,
            Some(chain) => chain.head.is_some(),
        }
    }

    /// Whether a set or a map has that name.
    pub(crate) fn has_set_or_map(&self, name: &[u8]) -> bool
        ensures { result ≡ is_set_or_map self.now name.now }
    {
        self.names.sets.contains(name) || self.names.maps.contains(name)
    }
}
