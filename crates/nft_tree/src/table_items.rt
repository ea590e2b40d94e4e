//! A table's items by kind and number, and the initial values of counters.
ghost use Rattle.std.specs.Prelude.{◌≡◌, slice_get};
ghost use Rattle.std.specs.Option.{option_map};
ghost use Rattle.nft_tree.specs.TreeViews.{chain_tree, item_tree, map_tree, rule_tree, set_tree, statement, table_tree, tables_of};
ghost use Rattle.nft_tree.specs.TableItems.{chain_in, chain_numbered, chains_of, counter_in, map_in, numbered_from_one, rule_numbered, set_in};

use crate::chain::{Chain, Rule};
use crate::ruleset::{Item, RuleNo, Ruleset, Table};
use crate::set::{MapDecl, SetDecl};
use crate::statement::{CounterStart, Stmt};

impl Item {
    /// The chain, if the item is one.
    pub fn chain(&self) -> Option<&Chain>
        ensures { option_map (λ c. chain_tree c.now) result ≡ chain_in (item_tree self.now) }
    {
        match self {
            Item::Chain(chain) => Some(chain),
            _ => None,
        }
    }

    /// The set, if the item is one.
    pub fn set(&self) -> Option<&SetDecl>
        ensures { option_map (λ s. set_tree s.now) result ≡ set_in (item_tree self.now) }
    {
        match self {
            Item::Set(set) => Some(set),
            _ => None,
        }
    }

    /// The map, if the item is one.
    pub fn map(&self) -> Option<&MapDecl>
        ensures { option_map (λ m. map_tree m.now) result ≡ map_in (item_tree self.now) }
    {
        match self {
            Item::Map(map) => Some(map),
            _ => None,
        }
    }
}

impl Table {
    /// The table's chain of this number, counted from 0 in text order.
    pub fn chain(&self, number: usize) -> Option<&Chain>
        ensures { option_map (λ c. chain_tree c.now) result
            ≡ slice_get (chains_of (table_tree self.now)) number }
    {
        let mut left = number;
        for item in &self.items {
            if let Some(chain) = item.chain() {
                if left == 0 {
                    return Some(chain);
                }
                left -= 1;
            }
        }
        None
    }
}

impl Chain {
    /// The chain's rule of this number, counted from 1.
    pub fn rule(&self, number: usize) -> Option<&Rule>
        ensures { option_map (λ r. rule_tree r.now) result
            ≡ numbered_from_one (chain_tree self.now).rules number }
    {
        if number == 0 {
            return None;
        }
        self.rules.get(number - 1)
    }
}

impl Ruleset {
    /// The chain that holds the rule of this number.
    pub fn chain(&self, number: RuleNo) -> Option<&Chain>
        ensures { option_map (λ c. chain_tree c.now) result
            ≡ chain_numbered (tables_of self.now) number }
    {
        self.tables
            .get(number.table as usize)?
            .chain(number.chain as usize)
    }

    /// The rule of this number.
    pub fn rule(&self, number: RuleNo) -> Option<&Rule>
        ensures { option_map (λ r. rule_tree r.now) result
            ≡ rule_numbered (tables_of self.now) number }
    {
        self.chain(number)?.rule(number.rule as usize)
    }
}

impl Stmt {
    /// The initial packets and bytes, if the statement is a counter: zero where none are given.
    pub fn counter(&self) -> Option<CounterStart>
        ensures { result ≡ counter_in (statement self.now) }
    {
        match self {
            Stmt::Counter(Some(start)) => Some(*start),
            Stmt::Counter(None) => Some(CounterStart {
                packets: 0,
                bytes: 0,
            }),
            _ => None,
        }
    }
}
