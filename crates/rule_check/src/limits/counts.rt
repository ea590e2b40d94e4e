//! The numbers of rules and chains. Sums saturate at `usize::MAX`, which no text reaches.
ghost use Rattle.std.specs.Prelude.{◌≡◌, min};
ghost use Rattle.nft_tree.specs.TreeViews.{item_tree, tables_of};
ghost use Rattle.rule_check.specs.Limits.{chain_count, item_chains, item_rules, rule_count};

use nft_tree::{Item, Ruleset, sum};

/// The number of rules in all chains.
pub fn rule_count(tree: &Ruleset) -> usize
    ensures { result ≡ min (rule_count (tables_of tree.now)) usize.MAX }
{
    sum(&tree.tables, |table| sum(&table.items, item_rules))
}

fn item_rules(item: &Item) -> usize
    ensures { result ≡ min (item_rules (item_tree item.now)) usize.MAX }
{
    match item {
        Item::Chain(chain) => chain.rules.len(),
        _ => 0,
    }
}

/// The number of chains in all tables.
pub fn chain_count(tree: &Ruleset) -> usize
    ensures { result ≡ min (chain_count (tables_of tree.now)) usize.MAX }
{
    sum(&tree.tables, |table| sum(&table.items, item_chains))
}

fn item_chains(item: &Item) -> usize
    ensures { result ≡ min (item_chains (item_tree item.now)) usize.MAX }
{
    match item {
        Item::Chain(_) => 1,
        _ => 0,
    }
}
