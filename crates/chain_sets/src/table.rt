//! The table whose chains packets go through.
ghost use Rattle.std.specs.Prelude.{◌≡◌, map};
ghost use Rattle.nft_tree.specs.TreeViews.{rule_tree};
ghost use Rattle.chain_sets.specs.steps.Rules.{rules_in};

use fact_sets::Interfaces;
use nft_tree::Rule;
use rule_names::TableNames;
use rule_sets::Setting;

/// A table whose chains packets go through, its number, and the box's interfaces.
#[derive(Clone, Copy)]
pub(crate) struct TableSetting<'a, 't> {
    pub(crate) number: u32,
    pub(crate) setting: Setting<'a, 't>,
    pub(crate) interfaces: &'a Interfaces,
}

/// The rules of a chain of the table, by its index. A chain that isn't there has none.
pub(crate) fn rules_of<'t>(names: &TableNames<'t>, chain: u32) -> &'t [Rule]
    ensures { map rule_tree result.now ≡ rules_in names.now chain }
{
    match names.chains().get(chain as usize) {
        Some(chain) => &chain.rules,
        None => &[],
    }
}
