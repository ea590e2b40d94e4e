//! The size of a ruleset, and its limits.
ghost use Rattle.std.specs.Prelude.{◌≡◌};
ghost use Rattle.nft_tree.specs.TreeViews.{tables_of};
ghost use Rattle.rule_check.specs.Limits.{too_large};

mod counts;
mod elements;
mod starts;

pub use crate::limits::counts::{chain_count, rule_count};
use crate::limits::elements::element_count;
use crate::limits::starts::some_start_too_high;
use nft_tree::Ruleset;

/// The greatest number of rules.
const MOST_RULES: usize = 16_384;

/// The greatest number of elements in all sets and maps.
const MOST_ELEMENTS: usize = 65_536;

/// Whether the ruleset has more than 16,384 rules, more than 65,536 elements in all sets and maps
/// (anonymous ones included), or a counter with initial packets or bytes over 2^62.
pub fn too_large(tree: &Ruleset) -> bool
    ensures { result ≡ too_large (tables_of tree.now) }
{
    rule_count(tree) > MOST_RULES
        || element_count(tree) > MOST_ELEMENTS
        || some_start_too_high(tree)
}
