//! Chains of type nat on hooks or with priorities that they may not have (N11).
ghost use Rattle.std.specs.Prelude.{◌≡◌};
ghost use Rattle.std.specs.List.{list_any};
ghost use Rattle.std.specs.Option.{option_map};
ghost use Rattle.nft_tree.specs.TreeViews.{head_tree, item_tree, tables_of};
ghost use Rattle.rule_check.specs.Chains.{has_misplaced_chain, head_is_misplaced, is_nat, is_without_nat, item_is_misplaced};

use nft_tree::{ChainKind, Head, Hook, Item, Ruleset, any};

/// The priority of connection tracking (NF_IP_PRI_CONNTRACK). Chains of type nat must be above it.
const TRACKING_PRIORITY: i128 = -200;

/// Whether a chain of type nat is on input or forward, or has a priority of at most -200.
pub(crate) fn has_misplaced_chain(tree: &Ruleset) -> bool
    ensures { result ≡ list_any has_misplaced_chain (tables_of tree.now) }
{
    any(&tree.tables, |table| any(&table.items, item_is_misplaced))
}

fn item_is_misplaced(item: &Item) -> bool
    ensures { result ≡ item_is_misplaced (item_tree item.now) }
{
    match item {
        Item::Chain(chain) => head_is_misplaced(&chain.head),
        _ => false,
    }
}

fn head_is_misplaced(head: &Option<Head>) -> bool
    ensures { result ≡ head_is_misplaced (option_map head_tree head.now) }
{
    match head {
        Some(head) => {
            is_nat(head.kind)
                && (is_without_nat(head.hook) || head.priority.number() <= TRACKING_PRIORITY)
        }
        None => false,
    }
}

fn is_nat(kind: ChainKind) -> bool
    ensures { result ≡ is_nat kind }
{
    matches!(kind, ChainKind::Nat)
}

/// Whether chains of type nat are not allowed on the hook.
fn is_without_nat(hook: Hook) -> bool
    ensures { result ≡ is_without_nat hook }
{
    matches!(hook, Hook::Input | Hook::Forward)
}
