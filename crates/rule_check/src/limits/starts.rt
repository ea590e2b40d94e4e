//! The initial values of counters.
ghost use Rattle.std.specs.Prelude.{◌≡◌};
ghost use Rattle.nft_tree.specs.TreeViews.{item_tree, statement, tables_of};
ghost use Rattle.rule_check.specs.Limits.{item_starts_too_high, some_start_too_high, starts_too_high};

use nft_tree::{Item, Ruleset, Stmt, any};

/// The greatest initial value of a counter: from there no run overflows 64 bits.
const GREATEST_START: u64 = 1 << 62;

/// Whether some counter's initial value exceeds the limit.
pub fn some_start_too_high(tree: &Ruleset) -> bool
    ensures { result ≡ some_start_too_high (tables_of tree.now) }
{
    any(
        &tree.tables,
        |table| any(&table.items, item_starts_too_high),
    )
}

fn item_starts_too_high(item: &Item) -> bool
    ensures { result ≡ item_starts_too_high (item_tree item.now) }
{
    match item {
        Item::Chain(chain) => any(&chain.rules, |rule| any(&rule.statements, starts_too_high)),
        _ => false,
    }
}

/// Whether the statement is a counter whose initial packets or bytes exceed the limit.
fn starts_too_high(stmt: &Stmt) -> bool
    ensures { result ≡ starts_too_high (statement stmt.now) }
{
    match stmt {
        Stmt::Counter(Some(start)) => {
            start.packets > GREATEST_START || start.bytes > GREATEST_START
        }
        _ => false,
    }
}
