//! Statements after one that ends its rule (N14).
ghost use Rattle.std.specs.Prelude.{◌≡◌, map};
ghost use Rattle.std.specs.List.{list_any};
ghost use Rattle.nft_tree.specs.TreeViews.{item_tree, statement, tables_of};
ghost use Rattle.rule_check.specs.Chains.{is_terminal, has_statement_after_terminal, has_unreachable_statement, item_has_unreachable};

use nft_tree::{Item, Ruleset, Stmt, any};

/// Whether some rule has a statement after a verdict, a verdict map or a NAT statement.
pub(crate) fn has_unreachable_statement(tree: &Ruleset) -> bool
    ensures { result ≡ list_any has_unreachable_statement (tables_of tree.now) }
{
    any(
        &tree.tables,
        |table| any(&table.items, item_has_unreachable),
    )
}

fn item_has_unreachable(item: &Item) -> bool
    ensures { result ≡ item_has_unreachable (item_tree item.now) }
{
    match item {
        Item::Chain(chain) => any(
            &chain.rules,
            |rule| has_statement_after_terminal(&rule.statements),
        ),
        _ => false,
    }
}

fn has_statement_after_terminal(statements: &[Stmt]) -> bool
    ensures { result ≡ has_statement_after_terminal (map statement statements.now) }
{
    let mut rest = statements;
    while let [first, others @ ..] = rest {
        if is_terminal(first) && !others.is_empty() {
            return true;
        }
        rest = others;
    }
    false
}

fn is_terminal(stmt: &Stmt) -> bool
    ensures { result ≡ is_terminal (statement stmt.now) }
{
    matches!(stmt, Stmt::Verdict(_) | Stmt::VerdictMap(..) | Stmt::Nat(_))
}
