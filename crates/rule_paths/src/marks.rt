//! Marks the chains that have NAT statements.
ghost use Rattle.std.specs.Prelude.{◌≡◌, ◌≤◌, length, IfOk, Some};
ghost use Rattle.std.specs.List.{list_any};
ghost use Rattle.nft_tree.specs.TreeViews.{chain_tree, rule_tree, statement};
ghost use Rattle.nft_tree.specs.TableItems.{chains_of};
ghost use Rattle.rule_paths.specs.Paths.{chain_has};
ghost use Rattle.rule_paths.specs.steps.Index.{marks_of, translates};

use nft_tree::{Chain, Nat, Rule, Stmt};
use rule_names::TableNames;
use std::alloc::{AllocError, Global};

/// Whether the source or the destination is translated.
#[derive(Clone, Copy)]
pub(crate) enum NatKind {
    /// `snat`, `masquerade`.
    Source,
    /// `dnat`, `redirect`.
    Destination,
}

/// Whether the statement is a NAT statement of this kind.
fn translates(stmt: &Stmt, kind: NatKind) -> bool
    ensures { result ≡ translates kind (statement stmt.now) }
{
    match (stmt, kind) {
        (Stmt::Nat(Nat::Source(_) | Nat::Masquerade(_)), NatKind::Source) => true,
        (Stmt::Nat(Nat::Destination(_) | Nat::Redirect(_)), NatKind::Destination) => true,
        _ => false,
    }
}

/// Whether the rule has a NAT statement of this kind.
fn rule_translates(rule: &Rule, kind: NatKind) -> bool
    ensures { result ≡ list_any (translates kind) (rule_tree rule.now).statements }
{
    rule.statements.iter().any(|stmt| translates(stmt, kind))
}

/// Whether the chain has a NAT statement of this kind.
fn chain_translates(chain: &Chain, kind: NatKind) -> bool
    ensures { result ≡ chain_has (translates kind) (Some (chain_tree chain.now)) }
{
    chain.rules.iter().any(|rule| rule_translates(rule, kind))
}

/// For each of `nodes` nodes, whether it has a NAT statement of this kind. Only chains have.
pub(crate) fn marks(
    alloc: Global,
    names: &TableNames,
    nodes: usize,
    kind: NatKind,
) -> Result<Vec<bool>, AllocError>
    requires { length (chains_of names.now) ≤ nodes }
    ensures { IfOk result (λ marks. marks.items ≡ marks_of (translates kind) nodes names.now) }
{
    let chains = names.chains();
    let mut marks = Vec::with_capacity(alloc, nodes)?;
    for chain in chains {
        marks.push(chain_translates(chain, kind))?;
    }
    marks.resize(nodes, false)?;
    Ok(marks)
}
