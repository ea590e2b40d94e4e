//! Chains and statements by their numbers, and the report's words.
ghost use Rattle.std.specs.Prelude.{◌≡◌, ◌++◌};
ghost use Rattle.std.specs.Option.{option_map};
ghost use Rattle.nft_tree.specs.TreeViews as tree;
ghost use Rattle.nft_tree.specs.TreeViews.{chain_tree, rule_tree, table_tree, tables_of};
ghost use Rattle.nft_tree.specs.TableItems.{numbered_from_one};
ghost use Rattle.report.specs.Report as words;
ghost use Rattle.report.specs.Report.{and_word, chain_at, verdict_words, prefix_in};
ghost use Rattle.report.specs.steps.Paging.{piece_text};

use crate::piece::Piece;
use history::Outcome;
use nft_tree::{Chain, Family, Policy, Rule, Ruleset, Stmt, Table};
use rule_meaning::{NatAction, RuleVerdict, StatementPosition};

/// A chain and its table.
#[derive(Clone, Copy)]
pub struct ChainInTable<'a> {
    pub table: &'a Table,
    pub chain: &'a Chain,
}

/// The chain of this table and chain number, both from 0.
pub fn find(rules: &Ruleset, table: u32, chain: u32) -> Option<ChainInTable<'_>>
    ensures { option_map (λ n. (table_tree n.table.now, chain_tree n.chain.now)) result
        ≡ chain_at (tables_of rules.now) table chain }
{
    let table = rules.tables.get(table as usize)?;
    let chain = table.chain(chain as usize)?;
    Some(ChainInTable { table, chain })
}

/// The rule's statement of this number, from 1.
fn statement(rule: &Rule, number: usize) -> Option<&Stmt>
    ensures { option_map (λ s. tree.statement s.now) result
        ≡ numbered_from_one (rule_tree rule.now).statements number }
{
    if number == 0 {
        return None;
    }
    rule.statements.get(number - 1)
}

/// The chain's statement at a position.
fn statement_at(chain: &Chain, position: StatementPosition) -> Option<&Stmt>
    ensures { option_map (λ s. tree.statement s.now) result
        ≡ words.statement_at (chain_tree chain.now) position }
{
    statement(
        chain.rule(position.rule.rule as usize)?,
        position.statement as usize,
    )
}

/// A blank and the prefix of the log statement at a position; nothing where it has none.
pub fn prefix(chain: &Chain, position: StatementPosition) -> Piece<'_>
    ensures { piece_text result ≡ prefix_in (words.statement_at (chain_tree chain.now) position) }
{
    match statement_at(chain, position) {
        Some(Stmt::Log(Some(prefix))) => Piece::Word(prefix),
        _ => Piece::Text(b""),
    }
}

/// The name of the table's chain of this number, from 0; nothing where there is none.
fn target(table: &Table, chain: u32) -> &[u8]
    ensures { result.now ≡ words.target (table_tree table.now) chain }
{
    match table.chain(chain as usize) {
        Some(chain) => &chain.name,
        None => b"",
    }
}

/// The word of a verdict, and the name of the chain that it goes to.
pub fn verdict_pieces(table: &Table, verdict: RuleVerdict) -> (Piece<'_>, Piece<'_>)
    ensures { piece_text result.0 ++ piece_text result.1
        ≡ and_word (verdict_words (table_tree table.now) verdict) }
{
    let word: &[u8] = match verdict {
        RuleVerdict::Accept => b"accept",
        RuleVerdict::Drop => b"drop",
        RuleVerdict::Continue => b"continue",
        RuleVerdict::Return => b"return",
        RuleVerdict::Jump(chain) => return (
            Piece::Word(b"jump"),
            Piece::Word(target(table, chain)),
        ),
        RuleVerdict::Goto(chain) => return (
            Piece::Word(b"goto"),
            Piece::Word(target(table, chain)),
        ),
        RuleVerdict::Translate(nat_action) => nat_word(nat_action),
    };
    (Piece::Word(word), Piece::Text(b""))
}

fn nat_word(nat_action: NatAction) -> &'static [u8]
    ensures { result.now ≡ words.nat_word nat_action }
{
    match nat_action {
        NatAction::Source(_, _) => b"snat",
        NatAction::Destination(_, _) => b"dnat",
        NatAction::Masquerade(_) => b"masquerade",
        NatAction::Redirect(_) => b"redirect",
    }
}

pub fn family_word(family: Family) -> &'static [u8]
    ensures { result.now ≡ words.family_word family }
{
    match family {
        Family::Ip => b"ip",
        Family::Inet => b"inet",
    }
}

pub fn policy_word(policy: Policy) -> &'static [u8]
    ensures { result.now ≡ words.policy_word policy }
{
    match policy {
        Policy::Accept => b"accept",
        Policy::Drop => b"drop",
    }
}

pub fn outcome_word(outcome: Outcome) -> &'static [u8]
    ensures { result.now ≡ words.outcome_word outcome }
{
    match outcome {
        Outcome::Passed(_) => b"passed",
        Outcome::Local => b"local",
        Outcome::Dropped(cause) => cause.report_word().as_bytes(),
    }
}
