//! Statements (nft(8), "Statements").
ghost use Rattle.std.specs.Prelude.{IfOk};
ghost use Rattle.nft_tree.specs.Tree.{Statement, matching};
ghost use Rattle.nft_tree.specs.TreeViews.{statement};
ghost use Rattle.token_reader.specs.Grammar.{made, ◌∣◌};
ghost use Rattle.token_reader.specs.Readers.{IsRead};
ghost use Rattle.nft_rules.specs.Matches as matches;
ghost use Rattle.nft_rules.specs.Rules as rules;

use crate::counters::{counter, log, notrack};
use crate::marks::{mark_field, operand};
use crate::matches::match_after;
use crate::nat::nat;
use nft_expressions::{anysel, map_ref, verdict};
use nft_lexer::Token;
use nft_tree::{Memory, Stmt};
use std::alloc::Global;
use token_reader::{Production, after_word, found, word};

/// ("meta" | "ct") "mark" "set" operand | anysel "vmap" mapref | match
///
/// The selector is read once; the tokens after it decide the rest.
#[tactic(auto, unfolding(crate::specs::Rules::set_mark, crate::specs::Rules::verdict_map, crate::specs::steps::Reading::matches))]
fn selector_statement(
    alloc: Global,
    tokens: &[Token],
    at: usize,
) -> Result<Option<(Stmt, usize)>, Memory>
    ensures { IfOk result (IsRead statement
        (rules.set_mark ∣ rules.verdict_map ∣ made matching matches.matching).read tokens.now at) }
{
    let (selector, at) = found!(anysel(tokens, at));
    if let Some(after) = after_word(tokens, at, b"set")
        && let Some(mark) = mark_field(selector)
        && let Some((operand, end)) = operand(alloc, tokens, after)?
    {
        return Ok(Some((Stmt::SetMark(mark, operand), end)));
    }
    if let Some(after) = after_word(tokens, at, b"vmap")
        && let Some((map, end)) = map_ref(alloc, tokens, after)?
    {
        return Ok(Some((Stmt::VerdictMap(selector, map), end)));
    }
    let (found, end) = found!(match_after(alloc, tokens, at, selector)?);
    Ok(Some((Stmt::Match(found), end)))
}

/// stmt = counter | log | notrack | verdict | nat | setmark | vmap | match
pub struct AnyStatement;

impl Production for AnyStatement {
    type Item = Stmt;

    ghost Tree = { Statement };

    ghost tree = { statement };

    ghost read_at = { rules.statement.read };

    #[tactic(auto, using(crate::specs::steps::Laws::no_statement), unfolding(crate::specs::Rules::statement))]
    fn read(alloc: Global, tokens: &[Token], at: usize) -> Result<Option<(Stmt, usize)>, Memory> {
        // Without a word, as at the end of a rule, no keyword is tried.
        found!(word(tokens, at));
        if let Some(found) = counter(tokens, at) {
            return Ok(Some(found));
        }
        if let Some(found) = log(alloc, tokens, at)? {
            return Ok(Some(found));
        }
        if let Some(found) = notrack(tokens, at) {
            return Ok(Some(found));
        }
        if let Some((found, end)) = verdict(alloc, tokens, at)? {
            return Ok(Some((Stmt::Verdict(found), end)));
        }
        if let Some((found, end)) = nat(alloc, tokens, at)? {
            return Ok(Some((Stmt::Nat(found), end)));
        }
        selector_statement(alloc, tokens, at)
    }
}
