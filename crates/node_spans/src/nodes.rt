//! Tables, items and rules.
ghost use Rattle.std.specs.Prelude.{◌≡◌, List, IfOk, IsSomeAnd, length};
ghost use Rattle.nft_lexer.specs.TokenViews.{terminals};
ghost use Rattle.nft_tree.specs.Tree as tree;
ghost use Rattle.nft_tree.specs.Tree.{ChainTree, RuleTree, TableTree};
ghost use Rattle.token_reader.specs.Readers.{remaining};
ghost use Rattle.token_reader.specs.Repeats.{Ends, SomeEnds};
ghost use Rattle.nft_rules.specs.Rules.{SpellsEndedRule, ended_rule, statement};
ghost use Rattle.nft_rulesets.specs.Rulesets.{SpellsRuleset, item, table};
ghost use Rattle.node_spans.specs.Spans.{AreSpelled, IsNothing};

use crate::reading::{AnyEnds, NoGap, RuleEnds, ranges};
use crate::token_range::TokenRange;
use nft_lexer::Token;
use nft_rules::AnyStatement;
use nft_rulesets::{AnyTable, EndedRule, TableItem, chain_start, ruleset_start, table_start};
use nft_tree::Memory;
use std::alloc::Global;

/// The ranges of the tables of the ruleset that all of the tokens spell, in text order.
///
/// # Errors
///
/// `Memory` if an allocation was refused.
pub fn tables(alloc: Global, tokens: &[Token]) -> Result<Option<Vec<TokenRange>>, Memory>
    ensures { (tables : List TableTree) → SpellsRuleset tables (terminals tokens.now)
        → IfOk result (λ o. IsSomeAnd o (λ ranges. AreSpelled table Ends (remaining tokens.now) 0
        (length tokens.now) tables ranges.items)) }
{
    let at = ruleset_start(tokens);
    Ok(Some(ranges::<AnyTable, AnyEnds>(alloc, tokens, at)?))
}

/// The ranges of the items of the table that stands at this range, in text order: its comments,
/// chains, sets and maps. `None` only if no table stands there.
///
/// # Errors
///
/// `Memory` if an allocation was refused.
pub fn items(
    alloc: Global,
    tokens: &[Token],
    range: TokenRange,
) -> Result<Option<Vec<TokenRange>>, Memory>
    ensures { (t : TableTree) → table.spells t (remaining tokens.now range.first)
        (remaining tokens.now range.end)
        → IfOk result (λ o. IsSomeAnd o (λ ranges. AreSpelled item Ends (remaining tokens.now) range.first
        range.end t.items ranges.items)) }
{
    let Some((_name, at)) = table_start(tokens, range.first) else {
        return Ok(None);
    };
    Ok(Some(ranges::<TableItem, AnyEnds>(alloc, tokens, at)?))
}

/// The ranges of the rules of the chain that is the item at this range, in text order. `None` only
/// if that item is no chain.
///
/// # Errors
///
/// `Memory` if an allocation was refused.
pub fn rules(
    alloc: Global,
    tokens: &[Token],
    range: TokenRange,
) -> Result<Option<Vec<TokenRange>>, Memory>
    ensures { (c : ChainTree) → item.spells (tree.chain c) (remaining tokens.now range.first)
        (remaining tokens.now range.end)
        → IfOk result (λ o. IsSomeAnd o (λ ranges. AreSpelled ended_rule SomeEnds
        (remaining tokens.now) range.first range.end c.rules ranges.items)) }
{
    let Some((_start, at)) = chain_start(alloc, tokens, range.first)? else {
        return Ok(None);
    };
    Ok(Some(ranges::<EndedRule, RuleEnds>(alloc, tokens, at)?))
}

/// The ranges of the statements of the rule at this range, in text order.
///
/// # Errors
///
/// `Memory` if an allocation was refused.
pub fn statements(
    alloc: Global,
    tokens: &[Token],
    range: TokenRange,
) -> Result<Option<Vec<TokenRange>>, Memory>
    ensures { (r : RuleTree) → SpellsEndedRule r (remaining tokens.now range.first)
        (remaining tokens.now range.end)
        → IfOk result (λ o. IsSomeAnd o (λ ranges. AreSpelled statement IsNothing
        (remaining tokens.now) range.first range.end r.statements ranges.items)) }
{
    Ok(Some(ranges::<AnyStatement, NoGap>(alloc, tokens, range.first)?))
}
