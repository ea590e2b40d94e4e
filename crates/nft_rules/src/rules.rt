//! Rules (nft(8), "Rules").
ghost use Rattle.std.specs.Prelude.{◌≡◌, List, IfOk, IfSome, IsSomeAnd};
ghost use Rattle.nft_lexer.specs.Terminal.{Terminal};
ghost use Rattle.nft_tree.specs.Tree.{RuleTree};
ghost use Rattle.nft_tree.specs.TreeViews.{rule_tree};
ghost use Rattle.token_reader.specs.Readers.{IsAfter, IsRead, remaining};
ghost use Rattle.nft_rules.specs.Rules.{SpellsEndedRule, ended_rule};

use crate::statements::AnyStatement;
use nft_expressions::comment;
use nft_lexer::Token;
use nft_tree::{Memory, Rule};
use std::alloc::Global;
use token_reader::{Production, found, is_rule_end, more};

/// stmt {stmt} ["comment" STRING], with the end of the rule after it
#[tactic(auto, unfolding(crate::specs::Rules::rule, crate::specs::Rules::ended_rule))]
fn read_ended_rule(
    alloc: Global,
    tokens: &[Token],
    at: usize,
) -> Result<Option<(Rule, usize)>, Memory>
    ensures { IfOk result (IsRead rule_tree ended_rule.read tokens.now at) }
{
    let (first, at) = found!(AnyStatement::read(alloc, tokens, at)?);
    // Most rules have one or two statements; a vector that grows would start with capacity for
    // four.
    let room = if is_rule_end(tokens, at) { 1 } else { 2 };
    let mut statements = Vec::with_capacity(alloc, room)?;
    statements.push(first)?;
    let at = more::<AnyStatement>(alloc, tokens, at, &mut statements)?;
    let (comment, at) = comment(alloc, tokens, at)?;
    if !is_rule_end(tokens, at) {
        return Ok(None);
    }
    Ok(Some((
        Rule {
            statements,
            comment,
        },
        at,
    )))
}

/// The rule at `at`, if a newline, a semicolon or a closing brace ends it, and the position of that
/// token; `None` if none is spelled here.
///
/// # Errors
///
/// `Memory` if an allocation was refused.
pub fn rule(alloc: Global, tokens: &[Token], at: usize) -> Result<Option<(Rule, usize)>, Memory>
    // Soundness: the answer is spelled here, and ended.
    ensures found { IfOk result (λ o.
        IfSome o (λ x. SpellsEndedRule (rule_tree x.0) (remaining tokens.now at)
        (remaining tokens.now x.1))) }
    // Completeness: what is spelled so is the answer; so it is unique, and `None` means that there
    // is none.
    ensures only { (r : RuleTree) (to : List Terminal)
        → SpellsEndedRule r (remaining tokens.now at) to
        → IfOk result (λ o. IsSomeAnd o (λ x. (rule_tree x.0 ≡ r)
        × (remaining tokens.now x.1 ≡ to))) }
    // The position is after `at`, and within the tokens.
    ensures within { IfOk result (λ o. IfSome o (λ x. IsAfter tokens.now at x.1)) }
    // The answer is what the production's parser gives.
    ensures read { IfOk result (IsRead rule_tree ended_rule.read tokens.now at) }
{
    read_ended_rule(alloc, tokens, at)
}
