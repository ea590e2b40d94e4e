//! Chains and their rules (nft(8), "Chains").
ghost use Rattle.std.specs.Prelude.{IfOk, map, option_map};
ghost use Rattle.nft_tree.specs.Tree.{RuleTree};
ghost use Rattle.nft_tree.specs.TreeViews.{chain_tree, head_tree, rule_tree};
ghost use Rattle.token_reader.specs.Readers.{IsRead};
ghost use Rattle.nft_rules.specs.Rules.{ended_rule};
ghost use Rattle.nft_rulesets.specs.Chains.{chain};
ghost use Rattle.nft_rulesets.specs.steps.Starts.{chain_start};

use crate::heads::head;
use crate::notes::Note;
use nft_lexer::{Punctuator, Token};
use nft_rules::rule;
use nft_tree::{Chain, Head, Memory, Rule};
use std::alloc::Global;
use token_reader::{
    Production, after_punctuator, after_word, found, lines, repeated, skip_ends, word,
};

/// A rule, with what ends it after it.
pub struct EndedRule;

impl Production for EndedRule {
    type Item = Rule;

    ghost Tree = { RuleTree };

    ghost tree = { rule_tree };

    ghost read_at = { ended_rule.read };

    fn read(alloc: Global, tokens: &[Token], at: usize) -> Result<Option<(Rule, usize)>, Memory> {
        rule(alloc, tokens, at)
    }
}

/// What stands before the rules of a chain.
#[derive(Drop)]
pub struct ChainStart<'t> {
    /// The chain's name.
    pub name: &'t [u8],
    /// The comments before the hook specification.
    pub notes: Vec<Vec<u8>>,
    /// The hook specification, with the comments after it.
    pub head: Option<Head>,
}

/// "chain" NAME "{" {end} {note} [head {note}]
///
/// What it says, and the position after it; `None` if no chain begins at `at`.
///
/// # Errors
///
/// `Memory` if an allocation was refused.
#[tactic(auto, unfolding(crate::specs::steps::Starts::chain_start))]
pub fn chain_start<'t>(
    alloc: Global,
    tokens: &[Token<'t>],
    at: usize,
) -> Result<Option<(ChainStart<'t>, usize)>, Memory>
    ensures { IfOk result (IsRead (λ x. (
      x.name.now,
      (
        map (λ n. n.items) x.notes.items,
        option_map head_tree x.head,
      ),
    )) chain_start.read tokens.now at) }
{
    let at = found!(after_word(tokens, at, b"chain"));
    let (name, at) = found!(word(tokens, at));
    let at = found!(after_punctuator(tokens, at, Punctuator::OpenBrace));
    let at = skip_ends(tokens, at);
    let (notes, at) = repeated::<Note>(alloc, tokens, at)?;
    let (head, at) = match head(alloc, tokens, at)? {
        Some((head, after)) => (Some(head), after),
        None => (None, at),
    };
    Ok(Some((ChainStart { name, notes, head }, at)))
}

/// "chain" NAME "{" {end} {note} [head {note}] [rule {end {end} rule} {end}] "}"
#[tactic(auto, unfolding(crate::specs::Chains::chain, crate::specs::Chains::rules, crate::specs::steps::Starts::chain_start))]
pub(crate) fn chain(
    alloc: Global,
    tokens: &[Token],
    at: usize,
) -> Result<Option<(Chain, usize)>, Memory>
    ensures { IfOk result (IsRead chain_tree chain.read tokens.now at) }
{
    let (start, at) = found!(chain_start(alloc, tokens, at)?);
    let (rules, at) = match lines::<EndedRule>(alloc, tokens, at)? {
        Some(found) => found,
        None => (Vec::new(alloc), at),
    };
    let at = found!(after_punctuator(tokens, at, Punctuator::CloseBrace));
    let chain = Chain {
        name: Vec::from_slice(alloc, start.name)?,
        notes: start.notes,
        head: start.head,
        rules,
    };
    Ok(Some((chain, at)))
}
