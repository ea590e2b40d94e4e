//! Verdicts (nft(8), "Verdict statement").
ghost use Rattle.std.specs.Prelude.{IfOk};
ghost use Rattle.nft_tree.specs.TreeViews.{verdict_tree};
ghost use Rattle.token_reader.specs.Grammar.{a_word, keyword, one_of, ◌▹◌};
ghost use Rattle.token_reader.specs.Readers.{Anything, IsRead, Reads};
ghost use Rattle.nft_expressions.specs.Elements.{verdict_keywords, verdict};

use nft_lexer::Token;
use nft_tree::{Memory, Verdict};
use std::alloc::Global;
use token_reader::{after_word, found, word};

/// "accept" | "drop" | "continue" | "return"
fn verdict_keyword(tokens: &[Token], at: usize) -> Option<(Verdict, usize)>
    ensures { IsRead verdict_tree (one_of verdict_keywords).read tokens.now at result }
{
    if let Some(at) = after_word(tokens, at, b"accept") {
        return Some((Verdict::Accept, at));
    }
    if let Some(at) = after_word(tokens, at, b"drop") {
        return Some((Verdict::Drop, at));
    }
    if let Some(at) = after_word(tokens, at, b"continue") {
        return Some((Verdict::Continue, at));
    }
    let at = after_word(tokens, at, b"return")?;
    Some((Verdict::Return, at))
}

/// The name after this word, if both are at `at`, and the position after it.
fn name_after(
    alloc: Global,
    tokens: &[Token],
    at: usize,
    before: &[u8],
) -> Result<Option<(Vec<u8>, usize)>, Memory>
    ensures { IfOk result (IsRead (λ name. name.items) (keyword before.now ▹ a_word).read
        tokens.now at) }
{
    let at = found!(after_word(tokens, at, before));
    let (name, at) = found!(word(tokens, at));
    Ok(Some((Vec::from_slice(alloc, name)?, at)))
}

/// verdict = "accept" | "drop" | "continue" | "return" | ("jump" | "goto") NAME
#[tactic(auto, using(crate::specs::steps::Laws::no_verdict_without_word), unfolding(crate::specs::Elements::verdict))]
pub(crate) fn read_verdict(
    alloc: Global,
    tokens: &[Token],
    at: usize,
) -> Result<Option<(Verdict, usize)>, Memory>
    ensures { IfOk result (IsRead verdict_tree verdict.read tokens.now at) }
{
    // Most data of maps are no words; then no keyword is tried.
    found!(word(tokens, at));
    if let Some(verdict_data) = verdict_keyword(tokens, at) {
        return Ok(Some(verdict_data));
    }
    if let Some((name, at)) = name_after(alloc, tokens, at, b"jump")? {
        return Ok(Some((Verdict::Jump(name), at)));
    }
    let (name, at) = found!(name_after(alloc, tokens, at, b"goto")?);
    Ok(Some((Verdict::Goto(name), at)))
}

/// The verdict at `at`, whatever follows it, and the position after it; `None` if none is spelled
/// here.
///
/// # Errors
///
/// `Memory` if an allocation was refused.
pub fn verdict(
    alloc: Global,
    tokens: &[Token],
    at: usize,
) -> Result<Option<(Verdict, usize)>, Memory>
    // Soundness and completeness: the answer is spelled here, and what is spelled here is the
    // answer.
    ensures reads { IfOk result (Reads verdict Anything verdict_tree tokens.now at) }
    // The answer is what the production's parser gives.
    ensures read { IfOk result (IsRead verdict_tree verdict.read tokens.now at) }
{
    read_verdict(alloc, tokens, at)
}
