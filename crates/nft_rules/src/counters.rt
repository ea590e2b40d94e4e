//! Counters, logs and `notrack` (nft(8), "Counter statement", "Log statement", "Notrack
//! statement").
#![tactic(auto, unfolding(crate::specs::Rules::counter, crate::specs::Rules::log, crate::specs::Rules::notrack))]

ghost use Rattle.std.specs.Prelude.{IfOk};
ghost use Rattle.nft_tree.specs.TreeViews.{statement};
ghost use Rattle.token_reader.specs.Readers.{IsRead};
ghost use Rattle.nft_rules.specs.Rules.{counter, log, notrack};

use nft_lexer::Token;
use nft_tree::{CounterStart, Memory, Stmt};
use std::alloc::Global;
use token_reader::{after_word, found, number, string_after};

/// "counter" ["packets" NUM "bytes" NUM]
pub(crate) fn counter(tokens: &[Token], at: usize) -> Option<(Stmt, usize)>
    ensures { IsRead statement counter.read tokens.now at result }
{
    let at = after_word(tokens, at, b"counter")?;
    if let Some(after) = after_word(tokens, at, b"packets")
        && let Some((packets, after)) = number(tokens, after)
        && let Some(after) = after_word(tokens, after, b"bytes")
        && let Some((bytes, end)) = number(tokens, after)
    {
        return Some((Stmt::Counter(Some(CounterStart { packets, bytes })), end));
    }
    Some((Stmt::Counter(None), at))
}

/// "log" ["prefix" STRING]
pub(crate) fn log(
    alloc: Global,
    tokens: &[Token],
    at: usize,
) -> Result<Option<(Stmt, usize)>, Memory>
    ensures { IfOk result (IsRead statement log.read tokens.now at) }
{
    let at = found!(after_word(tokens, at, b"log"));
    match string_after(tokens, at, b"prefix") {
        Some((text, end)) => Ok(Some((Stmt::Log(Some(Vec::from_slice(alloc, text)?)), end))),
        None => Ok(Some((Stmt::Log(None), at))),
    }
}

/// "notrack"
pub(crate) fn notrack(tokens: &[Token], at: usize) -> Option<(Stmt, usize)>
    ensures { IsRead statement notrack.read tokens.now at result }
{
    let at = after_word(tokens, at, b"notrack")?;
    Some((Stmt::NoTrack, at))
}
