//! The ranges of parts that stand one after the other.
ghost use Rattle.std.specs.Prelude.{◌≡◌, ◌≤◌, List, None, Option, Some, length, option_map, IfOk, IfSome};
ghost use Rattle.nft_lexer.specs.Terminal.{Terminal};
ghost use Rattle.token_reader.specs.Readers.{remaining};
ghost use Rattle.token_reader.specs.steps.Reading.{after_ends, skip_ends};
ghost use Rattle.node_spans.specs.steps.Reading.{AreRead};

use crate::token_range::TokenRange;
use nft_lexer::Token;
use nft_tree::Memory;
use std::alloc::Global;
use token_reader::{Production, after_ends, skip_ends};

/// What stands between two parts.
pub(crate) trait Gap {
    ghost gap_at: { List Terminal → Option (List Terminal) };

    /// The position after the gap at `at`; `None` if there is none.
    fn after(tokens: &[Token], at: usize) -> Option<usize>
        ensures read { option_map (remaining tokens.now) result
            ≡ gap_at (remaining tokens.now at) }
        ensures within { IfSome result (λ end. at ≤ end) };
}

/// Nothing.
pub(crate) struct NoGap;

impl Gap for NoGap {
    ghost gap_at = { λ ts. Some ts };

    fn after(_tokens: &[Token], at: usize) -> Option<usize> {
        Some(at)
    }
}

/// {end}
pub(crate) struct AnyEnds;

impl Gap for AnyEnds {
    ghost gap_at = { λ ts. Some (skip_ends ts) };

    fn after(tokens: &[Token], at: usize) -> Option<usize> {
        Some(skip_ends(tokens, at))
    }
}

/// end {end}
pub(crate) struct RuleEnds;

impl Gap for RuleEnds {
    ghost gap_at = { after_ends };

    fn after(tokens: &[Token], at: usize) -> Option<usize> {
        after_ends(tokens, at)
    }
}

/// The ranges of the parts from `at` on, up to where no gap or no part follows.
pub(crate) fn ranges<P: Production, G: Gap>(
    alloc: Global,
    tokens: &[Token],
    at: usize,
) -> Result<Vec<TokenRange>, Memory>
    ensures { IfOk result (λ found. AreRead P.read_at G.gap_at (remaining tokens.now)
        (length tokens.now) at found.items) }
{
    let mut found = Vec::new(alloc);
    let mut here = at;
    while let Some((_part, end)) = P::read(alloc, tokens, here)? {
        found.push(TokenRange { first: here, end })?;
        let Some(next) = G::after(tokens, end) else {
            return Ok(found);
        };
        here = next;
    }
    Ok(found)
}
