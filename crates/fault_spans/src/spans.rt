//! The bytes of the node with which a ruleset gets its fault.
ghost use Rattle.std.specs.Prelude.{◌≡◌, List, None, IfOk, IfSome};
ghost use Rattle.nft_parser.specs.Spells.{Spells};
ghost use Rattle.nft_tree.specs.Tree.{TableTree};
ghost use Rattle.rule_check.specs.WellFormed.{WellFormed};
ghost use Rattle.fault_spans.specs.FaultSpans.{IsFaultSpan};

use crate::ranges::node_range;
use box_file::Plant;
use fault_nodes::{FaultyNode, declarations, first_fault, ruleset_between, ruleset_parts};
use nft_lexer::{LexError, Token, lex};
use nft_rulesets::ruleset;
use nft_tree::Ruleset;
use rule_check::least_fault;
use std::alloc::{AllocError, Global};

/// A ruleset that has a fault as a whole, the node with which it gets that, and the bytes of the
/// node in the text: from `start` up to `end`.
#[derive(Drop)]
pub struct FaultSpan<'t> {
    /// The tokens of the text.
    pub tokens: Vec<Token<'t>>,
    /// The ruleset that they spell.
    pub tree: Ruleset,
    pub found: FaultyNode,
    pub start: usize,
    pub end: usize,
}

/// Where the fault of a ruleset stands in its text. `None` where it has none on the box, or where
/// the text is no ruleset.
///
/// # Errors
///
/// `AllocError` if an allocation was refused.
pub fn fault_span<'t>(
    alloc: Global,
    text: &'t [u8],
    network: &Plant,
) -> Result<Option<FaultSpan<'t>>, AllocError>
    ensures found { IfOk result (λ o. IfSome o (IsFaultSpan text.now network.now)) }
    ensures none { (tables : List TableTree) → Spells tables text.now
        → IfOk result (λ o. o ≡ None → WellFormed tables network.now) }
{
    let tokens = match lex(alloc, text) {
        Ok(tokens) => tokens,
        Err(LexError::Refused(_)) => return Ok(None),
        Err(LexError::Memory) => return Err(AllocError),
    };
    let Some(tree) = ruleset(alloc, &tokens)? else {
        return Ok(None);
    };
    let likely = Guess {
        tree: &tree,
        network,
    }
    .position(alloc)?;
    let Some(found) = first_fault(alloc, &tree, network, likely)? else {
        return Ok(None);
    };
    let Some(range) = node_range(alloc, &tokens, found.node)? else {
        return Ok(None);
    };
    let Some(first) = tokens.get(range.first) else {
        return Ok(None);
    };
    let Some(last) = tokens.get(range.end.saturating_sub(1)) else {
        return Ok(None);
    };
    let (start, end) = (first.start, last.start + last.text.len());
    Ok(Some(FaultSpan {
        tokens,
        tree,
        found,
        start,
        end,
    }))
}

/// A ruleset on a box, whose fault is guessed to be somewhere. A guess saves time: the answer is the
/// same by any.
#[derive(Clone, Copy)]
struct Guess<'t> {
    tree: &'t Ruleset,
    network: &'t Plant,
}

impl<'t> Guess<'t> {
    /// How much of the ruleset is likely read before the node with which it gets its fault. The parts
    /// of a fault of several, as of nested jumps, are looked for at the ruleset's end.
    fn position(&self, alloc: Global) -> Result<usize, AllocError> {
        let total = ruleset_parts(self.tree);
        let mut likely = self.completing(alloc, 0, total, false)?;
        if !self.has_fault(alloc, likely, likely.saturating_add(1))?
            && let Some(first) = self.last_with_fault(alloc, total)?
        {
            likely = self.completing(alloc, first, total, true)?;
        }
        Ok(declarations(self.tree).saturating_add(likely))
    }

    /// The part with which those in `from..to` likely get their fault: by halves, of which the second
    /// one is taken where the first one has none. Each half is judged `together` with those before it,
    /// or alone.
    fn completing(
        &self,
        alloc: Global,
        from: usize,
        to: usize,
        together: bool,
    ) -> Result<usize, AllocError> {
        let (mut start, mut end) = (from.min(to), to);
        while end - start > 1 {
            let middle = start + (end - start) / 2;
            let first = if together { from } else { start };
            if self.has_fault(alloc, first, middle)? {
                end = middle;
            } else {
                start = middle;
            }
        }
        Ok(start)
    }

    /// The first of some last parts that have a fault, up to half of all.
    fn last_with_fault(&self, alloc: Global, total: usize) -> Result<Option<usize>, AllocError> {
        let mut count = 1usize;
        while count < total / 2 {
            let first = total - count;
            if self.has_fault(alloc, first, total)? {
                return Ok(Some(first));
            }
            count = count.saturating_mul(2);
        }
        Ok(None)
    }

    /// Whether the ruleset has a fault with these parts alone.
    fn has_fault(&self, alloc: Global, from: usize, to: usize) -> Result<bool, AllocError> {
        let some = ruleset_between(alloc, self.tree, from, to)?;
        Ok(least_fault(alloc, &some, self.network)?.is_some())
    }
}
