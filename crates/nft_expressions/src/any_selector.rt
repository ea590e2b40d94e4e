//! Selectors and concatenations of selectors.
ghost use Rattle.std.specs.Prelude.{◌≡◌, List, IfOk, IfSome, IsSomeAnd};
ghost use Rattle.nft_lexer.specs.Terminal.{Terminal};
ghost use Rattle.nft_tree.specs.declared.selector.Selector.{Selector};
ghost use Rattle.token_reader.specs.Readers.{IsAfter, IsRead, remaining};
ghost use Rattle.nft_expressions.specs.Selectors.{EndsSelectors, SpellsSelector, selector, selectors};

use crate::selector_words::{IN_CT, IN_ICMP, IN_IP, IN_META, IN_TCP, IN_TH, IN_UDP, WITHOUT_META};
use nft_lexer::Token;
use nft_tree::{Memory, Selector};
use std::alloc::Global;
use token_reader::{Dot, Production, after_word, one_of, separated};

/// The selector at `at`, whatever follows it, and the position after it; `None` if none is spelled
/// here.
pub fn anysel(tokens: &[Token], at: usize) -> Option<(Selector, usize)>
    // Soundness: the answer is spelled here.
    ensures found { IfSome result (λ x.
        SpellsSelector x.0 (remaining tokens.now at) (remaining tokens.now x.1)) }
    // The position is after `at`, and within the tokens.
    ensures within { IfSome result (λ x. IsAfter tokens.now at x.1) }
    // Completeness: what is spelled here is the answer; so it is unique, and `None` means that
    // there is none.
    ensures only { (s : Selector) (to : List Terminal)
        → SpellsSelector s (remaining tokens.now at) to
        → IsSomeAnd result (λ x. (x.0 ≡ s) × (remaining tokens.now x.1 ≡ to)) }
    // The answer is what the production's parser gives.
    ensures read { IsRead (λ s. s) selector.read tokens.now at result }
{
    selector(tokens, at)
}

/// anysel
#[tactic(auto, unfolding(crate::specs::Selectors::selector))]
fn selector(tokens: &[Token], at: usize) -> Option<(Selector, usize)>
    ensures { IsRead (λ s. s) selector.read tokens.now at result }
{
    if let Some(at) = after_word(tokens, at, b"ip") {
        return one_of(tokens, at, &IN_IP);
    }
    if let Some(at) = after_word(tokens, at, b"meta") {
        return one_of(tokens, at, &IN_META);
    }
    if let Some(at) = after_word(tokens, at, b"tcp") {
        return one_of(tokens, at, &IN_TCP);
    }
    if let Some(at) = after_word(tokens, at, b"udp") {
        return one_of(tokens, at, &IN_UDP);
    }
    if let Some(at) = after_word(tokens, at, b"th") {
        return one_of(tokens, at, &IN_TH);
    }
    if let Some(at) = after_word(tokens, at, b"icmp") {
        return one_of(tokens, at, &IN_ICMP);
    }
    if let Some(at) = after_word(tokens, at, b"ct") {
        return one_of(tokens, at, &IN_CT);
    }
    one_of(tokens, at, &WITHOUT_META)
}

struct AnySelector;

impl Production for AnySelector {
    type Item = Selector;

    ghost Tree = { Selector };

    ghost tree = { λ s. s };

    ghost read_at = { selector.read };

    fn read(
        _alloc: Global,
        tokens: &[Token],
        at: usize,
    ) -> Result<Option<(Selector, usize)>, Memory> {
        Ok(anysel(tokens, at))
    }
}

/// The concatenation of selectors at `at`, as long as it goes, and the position after it; `None` if
/// none is spelled here.
///
/// # Errors
///
/// `Memory` if an allocation was refused.
#[tactic(auto, unfolding(crate::specs::Selectors::selectors))]
pub fn selectors(
    alloc: Global,
    tokens: &[Token],
    at: usize,
) -> Result<Option<(Vec<Selector>, usize)>, Memory>
    // Soundness: the answer is spelled here.
    ensures found { IfOk result (λ o.
        IfSome o (λ x. selectors.spells x.0.items (remaining tokens.now at)
        (remaining tokens.now x.1))) }
    // Completeness: what is spelled here, with no further selector after it, is the answer.
    ensures only { (ss : List Selector) (to : List Terminal)
        → selectors.spells ss (remaining tokens.now at) to → EndsSelectors to
        → IfOk result (λ o. IsSomeAnd o (λ x. (x.0.items ≡ ss) × (remaining tokens.now x.1 ≡ to))) }
    // The answer is what the production's parser gives.
    ensures read { IfOk result (IsRead (λ found. found.items) selectors.read tokens.now at) }
{
    separated::<Dot, AnySelector>(alloc, tokens, at, 1)
}
