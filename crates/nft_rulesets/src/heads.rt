//! The hook specification of a base chain (nft(8), "Chains").
ghost use Rattle.std.specs.Prelude.{IfOk};
ghost use Rattle.nft_tree.specs.TreeViews.{head_tree};
ghost use Rattle.token_reader.specs.Readers.{IsRead};
ghost use Rattle.nft_rulesets.specs.Chains.{head, offset, priority};

use crate::notes::Note;
use nft_lexer::{Punctuator, Token};
use nft_tree::{ChainKind, Head, Hook, Memory, OffsetSign, Policy, Priority, PriorityName};
use std::alloc::Global;
use token_reader::{after_ends, after_word, found, number, number_after, one_of, repeated};

static CHAIN_TYPES: [(&[u8], ChainKind); 2] = [
    (b"filter", ChainKind::Filter),
    (b"nat", ChainKind::Nat),
];

static HOOK_NAMES: [(&[u8], Hook); 5] = [
    (b"prerouting", Hook::Prerouting),
    (b"input", Hook::Input),
    (b"forward", Hook::Forward),
    (b"output", Hook::Output),
    (b"postrouting", Hook::Postrouting),
];

static PRIORITIES: [(&[u8], PriorityName); 6] = [
    (b"raw", PriorityName::Raw),
    (b"mangle", PriorityName::Mangle),
    (b"dstnat", PriorityName::DstNat),
    (b"filter", PriorityName::Filter),
    (b"security", PriorityName::Security),
    (b"srcnat", PriorityName::SrcNat),
];

static POLICIES: [(&[u8], Policy); 2] = [(b"accept", Policy::Accept), (b"drop", Policy::Drop)];

/// ("+" | "-") NUM
#[tactic(auto, unfolding(crate::specs::Chains::offset))]
fn offset(tokens: &[Token], at: usize) -> Option<((OffsetSign, u64), usize)>
    ensures { IsRead (λ by. by) offset.read tokens.now at result }
{
    if let Some((above, at)) = number_after(tokens, at, Punctuator::Plus) {
        return Some(((OffsetSign::Plus, above), at));
    }
    let (below, at) = number_after(tokens, at, Punctuator::Minus)?;
    Some(((OffsetSign::Minus, below), at))
}

/// ["-"] NUM | pname [("+" | "-") NUM]
#[tactic(auto, unfolding(crate::specs::Chains::priority))]
fn priority(tokens: &[Token], at: usize) -> Option<(Priority, usize)>
    ensures { IsRead (λ p. p) priority.read tokens.now at result }
{
    if let Some((positive, at)) = number(tokens, at) {
        return Some((Priority::Number(OffsetSign::Plus, positive), at));
    }
    if let Some((negative, at)) = number_after(tokens, at, Punctuator::Minus) {
        return Some((Priority::Number(OffsetSign::Minus, negative), at));
    }
    let (name, at) = one_of(tokens, at, &PRIORITIES)?;
    match offset(tokens, at) {
        Some(((sign, by), at)) => Some((Priority::Offset(name, sign, by), at)),
        None => Some((Priority::Named(name), at)),
    }
}

/// "type" ("filter" | "nat") "hook" hook "priority" prio end {end} ["policy" ..], and the comments
/// after it
#[tactic(auto, unfolding(crate::specs::Chains::head, crate::specs::Chains::policy))]
pub(crate) fn head(
    alloc: Global,
    tokens: &[Token],
    at: usize,
) -> Result<Option<(Head, usize)>, Memory>
    ensures { IfOk result (IsRead head_tree head.read tokens.now at) }
{
    let at = found!(after_word(tokens, at, b"type"));
    let (kind, at) = found!(one_of(tokens, at, &CHAIN_TYPES));
    let at = found!(after_word(tokens, at, b"hook"));
    let (hook, at) = found!(one_of(tokens, at, &HOOK_NAMES));
    let at = found!(after_word(tokens, at, b"priority"));
    let (priority, at) = found!(priority(tokens, at));
    let at = found!(after_ends(tokens, at));
    let (policy, at) = if let Some(after) = after_word(tokens, at, b"policy")
        && let Some((policy, after)) = one_of(tokens, after, &POLICIES)
        && let Some(end) = after_ends(tokens, after)
    {
        (Some(policy), end)
    } else {
        (None, at)
    };
    let (notes, at) = repeated::<Note>(alloc, tokens, at)?;
    let head = Head {
        kind,
        hook,
        priority,
        policy,
        notes,
    };
    Ok(Some((head, at)))
}
