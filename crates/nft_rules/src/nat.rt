//! NAT statements (nft(8), "NAT statements").
#![tactic(auto, unfolding(crate::specs::Rules::ports, crate::specs::Rules::to_word, crate::specs::Rules::nat))]

ghost use Rattle.std.specs.Prelude.{codes, option_map, IfOk};
ghost use Rattle.nft_lexer.specs.declared.token.Punctuator.TheVariants.{Colon};
ghost use Rattle.nft_tree.specs.Tree.{source_address, source_lookup, destination_address, destination_lookup};
ghost use Rattle.nft_tree.specs.TreeViews.{source_tree, destination_tree, nat_tree};
ghost use Rattle.token_reader.specs.Grammar.{keyword, punctuation, a_number, ◌▹◌};
ghost use Rattle.token_reader.specs.Readers.{IsRead};
ghost use Rattle.nft_rules.specs.Rules.{ports, to_word, target, nat};

use crate::marks::map_lookup;
use nft_lexer::{Punctuator, Token};
use nft_tree::{DestinationTarget, Memory, Nat, PortRange, SourceTarget};
use std::alloc::Global;
use token_reader::{address, after_word, found, number, number_after};

/// ":" NUM ["-" NUM]
fn colon_ports(tokens: &[Token], at: usize) -> Option<(PortRange, usize)>
    ensures { IsRead (λ r. r) (punctuation Colon ▹ ports).read tokens.now at result }
{
    let (low, at) = number_after(tokens, at, Punctuator::Colon)?;
    match number_after(tokens, at, Punctuator::Minus) {
        Some((high, at)) => Some((PortRange::Between(low, high), at)),
        None => Some((PortRange::One(low), at)),
    }
}

/// This word, and ["ip"] "to"
fn after_to(tokens: &[Token], at: usize, word: &[u8]) -> Option<usize>
    ensures { IsRead (λ u. u) (keyword word.now ▹ to_word).read tokens.now at
        (option_map (λ end. (tt, end)) result) }
{
    let at = after_word(tokens, at, word)?;
    if let Some(at) = after_word(tokens, at, b"to") {
        return Some(at);
    }
    let at = after_word(tokens, at, b"ip")?;
    after_word(tokens, at, b"to")
}

/// "snat" ["ip"] "to" (ADDR [":" ports] | look)
fn snat(alloc: Global, tokens: &[Token], at: usize) -> Result<Option<(SourceTarget, usize)>, Memory>
    ensures { IfOk result (IsRead source_tree
        (keyword (codes "snat") ▹ to_word ▹ target source_address source_lookup ports).read
        tokens.now at) }
{
    let at = found!(after_to(tokens, at, b"snat"));
    if let Some((address, end)) = address(tokens, at) {
        return match colon_ports(tokens, end) {
            Some((range, end)) => Ok(Some((SourceTarget::Address(address, Some(range)), end))),
            None => Ok(Some((SourceTarget::Address(address, None), end))),
        };
    }
    let (map_lookup, end) = found!(map_lookup(alloc, tokens, at)?);
    Ok(Some((SourceTarget::MapLookup(map_lookup), end)))
}

/// "dnat" ["ip"] "to" (ADDR [":" NUM] | look)
fn dnat(
    alloc: Global,
    tokens: &[Token],
    at: usize,
) -> Result<Option<(DestinationTarget, usize)>, Memory>
    ensures { IfOk result (IsRead destination_tree
        (keyword (codes "dnat") ▹ to_word ▹ target destination_address destination_lookup
        a_number).read tokens.now at) }
{
    let at = found!(after_to(tokens, at, b"dnat"));
    if let Some((address, end)) = address(tokens, at) {
        return match number_after(tokens, end, Punctuator::Colon) {
            Some((port, end)) => Ok(Some((DestinationTarget::Address(address, Some(port)), end))),
            None => Ok(Some((DestinationTarget::Address(address, None), end))),
        };
    }
    let (map_lookup, end) = found!(map_lookup(alloc, tokens, at)?);
    Ok(Some((DestinationTarget::MapLookup(map_lookup), end)))
}

/// nat = snat | dnat | "masquerade" ["to" ":" ports] | "redirect" ["to" ":" NUM]
pub(crate) fn nat(
    alloc: Global,
    tokens: &[Token],
    at: usize,
) -> Result<Option<(Nat, usize)>, Memory>
    ensures { IfOk result (IsRead nat_tree nat.read tokens.now at) }
{
    if let Some((target, end)) = snat(alloc, tokens, at)? {
        return Ok(Some((Nat::Source(target), end)));
    }
    if let Some((target, end)) = dnat(alloc, tokens, at)? {
        return Ok(Some((Nat::Destination(target), end)));
    }
    if let Some(at) = after_word(tokens, at, b"masquerade") {
        if let Some(after) = after_word(tokens, at, b"to")
            && let Some((range, end)) = colon_ports(tokens, after)
        {
            return Ok(Some((Nat::Masquerade(Some(range)), end)));
        }
        return Ok(Some((Nat::Masquerade(None), at)));
    }
    let at = found!(after_word(tokens, at, b"redirect"));
    if let Some(after) = after_word(tokens, at, b"to")
        && let Some((port, end)) = number_after(tokens, after, Punctuator::Colon)
    {
        return Ok(Some((Nat::Redirect(Some(port)), end)));
    }
    Ok(Some((Nat::Redirect(None), at)))
}
