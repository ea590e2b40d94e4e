//! TCP flags.
ghost use Rattle.std.specs.Prelude.{◌≡◌, IfOk, map};
ghost use Rattle.std.specs.List.{list_all};
ghost use Rattle.nft_lexer.specs.declared.token.Punctuator.TheVariants.{Bar, Comma};
ghost use Rattle.nft_tree.specs.Tree.{FlagTree};
ghost use Rattle.nft_tree.specs.TreeViews.{flag_tree, match_tree};
ghost use Rattle.token_reader.specs.Grammar.{punctuation, ◌∣◌, ◌▹◌};
ghost use Rattle.token_reader.specs.Readers.{IsRead};
ghost use Rattle.nft_rules.specs.Matches.{flag, flag_group, flag_list, flags, is_flag, masked, masked_by};

use crate::operators::equality_if;
use nft_expressions::type_has_word;
use nft_lexer::{Punctuator, Token};
use nft_tree::{Flag, Masked, Match, Memory, Selector};
use std::alloc::Global;
use token_reader::{Production, after_punctuator, found, more, number, word};

/// WORD | NUM
#[tactic(auto, unfolding(crate::specs::Matches::flag))]
fn flag(alloc: Global, tokens: &[Token], at: usize) -> Result<Option<(Flag, usize)>, Memory>
    ensures { IfOk result (IsRead flag_tree flag.read tokens.now at) }
{
    if let Some((text, at)) = word(tokens, at) {
        return Ok(Some((Flag::Word(Vec::from_slice(alloc, text)?), at)));
    }
    let (number, at) = found!(number(tokens, at));
    Ok(Some((Flag::Number(number), at)))
}

/// A flag with the separator before it.
struct NextFlag {}

impl Production for NextFlag {
    type Item = Flag;

    ghost Tree = { FlagTree };

    ghost tree = { flag_tree };

    ghost read_at = { ((punctuation Comma ∣ punctuation Bar) ▹ flag).read };

    fn read(alloc: Global, tokens: &[Token], at: usize) -> Result<Option<(Flag, usize)>, Memory> {
        let at = match after_punctuator(tokens, at, Punctuator::Comma) {
            Some(at) => at,
            None => found!(after_punctuator(tokens, at, Punctuator::Bar)),
        };
        flag(alloc, tokens, at)
    }
}

/// Whether each word of the list is a flag.
fn are_flags(flags: &[Flag]) -> bool
    ensures { result ≡ list_all is_flag (map flag_tree flags.now) }
{
    for flag in flags {
        if let Flag::Word(word) = flag
            && !type_has_word(Selector::TcpFlags, word)
        {
            return false;
        }
    }
    true
}

/// (WORD | NUM) {("," | "|") (WORD | NUM)}, each word a flag
#[tactic(auto, unfolding(crate::specs::Matches::flags))]
fn flags(alloc: Global, tokens: &[Token], at: usize) -> Result<Option<(Vec<Flag>, usize)>, Memory>
    ensures { IfOk result (IsRead (λ found. map flag_tree found.items) flags.read tokens.now at) }
{
    let (first, at) = found!(flag(alloc, tokens, at)?);
    let mut flags = Vec::new(alloc);
    flags.push(first)?;
    let end = more::<NextFlag>(alloc, tokens, at, &mut flags)?;
    if are_flags(&flags) {
        Ok(Some((flags, end)))
    } else {
        Ok(None)
    }
}

/// flags | "(" flags ")"
#[tactic(auto, unfolding(crate::specs::Matches::flag_group))]
fn flag_group(
    alloc: Global,
    tokens: &[Token],
    at: usize,
) -> Result<Option<(Vec<Flag>, usize)>, Memory>
    ensures { IfOk result (IsRead (λ found. map flag_tree found.items) flag_group.read
        tokens.now at) }
{
    if let Some(found) = flags(alloc, tokens, at)? {
        return Ok(Some(found));
    }
    let at = found!(after_punctuator(tokens, at, Punctuator::OpenParenthesis));
    let (flags, at) = found!(flags(alloc, tokens, at)?);
    let at = found!(after_punctuator(tokens, at, Punctuator::CloseParenthesis));
    Ok(Some((flags, at)))
}

/// The match that of the mask's flags exactly the wanted ones are set, or its negation.
fn masked_by(equal: bool, mask: Vec<Flag>, wanted: Vec<Flag>) -> Match
    ensures { match_tree result ≡ masked_by equal (map flag_tree mask.items)
        (map flag_tree wanted.items) }
{
    let masked = Masked { wanted, mask };
    if equal {
        Match::MaskedFlags(masked)
    } else {
        Match::MaskedFlagsUnequal(masked)
    }
}

/// ["==" | "!="] flags ["/" flags]
#[tactic(auto, unfolding(crate::specs::Matches::flag_list))]
fn flag_list(alloc: Global, tokens: &[Token], at: usize) -> Result<Option<(Match, usize)>, Memory>
    ensures { IfOk result (IsRead match_tree flag_list.read tokens.now at) }
{
    let (equal, at) = equality_if(tokens, at);
    let (wanted, at) = found!(flags(alloc, tokens, at)?);
    if let Some(after) = after_punctuator(tokens, at, Punctuator::Slash)
        && let Some((mask, end)) = flags(alloc, tokens, after)?
    {
        return Ok(Some((masked_by(equal.unwrap_or(true), mask, wanted), end)));
    }
    match equal {
        None => Ok(Some((Match::AnyFlag(wanted), at))),
        Some(true) => Ok(Some((Match::ExactFlags(wanted), at))),
        Some(false) => Ok(None),
    }
}

/// "&" pflags ("==" | "!=") pflags
#[tactic(auto, unfolding(crate::specs::Matches::masked))]
fn masked(alloc: Global, tokens: &[Token], at: usize) -> Result<Option<(Match, usize)>, Memory>
    ensures { IfOk result (IsRead match_tree masked.read tokens.now at) }
{
    let at = found!(after_punctuator(tokens, at, Punctuator::Ampersand));
    let (mask, at) = found!(flag_group(alloc, tokens, at)?);
    let (equal, at) = equality_if(tokens, at);
    let equal = found!(equal);
    let (wanted, at) = found!(flag_group(alloc, tokens, at)?);
    Ok(Some((masked_by(equal, mask, wanted), at)))
}

/// ["==" | "!="] flags ["/" flags] | "&" pflags ("==" | "!=") pflags
pub(crate) fn flag_test(
    alloc: Global,
    tokens: &[Token],
    at: usize,
) -> Result<Option<(Match, usize)>, Memory>
    ensures { IfOk result (IsRead match_tree (flag_list ∣ masked).read tokens.now at) }
{
    if let Some(found) = flag_list(alloc, tokens, at)? {
        return Ok(Some(found));
    }
    masked(alloc, tokens, at)
}
