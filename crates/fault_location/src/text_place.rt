//! Where a ruleset's text has its fault: at what is no token, or at the first token that the grammar
//! doesn't allow.
ghost use Rattle.std.specs.Prelude.{◌≡◌, IfOk, IfSome};
ghost use Rattle.nft_lexer.specs.Lexing.{FirstFault};
ghost use Rattle.nft_lexer.specs.Places.{FaultStandsAt};
ghost use Rattle.nft_lexer.specs.declared.fault.LexFault.{LexFault};
ghost use Rattle.nft_parser.specs.declared.fault.TextFault.{TextFault};
ghost use Rattle.fault_location.specs.Places.{IsPlace};

use fault_places::span_of;
use nft_lexer::{LexFault, Token, fault_start};
use nft_parser::TextFault;
use std::alloc::{AllocError, Global};
use unread_parts::{OpenBrace, Part, PartKind, unclosed_brace, unread_parts};

/// Where what is no token begins; a text that is too long has no such place.
pub fn lexical_place(text: &[u8], fault: LexFault) -> Option<usize>
    ensures { (first : LexFault) → FirstFault text.now first
        → IfSome result (λ at. FaultStandsAt text.now at first) }
{
    match fault {
        LexFault::TooLong => None,
        _ => Some(fault_start(text)),
    }
}

/// Where the grammar doesn't allow a ruleset.
#[derive(Clone, Copy)]
pub enum SyntaxPlace {
    /// At a brace that is left open.
    Brace(OpenBrace),
    /// At a token of a part that can't be read, or at its end.
    Part { at: usize, part: Part },
}

impl SyntaxPlace {
    /// How many bytes of the text come before the place.
    pub fn offset(self, tokens: &[Token<'_>]) -> usize {
        let (at, end) = match self {
            SyntaxPlace::Brace(brace) => (brace.brace, tokens.len()),
            SyntaxPlace::Part { at, part } => (at, part.end),
        };
        let before = tokens.get(..end).unwrap_or(tokens);
        match (before.get(at), before.last()) {
            (Some(token), _) => token.start,
            (None, Some(last)) => span_of(last).end,
            (None, None) => 0,
        }
    }
}

/// Where the grammar doesn't allow a ruleset of these tokens: at a brace that is left open, or in the
/// first part that can't be read, at its unsupported word of nft(8) or else at the first token with
/// which no known ending completes it. None where no ruleset is found that begins with what stands
/// before it.
///
/// # Errors
/// `AllocError` for want of memory.
pub fn syntax_place(
    alloc: Global,
    tokens: &[Token<'_>],
    fault: TextFault,
) -> Result<Option<SyntaxPlace>, AllocError>
    // Some ruleset begins with the tokens before the place, or an unsupported word stands there.
    ensures { IfOk result (λ o. IfSome o (IsPlace fault tokens.now)) }
{
    let part = first_with(&unread_parts(alloc, tokens)?, tokens, fault);
    let word = match fault {
        TextFault::Unsupported => part.unsupported_word(tokens),
        _ => None,
    };
    let at = match word {
        Some(at) => at,
        None => part.first_refused(alloc, tokens)?,
    };
    // Where each part can be read, the part is the whole text.
    let is_whole = part.kind == PartKind::Tables && tokens.len() <= part.end;
    if let Some(brace) = unclosed_brace(alloc, tokens)?
        && (is_whole || brace.seen <= at)
    {
        return Ok(Some(SyntaxPlace::Brace(brace)));
    }
    match word {
        Some(at) => Ok(Some(SyntaxPlace::Part { at, part })),
        None => begun_place(alloc, tokens, part, at),
    }
}

/// A token of a part, or else its first one, where some ruleset begins with the tokens before it.
fn begun_place(
    alloc: Global,
    tokens: &[Token<'_>],
    part: Part,
    at: usize,
) -> Result<Option<SyntaxPlace>, AllocError>
    ensures { (fault : TextFault) → IfOk result (λ o. IfSome o (IsPlace fault tokens.now)) }
{
    for at in [at, part.first] {
        if part.is_begun(alloc, tokens, at)? {
            return Ok(Some(SyntaxPlace::Part { at, part }));
        }
    }
    Ok(None)
}

/// The first of some parts, for unsupported words the first that has one; the whole where there is
/// none.
fn first_with(parts: &[Part], tokens: &[Token<'_>], fault: TextFault) -> Part {
    let is_unsupported = fault == TextFault::Unsupported;
    let mut all = parts.iter();
    let wanted = all.find(|part| is_unsupported && part.unsupported_word(tokens).is_some());
    wanted.or(parts.first()).copied().unwrap_or(Part {
        kind: PartKind::Tables,
        start: 0,
        first: 0,
        end: tokens.len(),
        next: tokens.len(),
        item: None,
    })
}
