//! Whether a ruleset begins with the tokens before a place of a part: it does if it is read with an ending.
ghost use Rattle.std.specs.Prelude.{◌≡◌, ◌≤◌, true, take, length, IfOk};
ghost use Rattle.nft_lexer.specs.TokenViews.{terminals};
ghost use Rattle.nft_parser.specs.Beginnings.{BeginsRuleset};

use crate::braces::open_braces;
use crate::part::Part;
use crate::prefixes::{closing, missing_types};
use nft_lexer::Token;
use nft_parser::begins;
use std::alloc::{AllocError, Global};

impl Part {
    /// Whether a ruleset is found that begins with the tokens up to one of a part.
    ///
    /// # Errors
    /// `AllocError` for want of memory.
    pub fn is_begun(
        self,
        alloc: Global,
        tokens: &[Token<'_>],
        at: usize,
    ) -> Result<bool, AllocError>
        ensures { IfOk result (λ found. found ≡ true
            → BeginsRuleset (terminals (take at tokens.now))) }
    {
        if at > tokens.len() {
            return Ok(false);
        }
        let start = self.tokens_before(tokens, at);
        match self.kind.completion(alloc, start)? {
            Some(ending) => self.is_begun_with(alloc, tokens, at, ending.as_str()),
            // Without the part.
            None if start.is_empty() => self.is_begun_with(alloc, tokens, at, ""),
            None => Ok(false),
        }
    }

    /// The same, where a text completes the part.
    fn is_begun_with(
        self,
        alloc: Global,
        tokens: &[Token<'_>],
        at: usize,
        ending: &str,
    ) -> Result<bool, AllocError>
        requires { at ≤ length tokens.now }
        ensures { IfOk result (λ found. found ≡ true
            → BeginsRuleset (terminals (take at tokens.now))) }
    {
        let is_in_list = self.kind.is_in_list();
        let open = open_braces(&tokens[..self.start.min(tokens.len())]);
        let list = if is_in_list { "\n}" } else { "" };
        let outer = closing(alloc, open.saturating_sub(is_in_list as usize), "")?;
        for types in missing_types(is_in_list) {
            let behind = format!(in alloc; "{ending}{list}{types}{outer}")?;
            if begins(alloc, &tokens[..at], behind.as_str())? {
                return Ok(true);
            }
        }
        Ok(false)
    }
}
