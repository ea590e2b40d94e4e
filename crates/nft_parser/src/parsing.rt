//! From a text to its syntax tree.
ghost use Rattle.std.specs.Prelude.{◌≡◌, ◌<◌, ◌↔◌, ◌⊎◌, List, length, Err, IfOk, MatchResult};
ghost use Rattle.nft_lexer.specs.declared.fault.LexFault.{LexFault};
ghost use Rattle.nft_lexer.specs.TokenViews.{terminals};
ghost use Rattle.nft_lexer.specs.Lexing.{MOST_BYTES};
ghost use Rattle.nft_tree.specs.Tree.{TableTree};
ghost use Rattle.nft_tree.specs.TreeViews.{tables_of};
ghost use Rattle.nft_parser.specs.declared.fault.ParseError.{ParseError};
ghost use Rattle.nft_parser.specs.declared.fault.TextFault.{TextFault};
ghost use Rattle.nft_rulesets.specs.UnsupportedWords.{has_unsupported};
ghost use Rattle.nft_parser.specs.Spells.{Spells, HasTextFault};
ghost use Rattle.nft_parser.specs.steps.Faults.{refusal};

use crate::fault::{ParseError, TextFault};
use crate::laws::{one_fault, one_tree};
use nft_lexer::{Token, lex};
use nft_rulesets::{has_unsupported, ruleset};
use nft_tree::Ruleset;
use std::alloc::Global;

/// Parses the text of a ruleset (nft(8), the profile of docs/SPEC.md).
///
/// # Errors
///
/// `Refused(Lexical(TooLong))` if the text has more than 1,048,576 bytes; otherwise the first
/// lexical fault, with its line; otherwise `Unsupported` or `Syntax` if the tokens spell no
/// ruleset. `Memory` if an allocation was refused, possible in place of any answer but `TooLong`.
pub fn parse(alloc: Global, text: &[u8]) -> Result<Ruleset, ParseError>
    // Soundness: the text spells the answer.
    ensures found { IfOk result (λ answer. Spells (tables_of answer) text.now) }
    // Completeness: if the text spells a ruleset, that is the answer, unless memory runs out; so it
    // is unique.
    ensures only { (tree : List TableTree) → Spells tree text.now
        → MatchResult result (λ answer. tables_of answer ≡ tree)
        (λ error. error ≡ ParseError.Memory) }
    // A fault in the answer is the text's.
    ensures fault { (fault : TextFault) → result ≡ Err (ParseError.Refused fault)
        → HasTextFault text.now fault }
    // If the text has a fault, that is the answer, unless memory runs out.
    ensures only_fault { (fault : TextFault) → HasTextFault text.now fault
        → MatchResult result (λ _. ⊥) (λ error. (error ≡ ParseError.Refused fault)
        ⊎ (error ≡ ParseError.Memory)) }
    // `TooLong` is the answer exactly for a text that is too long.
    ensures long { (result ≡ Err (ParseError.Refused (TextFault.Lexical LexFault.TooLong)))
        ↔ (MOST_BYTES < length text.now) }
{
    one_tree();
    one_fault();
    let tokens = lex(alloc, text)?;
    match ruleset(alloc, &tokens)? {
        Some(ruleset) => Ok(ruleset),
        None => Err(ParseError::Refused(refusal(&tokens))),
    }
}

/// The fault of tokens that spell no ruleset.
fn refusal(tokens: &[Token]) -> TextFault
    ensures { result ≡ refusal (has_unsupported (terminals tokens.now)) }
{
    if has_unsupported(tokens) {
        TextFault::Unsupported
    } else {
        TextFault::Syntax
    }
}
