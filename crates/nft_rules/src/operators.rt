//! Comparison operators.
ghost use Rattle.std.specs.Prelude.{◌≡◌, ◌≤◌, Some, length};
ghost use Rattle.token_reader.specs.Grammar.{maybe};
ghost use Rattle.token_reader.specs.Readers.{IsRead, remaining};
ghost use Rattle.nft_rules.specs.Matches.{equality, operator};

use nft_lexer::{Punctuator, Token, TokenKind};
use nft_tree::Operator;

/// "==" | "!=" | "<" | ">" | "<=" | ">="
#[tactic(auto, unfolding(crate::specs::Matches::operator, crate::specs::Matches::equality, crate::specs::Matches::inequality))]
pub(crate) fn operator(tokens: &[Token], at: usize) -> Option<(Operator, usize)>
    ensures { IsRead (λ x. x) operator.read tokens.now at result }
{
    let operator = match tokens.get(at)?.kind {
        TokenKind::Punctuator(Punctuator::EqualTo) => Operator::Equal,
        TokenKind::Punctuator(Punctuator::NotEqualTo) => Operator::Unequal,
        TokenKind::Punctuator(Punctuator::Below) => Operator::Below,
        TokenKind::Punctuator(Punctuator::Above) => Operator::Above,
        TokenKind::Punctuator(Punctuator::AtMost) => Operator::AtMost,
        TokenKind::Punctuator(Punctuator::AtLeast) => Operator::AtLeast,
        _ => return None,
    };
    Some((operator, at + 1))
}

/// ["==" | "!="], as whether it is `==`
#[tactic(auto, unfolding(crate::specs::Matches::equality))]
pub(crate) fn equality_if(tokens: &[Token], at: usize) -> (Option<bool>, usize)
    ensures read { Some (result.0, remaining tokens.now result.1)
        ≡ (maybe equality).read (remaining tokens.now at) }
    ensures within { (at ≤ result.1) × (at ≤ length tokens.now → result.1 ≤ length tokens.now) }
{
    match tokens.get(at) {
        Some(token) => match token.kind {
            TokenKind::Punctuator(Punctuator::EqualTo) => (Some(true), at + 1),
            TokenKind::Punctuator(Punctuator::NotEqualTo) => (Some(false), at + 1),
            _ => (None, at),
        },
        None => (None, at),
    }
}
