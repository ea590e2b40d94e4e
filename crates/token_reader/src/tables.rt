//! Keywords with values.
ghost use Rattle.std.specs.Prelude.{map};
ghost use Rattle.token_reader.specs.Grammar.{one_of};
ghost use Rattle.token_reader.specs.Readers.{IsRead};
ghost use Rattle.token_reader.specs.steps.Reading.{row_of};

use crate::single::after_word;
use nft_lexer::Token;

/// The value of the keyword at `at`, and the position after it.
pub fn one_of<T: Copy>(
    tokens: &[Token],
    at: usize,
    rows: &[(&'static [u8], T)],
) -> Option<(T, usize)>
    ensures { IsRead (λ x. x) (one_of (map row_of rows.now)).read tokens.now at result }
{
    for row in rows {
        if let Some(after) = after_word(tokens, at, row.0) {
            return Some((row.1, after));
        }
    }
    None
}
