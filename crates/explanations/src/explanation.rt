//! What a code means.
ghost use Rattle.std.specs.Prelude.{◌≡◌, IfSome, is_some, map};
ghost use Rattle.explanations.specs.Codes.{has_code, is_code};

use crate::table::{CAPTURE, PLANT, RULESET, TEXT};

/// What a code means.
#[derive(Clone, Copy)]
pub struct Explanation {
    /// The code, as the line of a fault has it: `E05`.
    pub code: &'static str,
    /// What is wrong, in one sentence.
    pub sentence: &'static str,
    /// What is wrong in full, and what to write instead: lines of at most 78 characters.
    pub paragraph: &'static str,
}

/// What this code means, where it is one.
pub fn explain(code: &str) -> Option<Explanation>
    // It is that of the code.
    ensures own { IfSome result (λ found. found.code.now ≡ code.now) }
    // Each code has one, and no other word.
    ensures known { is_some result ≡ is_code code.now }
{
    in_table(&TEXT, code)
        .or(in_table(&PLANT, code))
        .or(in_table(&RULESET, code))
        .or(in_table(&CAPTURE, code))
}

// The explanation with this code.
fn in_table(table: &[Explanation], code: &str) -> Option<Explanation>
    ensures own { IfSome result (λ found. found.code.now ≡ code.now) }
    ensures known { is_some result ≡ has_code (map (λ row. row.code.now) table.now) code.now }
{
    for row in table {
        if row.code == code {
            return Some(*row);
        }
    }
    None
}
