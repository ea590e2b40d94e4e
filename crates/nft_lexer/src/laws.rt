//! Laws of tokenization, each the contract of a function that does nothing.
ghost use Rattle.std.specs.Prelude.{◌≡◌, ◌⊎◌, ℕ, List};
ghost use Rattle.nft_lexer.specs.declared.fault.LexFault.{LexFault};
ghost use Rattle.nft_lexer.specs.Terminal.{LexedToken};
ghost use Rattle.nft_lexer.specs.Lexing.{TokenizesTo, HasLexFault};

/// A text has at most one tokenization, and none if it has a fault.
pub fn one_tokenization()
    ensures one { (text : List ℕ) (xs ys : List LexedToken) → TokenizesTo text xs
        → TokenizesTo text ys → xs ≡ ys }
    ensures faultless { (text : List ℕ) (xs : List LexedToken) (fault : LexFault)
        → TokenizesTo text xs → HasLexFault text fault → ⊥ }
{}

/// A text has at most one first fault.
pub fn one_fault()
    ensures { (text : List ℕ) (first second : LexFault) → HasLexFault text first
        → HasLexFault text second → first ≡ second }
{}

/// A text has a tokenization or a first fault.
pub fn some_tokenization()
    ensures { (text : List ℕ) → ((tokens : List LexedToken) × TokenizesTo text tokens)
        ⊎ ((fault : LexFault) × HasLexFault text fault) }
{}
