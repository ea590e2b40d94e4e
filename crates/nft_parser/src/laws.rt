//! Laws of texts and their rulesets, each the contract of a function that does nothing.
ghost use Rattle.std.specs.Prelude.{◌≡◌, ◌⊎◌, ℕ, List};
ghost use Rattle.nft_tree.specs.Tree.{TableTree};
ghost use Rattle.nft_parser.specs.declared.fault.TextFault.{TextFault};
ghost use Rattle.nft_parser.specs.Spells.{Spells, HasTextFault};

/// A text spells at most one ruleset, and none if it has a fault.
pub fn one_tree()
    ensures one { (text : List ℕ) (first second : List TableTree) → Spells first text
        → Spells second text → first ≡ second }
    ensures faultless { (text : List ℕ) (tree : List TableTree) (fault : TextFault)
        → Spells tree text → HasTextFault text fault → ⊥ }
{
    nft_lexer::one_tokenization();
}

/// A text has at most one fault.
pub fn one_fault()
    ensures { (text : List ℕ) (first second : TextFault) → HasTextFault text first
        → HasTextFault text second → first ≡ second }
{
    nft_lexer::one_tokenization();
    nft_lexer::one_fault();
}

/// A text spells a ruleset or has a fault.
pub fn some_answer()
    ensures { (text : List ℕ) → ((tree : List TableTree) × Spells tree text)
        ⊎ ((fault : TextFault) × HasTextFault text fault) }
{
    nft_lexer::some_tokenization();
}
