//! Lemmas about names, each as the contract of a function that does nothing.
ghost use Rattle.std.specs.Prelude.{◌⊎◌, List};
ghost use Rattle.nft_tree.specs.Tree.{TableTree};
ghost use Rattle.rule_names.specs.Names.{DuplicateName};

/// Whether some name is declared twice is decidable.
pub fn duplicate_names_decidable()
    ensures { (tables : List TableTree) → DuplicateName tables ⊎ (DuplicateName tables → ⊥) }
{}
