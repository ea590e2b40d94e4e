//! Symbolic constants of selectors.
ghost use Rattle.std.specs.Prelude.{◌≡◌};
ghost use Rattle.nft_expressions.specs.Selectors.{is_word_for};

use nft_tree::{Selector, ValueType};

/// Whether the word is a symbolic constant of what the selector reads. Any word is an interface's
/// name; a plain integer has no constants.
pub fn type_has_word(selector: Selector, word: &[u8]) -> bool
    ensures { result ≡ is_word_for selector word.now }
{
    match selector.value_type() {
        None => false,
        Some(ValueType::InterfaceName | ValueType::InterfaceIndex) => true,
        Some(value_type) => value_type.number_of(word).is_some(),
    }
}
