//! Which values belong to a type.
ghost use Rattle.std.specs.Prelude.{◌≡◌, ◌&&◌, ◌^◌, nat_lt};
ghost use Rattle.nft_tree.specs.ComparedTypes.{compared_type_width};
ghost use Rattle.nft_values.specs.Values.{is_address, lists_word, takes_numbers};

use nft_tree::{ComparedType, ValueType};

fn takes_numbers(kind: ComparedType) -> bool
    ensures { result ≡ takes_numbers kind }
{
    match kind {
        ComparedType::Named(
            ValueType::Address
            | ValueType::InterfaceName
            | ValueType::CtState
            | ValueType::CtStatus,
        ) => false,
        _ => true,
    }
}

/// Whether the number fits in `width` bits.
fn fits(number: u64, width: u32) -> bool
    ensures { result ≡ nat_lt number (2 ^ width) }
{
    // Shifting by 64 or more would overflow.
    width >= 64 || number >> width == 0
}

/// Whether the type takes numbers, and this one fits its width.
pub fn is_number_of(kind: ComparedType, number: u64) -> bool
    ensures { result ≡ takes_numbers kind && nat_lt number (2 ^ compared_type_width kind) }
{
    takes_numbers(kind) && fits(number, kind.width())
}

/// Whether the type is that of IPv4 addresses.
pub fn is_address(kind: ComparedType) -> bool
    ensures { result ≡ is_address kind }
{
    match kind {
        ComparedType::Named(ValueType::Address) => true,
        _ => false,
    }
}

/// Whether the word is one of the type's symbolic constants.
pub fn lists_word(kind: ComparedType, word: &[u8]) -> bool
    ensures { result ≡ lists_word kind word.now }
{
    match kind {
        ComparedType::Named(value_type) => value_type.number_of(word).is_some(),
        ComparedType::Unnamed(_) => false,
    }
}
