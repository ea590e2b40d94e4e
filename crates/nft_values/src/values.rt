//! Whether a value is one of its type, and the numbers that it denotes.
ghost use Rattle.std.specs.Prelude.{◌≡◌, ◌<◌, ◌&&◌, ◌^◌, nat_lt, true, is_some};
ghost use Rattle.box_file.specs.Box.{name_of};
ghost use Rattle.nft_tree.specs.TreeViews.{value_tree};
ghost use Rattle.nft_tree.specs.ComparedTypes.{compared_type_width};
ghost use Rattle.nft_values.specs.Values.{has_number, is_name_of, is_on_box, is_value, text_span, value_span};
ghost use Rattle.nft_values.specs.steps.Bounds.{bounds_span};

use crate::bounds::{Bounds, one_number};
use crate::compared_types::{is_address, is_number_of, lists_word};
use crate::names::{is_interface_name, name_bounds};
use box_file::Plant;
use nft_tree::{ComparedType, Value, ValueType};

/// Whether the text is an interface name and the type one of interfaces. For iface_index any text
/// is, whether or not such an interface exists.
fn is_name_of(kind: ComparedType, name: &[u8]) -> bool
    ensures { result ≡ is_name_of kind name.now }
{
    match kind {
        ComparedType::Named(ValueType::InterfaceName) => is_interface_name(name),
        ComparedType::Named(ValueType::InterfaceIndex) => true,
        _ => false,
    }
}

/// Whether the value is one of the type: of a form that it takes, and within its width.
pub fn is_value(kind: ComparedType, value: &Value) -> bool
    ensures { result ≡ is_value kind (value_tree value.now) }
{
    match value {
        Value::Number(number) => is_number_of(kind, *number),
        Value::Address(_) => is_address(kind),
        Value::Word(word) => is_name_of(kind, word) || lists_word(kind, word),
        Value::String(text) => is_name_of(kind, text),
    }
}

/// Whether the number is the index of an interface of the box.
fn has_index(network: &Plant, number: u64) -> bool
    ensures { result ≡ nat_lt number (2 ^ 32) && is_some (name_of network.now number) }
{
    match u32::try_from(number) {
        Ok(index) => network.name(index).is_some(),
        Err(_) => false,
    }
}

/// Whether the interface that a value of type iface_index names exists on the box; true for every
/// other type.
pub fn is_on_box(network: &Plant, kind: ComparedType, value: &Value) -> bool
    ensures { result ≡ is_on_box network.now kind (value_tree value.now) }
{
    match (kind, value) {
        (ComparedType::Named(ValueType::InterfaceIndex), Value::Number(number)) => {
            has_index(network, *number)
        }
        _ => has_number(network, kind, value),
    }
}

/// Whether the value denotes a number: a name of type iface_index only if the box has such an
/// interface, everything else always.
pub fn has_number(network: &Plant, kind: ComparedType, value: &Value) -> bool
    ensures { result ≡ has_number network.now kind (value_tree value.now) }
{
    match (kind, value) {
        (ComparedType::Named(ValueType::InterfaceIndex), Value::Word(name) | Value::String(name)) =>
            { network.named(name).is_some() }
        _ => true,
    }
}

/// The numbers of a word or a string: an interface name, an interface's index, or the type's
/// symbolic constant. What is no value of the type gives 0.
fn text_bounds(network: &Plant, kind: ComparedType, text: &[u8]) -> Bounds
    ensures span { bounds_span result ≡ text_span network.now kind text.now }
    ensures fits { result.high < 2 ^ compared_type_width kind }
{
    let number = match kind {
        ComparedType::Named(ValueType::InterfaceName) => return name_bounds(text),
        ComparedType::Named(ValueType::InterfaceIndex) => network.named(text),
        ComparedType::Named(value_type) => value_type.number_of(text),
        ComparedType::Unnamed(_) => None,
    };
    one_number(u128::from(number.unwrap_or(0)))
}

/// The numbers of a value; 0 for an unknown interface name of type iface_index.
pub fn value_bounds(network: &Plant, kind: ComparedType, value: &Value) -> Bounds
    ensures span { bounds_span result ≡ value_span network.now kind (value_tree value.now) }
    ensures fits { is_value kind (value_tree value.now) ≡ true
        → result.high < 2 ^ compared_type_width kind }
{
    match value {
        Value::Number(number) => one_number(u128::from(*number)),
        Value::Address(address) => one_number(u128::from(*address)),
        Value::Word(text) | Value::String(text) => text_bounds(network, kind, text),
    }
}
