//! The numbers of keys: the elements of sets and maps as intervals.
ghost use Rattle.std.specs.Prelude.{◌≡◌, ◌+◌, ◌*◌, ◌^◌, ◌<◌, false, map, IfOk};
ghost use Rattle.std.specs.Option.{option_map};
ghost use Rattle.nft_tree.specs.TreeViews.{key_tree, set_type_tree, value_tree};
ghost use Rattle.nft_tree.specs.ComparedTypes.{compared_type_width, key_compared_types, selector_compared_type};
ghost use Rattle.nft_values.specs.Values.{span_of};
ghost use Rattle.rule_types.specs.Types.{is_too_wide};
ghost use Rattle.rule_meaning.specs.Sets.{key_numbers, parts};
ghost use Rattle.rule_meaning.specs.Selectors.{join};

use box_file::Plant;
use nft_tree::{ComparedType, Key, Selector, SetType, Value, ValueType};
use nft_values::{numbers_of, value_numbers};
use set_intervals::Range;
use std::alloc::{AllocError, Global};

/// The compared types of selectors.
pub(crate) fn selector_kinds(
    alloc: Global,
    selectors: &[Selector],
) -> Result<Vec<ComparedType>, AllocError>
    ensures { IfOk result (λ kinds. kinds.items ≡ map selector_compared_type selectors.now) }
{
    selectors
        .iter()
        .map(|selector| selector.kind())
        .collect(alloc)
}

/// The compared types of named types.
fn named_kinds(alloc: Global, types: &[ValueType]) -> Result<Vec<ComparedType>, AllocError>
    ensures { IfOk result (λ kinds. kinds.items ≡ map ComparedType.Named types.now) }
{
    types
        .iter()
        .map(|value_type| ComparedType::Named(*value_type))
        .collect(alloc)
}

/// The compared types of a declared set's keys, part by part of a concatenation.
pub(crate) fn key_compared_types(
    alloc: Global,
    key: &SetType,
) -> Result<Vec<ComparedType>, AllocError>
    ensures { IfOk result (λ kinds. kinds.items ≡ key_compared_types (set_type_tree key.now)) }
{
    match key {
        SetType::Types(types) => named_kinds(alloc, types),
        SetType::Selectors(selectors) => selector_kinds(alloc, selectors),
    }
}

/// The number with the next one, of this type, behind it.
fn appended(number: u128, kind: ComparedType, next: u128) -> u128
    requires { number * 2 ^ compared_type_width kind + next < 2 ^ 128 }
    ensures { result ≡ number * 2 ^ compared_type_width kind + next }
{
    let bits = kind.width();
    // Nothing fits before 128 bits or more: the number is 0.
    if bits >= 128 {
        next
    } else {
        (number << bits) + next
    }
}

/// The concatenation of values of these types, the first one in the highest bits. `None` where a
/// value has no number of its type, or the counts of types and values differ.
fn concatenated(network: &Plant, kinds: &[ComparedType], values: &[Value]) -> Option<u128>
    requires { is_too_wide kinds.now ≡ false }
    ensures { result ≡ join 0 (parts network.now kinds.now (map value_tree values.now)) }
{
    let mut number = 0;
    for (part, kind) in kinds.iter().enumerate() {
        let value = values.get(part)?;
        let next = value_numbers(network, *kind, value)?.low();
        number = appended(number, *kind, next);
    }
    if values.len() > kinds.len() {
        return None;
    }
    Some(number)
}

/// The interval of a key of these types; `None` where it has no number of them.
pub(crate) fn key_numbers(network: &Plant, kinds: &[ComparedType], key: &Key) -> Option<Range>
    requires { is_too_wide kinds.now ≡ false }
    ensures { option_map span_of result ≡ key_numbers network.now kinds.now (key_tree key.now) }
{
    match key {
        Key::Single(range) => match kinds {
            [kind] => numbers_of(network, *kind, range),
            _ => None,
        },
        Key::Joined(values) => {
            let number = concatenated(network, kinds, values)?;
            Range::new(number, number)
        }
    }
}
