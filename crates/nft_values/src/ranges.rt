//! Ranges and prefixes, and the numbers that they denote.
ghost use Rattle.std.specs.Prelude.{◌≡◌, ◌<◌, ◌^◌, IfSome};
ghost use Rattle.std.specs.Option.{option_map};
ghost use Rattle.nft_tree.specs.Tree as tree;
ghost use Rattle.nft_tree.specs.TreeViews.{range_tree, value_tree};
ghost use Rattle.nft_tree.specs.ComparedTypes.{compared_type_width};
ghost use Rattle.nft_values.specs.Values.{has_numbers, is_range, is_range_on_box, numbers_of, prefix_span, range_span, span_of};
ghost use Rattle.nft_values.specs.steps.Bounds.{bounds_span};

use crate::bounds::Bounds;
use crate::compared_types::is_address;
use crate::values::{has_number, is_on_box, is_value, value_bounds};
use box_file::Plant;
use nft_tree::{ComparedType, Value, ValueRange};
use set_intervals::Range as Interval;

/// The width of an IPv4 address, in bits.
const ADDRESS_BITS: u64 = 32;

/// Whether the range is one of the type: a value of it; two values of it in ascending order; or,
/// for addresses, a prefix of at most 32 bits.
pub fn is_range(network: &Plant, kind: ComparedType, range: &ValueRange) -> bool
    ensures { result ≡ is_range network.now kind (range_tree range.now) }
{
    match range {
        ValueRange::One(value) => is_value(kind, value),
        ValueRange::Between(low, high) => {
            is_value(kind, low)
                && is_value(kind, high)
                && value_bounds(network, kind, low).low <= value_bounds(network, kind, high).high
        }
        ValueRange::Prefix(_, length) => is_address(kind) && *length <= ADDRESS_BITS,
    }
}

/// Whether the interfaces that a range of type iface_index names exist on the box; true for every
/// other type.
pub fn is_range_on_box(network: &Plant, kind: ComparedType, range: &ValueRange) -> bool
    ensures { result ≡ is_range_on_box network.now kind (range_tree range.now) }
{
    match range {
        ValueRange::One(value) => is_on_box(network, kind, value),
        ValueRange::Between(low, high) => is_on_box(network, kind, low)
            && is_on_box(network, kind, high),
        ValueRange::Prefix(..) => true,
    }
}

/// The addresses that share the address's first `length` bits.
fn prefix_bounds(address: u32, length: u64) -> Bounds
    ensures { bounds_span result ≡ prefix_span address length }
{
    let size = 1u128 << ADDRESS_BITS.saturating_sub(length);
    let address = u128::from(address);
    let low = address - address % size;
    Bounds {
        low,
        high: low + (size - 1),
    }
}

/// The bounds of the range, in the order in which they are written.
fn range_bounds(network: &Plant, kind: ComparedType, range: &ValueRange) -> Bounds
    ensures { bounds_span result ≡ range_span network.now kind (range_tree range.now) }
{
    match range {
        ValueRange::One(value) => value_bounds(network, kind, value),
        ValueRange::Between(low, high) => Bounds {
            low: value_bounds(network, kind, low).low,
            high: value_bounds(network, kind, high).high,
        },
        ValueRange::Prefix(address, length) => prefix_bounds(*address, *length),
    }
}

/// Whether the values of the range denote numbers, which only an unknown interface name of type
/// iface_index doesn't.
fn has_numbers(network: &Plant, kind: ComparedType, range: &ValueRange) -> bool
    ensures { result ≡ has_numbers network.now kind (range_tree range.now) }
{
    match range {
        ValueRange::One(value) => has_number(network, kind, value),
        ValueRange::Between(low, high) => has_number(network, kind, low)
            && has_number(network, kind, high),
        ValueRange::Prefix(..) => true,
    }
}

/// The numbers that the range denotes; `None` if it isn't one of the type, or names an interface
/// index that the box doesn't have.
pub fn numbers_of(network: &Plant, kind: ComparedType, range: &ValueRange) -> Option<Interval>
    ensures { option_map span_of result ≡ numbers_of network.now kind (range_tree range.now) }
{
    if !is_range(network, kind, range) || !has_numbers(network, kind, range) {
        return None;
    }
    let bounds = range_bounds(network, kind, range);
    Interval::new(bounds.low, bounds.high)
}

/// The numbers that the value denotes: one, or for an interface name that ends in `*` those of all
/// names with that prefix. They fit the type's width. `None` if it isn't a value of the type, or
/// names an interface index that the box doesn't have.
pub fn value_numbers(network: &Plant, kind: ComparedType, value: &Value) -> Option<Interval>
    ensures numbers { option_map span_of result
        ≡ numbers_of network.now kind (tree.one (value_tree value.now)) }
    ensures fits { IfSome result (λ numbers. numbers.high < 2 ^ compared_type_width kind) }
{
    if !is_value(kind, value) || !has_number(network, kind, value) {
        return None;
    }
    let bounds = value_bounds(network, kind, value);
    Interval::new(bounds.low, bounds.high)
}
