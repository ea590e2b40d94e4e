//! Properties of types: equality, width, whether they have an order and ranges.
ghost use Rattle.std.specs.Prelude.{◌≡◌};
ghost use Rattle.nft_tree.specs.TreeViews.{range_tree};
ghost use Rattle.rule_types.specs.Types.{compare_mismatches, has_ranges, is_order, is_ordered, is_single};
ghost use Rattle.rule_types.specs.Types.{range_mismatches, same_compared_type};

use nft_tree::{ComparedType, Operator, Selector, ValueRange, ValueType};

pub(crate) fn same_compared_type(one: ComparedType, other: ComparedType) -> bool
    ensures { result ≡ same_compared_type one other }
{
    one == other
}

/// Whether `<` and the like compare values of the type.
fn is_ordered(kind: ComparedType) -> bool
    ensures { result ≡ is_ordered kind }
{
    matches!(
        kind,
        ComparedType::Named(ValueType::Address | ValueType::Service | ValueType::Mark)
            | ComparedType::Unnamed(_)
    )
}

/// Whether the type has ranges `a-b`.
fn has_ranges(kind: ComparedType) -> bool
    ensures { result ≡ has_ranges kind }
{
    match kind {
        ComparedType::Named(ValueType::Protocol | ValueType::IcmpType) => true,
        _ => is_ordered(kind),
    }
}

/// Whether it is a range `a-b` of a type without ranges.
pub(crate) fn range_mismatches(kind: ComparedType, range: &ValueRange) -> bool
    ensures { result ≡ range_mismatches kind (range_tree range.now) }
{
    match range {
        ValueRange::Between(_, _) => !has_ranges(kind),
        ValueRange::One(_) | ValueRange::Prefix(_, _) => false,
    }
}

fn is_order(operator: Operator) -> bool
    ensures { result ≡ is_order operator }
{
    match operator {
        Operator::Below | Operator::Above | Operator::AtMost | Operator::AtLeast => true,
        Operator::Equal | Operator::Unequal => false,
    }
}

fn is_single(range: &ValueRange) -> bool
    ensures { result ≡ is_single (range_tree range.now) }
{
    matches!(range, ValueRange::One(_))
}

/// Whether an order is applied to a range, a prefix or a type without order, or the right side is a
/// range of a type without ranges.
pub(crate) fn compare_mismatches(selector: Selector, operator: Operator, range: &ValueRange) -> bool
    ensures { result ≡ compare_mismatches selector operator (range_tree range.now) }
{
    let kind = selector.kind();
    (is_order(operator) && !(is_single(range) && is_ordered(kind))) || range_mismatches(kind, range)
}
