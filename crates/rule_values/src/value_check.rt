//! The two checks of single values.
ghost use Rattle.std.specs.Prelude.{◌≡◌};
ghost use Rattle.nft_tree.specs.TreeViews.{range_tree, value_tree};
ghost use Rattle.rule_values.specs.TypedValues.{typed_value};
ghost use Rattle.rule_values.specs.steps.Checks.{fails, typed_range};

use box_file::Plant;
use nft_tree::{ComparedType, Value, ValueRange};
use nft_values::{is_on_box, is_range, is_range_on_box, is_value};

/// A check of a value.
#[derive(Clone, Copy)]
pub(crate) enum ValueCheck {
    /// It is one of its type.
    IsOfType,
    /// The interface that it names exists on the box.
    IsOnBox,
}

impl ValueCheck {
    /// Whether a value, a range or a prefix fails the check.
    pub(crate) fn fails(self, network: &Plant, kind: ComparedType, range: &ValueRange) -> bool
        ensures { result ≡ fails self network.now (typed_range kind (range_tree range.now)) }
    {
        match self {
            ValueCheck::IsOfType => !is_range(network, kind, range),
            ValueCheck::IsOnBox => !is_range_on_box(network, kind, range),
        }
    }

    /// Whether a value fails the check.
    pub(crate) fn fails_value(self, network: &Plant, kind: ComparedType, value: &Value) -> bool
        ensures { result ≡ fails self network.now (typed_value kind (value_tree value.now)) }
    {
        match self {
            ValueCheck::IsOfType => !is_value(kind, value),
            ValueCheck::IsOnBox => !is_on_box(network, kind, value),
        }
    }
}
