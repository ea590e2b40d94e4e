//! The types of the parts of a set's keys.
ghost use Rattle.std.specs.Prelude.{◌≡◌, slice_get};
ghost use Rattle.rule_values.specs.steps.Views.{key_types_of};

use nft_tree::{ComparedType, Selector, SetType};

/// The types of the parts of a set's keys.
#[derive(Clone, Copy)]
pub(crate) enum KeyTypes<'t> {
    /// As a named set declares them.
    Declared(&'t SetType),
    /// Those of the selectors that are looked up in an anonymous set.
    Selected(&'t [Selector]),
}

impl KeyTypes<'_> {
    /// The type of the part, counted from 0; `None` past the last.
    pub(crate) fn kind(&self, part: usize) -> Option<ComparedType>
        ensures { result ≡ slice_get (key_types_of self.now) part }
    {
        match self {
            KeyTypes::Declared(types) => types.kind(part),
            KeyTypes::Selected(selectors) => Some(selectors.get(part)?.kind()),
        }
    }
}
