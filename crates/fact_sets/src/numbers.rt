//! What the numbers of a field stand for.
ghost use Rattle.std.specs.Prelude.{◌≡◌};
ghost use Rattle.fact_sets.specs.steps.Readings.{meant, state_meant};

use crate::interfaces::Interfaces;

/// What the numbers of a field stand for.
#[derive(Clone, Copy)]
pub(crate) enum Numbers<'a> {
    /// Themselves.
    Plain,
    /// The names of interfaces.
    Names(&'a Interfaces),
    /// The indexes of interfaces.
    Indexes(&'a Interfaces),
    /// Each for this number.
    Constant(u32),
    /// The bits of `ct state`.
    States,
    /// The bits of `ct status`.
    Statuses,
}

fn state(number: u64) -> u128
    ensures { result ≡ state_meant number }
{
    match number {
        2 => 64,
        3 => 1,
        4 => 2,
        5 => 4,
        _ => 8,
    }
}

impl Numbers<'_> {
    /// What the number stands for.
    pub(crate) fn of(self, number: u64) -> u128
        ensures { result ≡ meant self.entry number }
    {
        match self {
            Numbers::Plain => u128::from(number),
            Numbers::Names(interfaces) => interfaces.at(number).name,
            Numbers::Indexes(interfaces) => u128::from(interfaces.at(number).index),
            Numbers::Constant(constant) => u128::from(constant),
            Numbers::States => state(number),
            Numbers::Statuses => {
                let number = u128::from(number);
                number % 2 * 2 + number / 2 % 2 * 16 + number / 4 * 32
            }
        }
    }
}
