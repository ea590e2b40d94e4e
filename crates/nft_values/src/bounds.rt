//! Bounds of the numbers that a value or range denotes.
ghost use Rattle.std.specs.Prelude.{◌≡◌};

/// From `low` to `high`, both included. `low` may be the greater, as in `20-10`.
#[derive(Clone, Copy)]
pub struct Bounds {
    pub low: u128,
    pub high: u128,
}

pub fn one_number(number: u128) -> Bounds
    ensures low { result.low ≡ number }
    ensures high { result.high ≡ number }
{
    Bounds {
        low: number,
        high: number,
    }
}
