//! Numbers of failed calls.
ghost use Rattle.std.specs.Prelude.{◌≡◌, ◌≢◌};
ghost use Rattle.devices.specs.declared.failures.Failures.{Failures};
ghost use Rattle.devices.specs.Counting as counting;

/// A number of failed calls. After one more it always differs, even where `count` stays.
#[derive(Clone, Copy)]
pub struct Failures {
    /// Saturating.
    count: u64,
    /// Modulo 2^64.
    wrapped: u64,
}

impl Failures {
    /// None yet.
    pub const NONE: Failures = Failures {
        count: 0,
        wrapped: 0,
    };

    /// One more.
    pub(crate) fn one_more(self) -> Failures
        ensures { result ≡ counting.one_failure self }
    {
        Failures {
            count: self.count.saturating_add(1),
            wrapped: self.wrapped.wrapping_add(1),
        }
    }

    /// How many, saturating.
    pub(crate) fn count(self) -> u64
        ensures { result ≡ self.count }
    {
        self.count
    }
}

/// A failed call shows: after one more the number of failed calls differs, however great it was.
pub fn failure_shows()
    ensures { (failures : Failures) → counting.one_failure failures ≢ failures }
{}
