//! Non-empty ranges of 128-bit numbers.
ghost use Rattle.std.specs.Prelude.{◌≡◌, ◌≤◌, ◌<◌, ◌+◌, ◌^◌, ◌↔◌, max, min, IsTrue, MatchOption};

/// The numbers from `low` to `high`, both included. Never empty.
#[derive(Clone, Copy)]
pub struct Range {
    low: u128,
    high: u128,
    pub ghost ordered: { low ≤ high },
    pub ghost narrow: { high < 2 ^ 128 },
}

impl Range {
    /// The numbers from `low` to `high`, both included; `None` if `high < low`.
    pub fn new(low: u128, high: u128) -> Option<Range>
        ensures { MatchOption result (high < low) (λ r. (r.low ≡ low) × (r.high ≡ high)) }
    {
        if low <= high {
            Some(Range { low, high })
        } else {
            None
        }
    }

    /// The range of one number.
    pub fn of_number(number: u128) -> Range
        ensures { (result.low ≡ number) × (result.high ≡ number) }
    {
        Range {
            low: number,
            high: number,
        }
    }

    /// The lowest number.
    #[inline(always)]
    pub fn low(self) -> u128
        ensures { result ≡ self.low }
    {
        self.low
    }

    /// The highest number.
    #[inline(always)]
    pub fn high(self) -> u128
        ensures { result ≡ self.high }
    {
        self.high
    }

    /// Whether the two ranges share a number, where `later` starts no lower than this one.
    pub(crate) fn overlaps(self, later: Range) -> bool
        requires { self.low ≤ later.low }
        ensures { IsTrue result ↔ (later.low ≤ self.high) }
    {
        later.low <= self.high
    }

    /// Whether `later` starts right after this range ends. (`high + 1` could overflow.)
    pub(crate) fn touches(self, later: Range) -> bool
        ensures { IsTrue result ↔ (self.high + 1 ≡ later.low) }
    {
        self.high < later.low && later.low - self.high == 1
    }

    /// From the start of this range to the end of whichever ends last.
    pub(crate) fn merged(self, later: Range) -> Range
        ensures low { result.low ≡ self.low }
        ensures high { result.high ≡ max self.high later.high }
    {
        Range {
            low: self.low,
            high: self.high.max(later.high),
        }
    }

    /// The part of this range below the other one, if there is any.
    pub(crate) fn before(self, other: Range) -> Option<Range>
        ensures { MatchOption result (other.low ≤ self.low)
            (λ r. (r.low ≡ self.low) × (r.high + 1 ≡ min (self.high + 1) other.low)) }
    {
        if self.low < other.low {
            Some(Range {
                low: self.low,
                high: self.high.min(other.low - 1),
            })
        } else {
            None
        }
    }

    /// The part of this range above the other one, if there is any.
    pub(crate) fn after(self, other: Range) -> Option<Range>
        ensures { MatchOption result (self.high ≤ other.high)
            (λ r. (r.low ≡ max self.low (other.high + 1)) × (r.high ≡ self.high)) }
    {
        if other.high < self.high {
            Some(Range {
                low: self.low.max(other.high + 1),
                high: self.high,
            })
        } else {
            None
        }
    }
}
