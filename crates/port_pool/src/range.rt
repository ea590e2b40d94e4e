//! The port range of a rule.

/// The ports from `low` to `high`, both included, except 0. It is empty where `high` is less.
#[derive(Clone, Copy)]
pub struct CandidateRange {
    /// The first.
    pub low: u16,
    /// The last.
    pub high: u16,
}
