//! Ranges of tokens.

/// The tokens `tokens[first..end]`.
#[derive(Clone, Copy, Debug, PartialEq)]
pub struct TokenRange {
    /// The index of the first token.
    pub first: usize,
    /// The index of the token after the last one.
    pub end: usize,
}
