//! Which cases of the new ruleset are tried first. Nothing rests on it but time: in two rulesets that
//! are nearly the same, cases with the same packets stand in the same order.
use std::alloc::{AllocError, Global};

/// How many cases are kept in mind.
const KEPT: usize = 16;

/// The indexes of cases that had packets last, the last one first.
#[derive(Drop)]
pub(crate) struct Hints {
    recent: Vec<usize>,
}

impl Hints {
    /// None.
    pub(crate) fn new(alloc: Global) -> Hints {
        Hints {
            recent: Vec::new(alloc),
        }
    }

    /// The indexes to try: behind each case kept in mind, and that case itself.
    pub(crate) fn indexes(&self, alloc: Global) -> Result<Vec<usize>, AllocError> {
        let mut indexes = Vec::new(alloc);
        if self.recent.is_empty() {
            indexes.push(0)?;
        }
        for index in &self.recent {
            indexes.push(index.saturating_add(1))?;
            indexes.push(*index)?;
        }
        Ok(indexes)
    }

    /// The case with this index was tried, and had packets or not.
    pub(crate) fn tried(&mut self, index: usize, had_some: bool) -> Result<(), AllocError> {
        if !had_some {
            return Ok(());
        }
        self.recent.retain(|recent| *recent != index);
        self.recent.truncate(KEPT - 1);
        self.recent.insert(0, index)?;
        Ok(())
    }
}
