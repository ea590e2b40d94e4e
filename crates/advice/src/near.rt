//! The word nearest to another one.
use std::alloc::{AllocError, Global};
use strsim::osa_distance;

/// The longest word that is compared, in bytes.
const MOST_BYTES: usize = 64;

/// How many changes lead from a word to another: characters added, left out, changed, or exchanged
/// with the next. None where it isn't near: with more than one change for each three characters.
pub fn changes(alloc: Global, word: &str, other: &str) -> Result<Option<usize>, AllocError> {
    if word.is_empty() || word.len() > MOST_BYTES || other.len() > MOST_BYTES {
        return Ok(None);
    }
    let found = osa_distance(alloc, word, other)?;
    let is_near = found <= word.len().div_ceil(3) && found < other.len();
    Ok(is_near.then_some(found))
}

/// The nearest of some words.
pub fn nearest<'a>(
    alloc: Global,
    word: &str,
    others: &[&'a str],
) -> Result<Option<&'a str>, AllocError> {
    let mut nearest = None;
    let mut fewest = usize::MAX;
    for &other in others {
        if let Some(changes) = changes(alloc, word, other)?
            && changes < fewest
        {
            nearest = Some(other);
            fewest = changes;
        }
    }
    Ok(nearest)
}
