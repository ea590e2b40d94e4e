//! Lists of words.

use std::alloc::AllocError;

/// Appends what stands before the first of so many words: a blank, and a brace before more than one.
pub(crate) fn begin_choice(text: &mut Vec<u8>, count: usize) -> Result<(), AllocError> {
    text.extend_from_slice(if count == 1 { b" " } else { b" { " })
}

/// Appends what stands behind the last of them.
pub(crate) fn end_choice(text: &mut Vec<u8>, count: usize) -> Result<(), AllocError> {
    text.extend_from_slice(if count == 1 { b"" } else { b" }" })
}

/// Appends what stands between words before the one at this place.
pub(crate) fn put_between(
    text: &mut Vec<u8>,
    place: usize,
    between: &[u8],
) -> Result<(), AllocError> {
    text.extend_from_slice(if place > 0 { between } else { b"" })
}

/// Appends the words with this between them.
pub(crate) fn put_joined(
    text: &mut Vec<u8>,
    words: &[&[u8]],
    between: &[u8],
) -> Result<(), AllocError> {
    for (place, word) in words.iter().enumerate() {
        put_between(text, place, between)?;
        text.extend_from_slice(word)?;
    }
    Ok(())
}
