//! Counts as numbers of tables and chains.
ghost use Rattle.std.specs.Prelude.{◌≡◌, IfOk};

use std::alloc::AllocError;

/// A count as a `u32`.
///
/// # Errors
///
/// `AllocError` where it is greater: no memory holds a ruleset with 2^32 of anything.
pub(crate) fn to_u32(count: usize) -> Result<u32, AllocError>
    ensures { IfOk result (λ n. n ≡ count) }
{
    match u32::try_from(count) {
        Ok(count) => Ok(count),
        Err(_) => Err(AllocError),
    }
}
