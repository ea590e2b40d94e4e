//! `found!`: `?` for functions that return `Result<Option<_>, _>`.

/// The value of an `Option`; `None` returns `Ok(None)` from the enclosing function.
#[macro_export]
macro_rules! found {
    ($step:expr) => {
        match $step {
            Some(found) => found,
            None => return Ok(None),
        }
    };
}
