//! Readers and writers: one that counts its calls by how they ended, byte strings written whole, and
//! for tests those of which calls are short or one fails.
#![tactic(auto)]

mod counted;
mod failing;
mod failures;
mod slow;
mod whole;

pub use counted::Counted;
pub use failing::Failing;
pub use failures::{Failures, failure_shows};
pub use slow::Slow;
pub use whole::{DeviceFailed, write_whole};
