//! A hash map whose entries stand close together, in the order in which they came, until a removal
//! moves the last one into the gap. Each bucket's entries are a chain from the latest to the first.
//!
//! There are at least as many buckets as entries, so a chain has one entry or two on average, and a
//! look-up, an insertion and a removal take the time of the chains that they walk. Keys are hashed
//! under random ones, that must be unknown to whoever chooses the keys: else these can be chosen so
//! that all are in one chain. Which bucket a key is in depends on its hash, no result does.
//!
//! Memory is reserved ahead: an insertion needs room, never allocates and can't fail.
#![tactic(auto)]

mod buckets;
mod chains;
mod growth;
mod lookups;
mod map;
mod node;

pub use map::ChainedMap;
