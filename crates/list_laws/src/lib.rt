//! Lemmas about lists, booleans and options that several crates' proofs share, beyond the standard
//! library's.
#![tactic(auto)]
