//! Laws about packets, each as the contract of a function that does nothing.
ghost use Rattle.std.specs.Prelude.{◌≡◌, ◌<◌, ◌^◌, ℕ, List, None, IsTrue};
ghost use Rattle.ip_headers.specs.Header.{fault_of};
ghost use Rattle.ip_headers.specs.Passing.{Passes};
ghost use Rattle.ip_headers.specs.HashWords.{hash_word};
ghost use Rattle.ip_headers.specs.Same.{same_tuple};

use crate::tuple::{Endpoint, Kind, Tuple};
use std::hash::Hash;

/// A record has no fault exactly where it passes all tests.
pub fn no_fault()
    ensures passes { (bytes : List ℕ) → fault_of bytes ≡ None → Passes bytes }
    ensures faultless { (bytes : List ℕ) → Passes bytes → fault_of bytes ≡ None }
{}

/// Equal hash words are those of equal kinds and endpoints.
pub fn hash_words_differ(kind: Kind, endpoint: Endpoint, other_kind: Kind, other: Endpoint)
    ensures kind { hash_word kind endpoint ≡ hash_word other_kind other → kind ≡ other_kind }
    ensures endpoint { hash_word kind endpoint ≡ hash_word other_kind other → endpoint ≡ other }
    ensures range { hash_word kind endpoint < 2 ^ 64 }
{}

/// Tuples are equal exactly where their hashes take the same bytes.
pub fn hashes_differ(one: Tuple, other: Tuple)
    ensures equal { IsTrue (same_tuple one other)
        → ⟦<Tuple as Hash>⟧.hash_input one ≡ ⟦<Tuple as Hash>⟧.hash_input other }
    ensures differ { ⟦<Tuple as Hash>⟧.hash_input one ≡ ⟦<Tuple as Hash>⟧.hash_input other
        → one ≡ other }
{
    hash_words_differ(one.kind, one.source, other.kind, other.source);
    hash_words_differ(one.kind, one.destination, other.kind, other.destination);
    hash_words_differ(other.kind, other.source, one.kind, one.source);
    hash_words_differ(other.kind, other.destination, one.kind, one.destination);
}
