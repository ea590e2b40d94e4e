//! Finds keys of lines that are given twice, or with two values.
ghost use Rattle.std.specs.Prelude.{◌≡◌, map, IfOk};
ghost use Rattle.box_file.specs.Box.{any_pair};
ghost use Rattle.box_file.specs.steps.Tests.{two_values};

use std::alloc::{AllocError, Global};
use std::collections::{HashMap, HashSet};
use std::hash::Hash;

/// A line with a key that may be given once.
pub trait HasKey<K>: Drop {
    ghost key_of: { Self → K };

    fn key(&self) -> K
        ensures { result ≡ key_of self.now };
}

/// A line with a key that may have one value.
pub trait HasEntry<K, V>: Drop {
    ghost entry_of: { Self → K × V };

    fn entry(&self) -> (K, V)
        ensures { result ≡ entry_of self.now };
}

/// Whether two of the lines have the same key.
pub fn has_duplicate<K: Hash + Eq + Copy + Drop, L: HasKey<K>>(
    alloc: Global,
    lines: &[L],
) -> Result<bool, AllocError>
    ensures { IfOk result (λ r. r ≡ any_pair K.eq (map L.key_of lines.now)) }
{
    let mut seen = HashSet::new(alloc);
    for line in lines {
        if !seen.insert(line.key())? {
            return Ok(true);
        }
    }
    Ok(false)
}

/// Whether two of the lines have the same key and different values.
pub fn has_conflict<K: Hash + Eq + Copy + Drop, V: Eq + Copy + Drop, L: HasEntry<K, V>>(
    alloc: Global,
    lines: &[L],
) -> Result<bool, AllocError>
    ensures { IfOk result (λ r. r
        ≡ any_pair (two_values K.eq V.eq) (map L.entry_of lines.now)) }
{
    let mut values = HashMap::new(alloc);
    for line in lines {
        let (key, value) = line.entry();
        if let Some(before) = values.insert(key, value)? {
            if before != value {
                return Ok(true);
            }
        }
    }
    Ok(false)
}
