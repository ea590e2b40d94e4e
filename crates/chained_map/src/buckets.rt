//! Which bucket a key is in.
ghost use Rattle.std.specs.Prelude.{◌≡◌, ◌+◌, ◌<◌, ◌≤◌, ◌^◌, IfOk};
ghost use Rattle.chained_map.specs.steps.Buckets.{bucket_of, hash_of};

use std::alloc::AllocError;
use std::hash::{BuildHasher, Hash};
use word_hash::WordState;

/// The hash of a key.
#[inline(always)]
pub(crate) fn hash_of<K: Hash + Copy>(keys: WordState, key: K) -> u32
    ensures { result ≡ hash_of keys (K.hash_input key) }
{
    (keys.hash_one(key) % 0x1_0000_0000) as u32
}

/// The bucket of a hash, among so many buckets. Where hashes are spread evenly over their 32 bits,
/// buckets are too.
#[inline(always)]
pub(crate) fn bucket_of(hash: u32, count: usize) -> usize
    requires { (0 < count) × (count ≤ 2 ^ 31) }
    ensures value { result ≡ bucket_of count hash }
    ensures within { result < count }
{
    (u64::from(hash) * count as u64 / 0x1_0000_0000) as usize
}

/// The most buckets that a map may have.
const MOST: usize = 0x8000_0000;

/// How many buckets a map gets that has so many and so many entries, for more entries: twice as
/// many as before at least, so that the cost of an insertion stays small on average.
///
/// # Errors
///
/// `AllocError` where there would be more than the most.
pub(crate) fn grown(count: usize, len: usize, additional: usize) -> Result<usize, AllocError>
    requires { (len ≤ count) × (count ≤ 2 ^ 31) }
    ensures more { IfOk result (λ size. count ≤ size) }
    ensures room { IfOk result (λ size. len + additional ≤ size) }
    ensures few { IfOk result (λ size. size ≤ 2 ^ 31) }
{
    if additional > MOST - len {
        return Err(AllocError);
    }
    Ok((2 * count).max(16).max(len + additional).min(MOST))
}
