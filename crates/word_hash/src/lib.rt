//! A keyed hash over words: a hasher for the keys of hash tables that write one or two words of 64
//! bits.
//!
//! It is multilinear hashing with half the multiplications (Lemire and Kaser, Strongly universal
//! string hashing is fast, 2014), with five random keys. Two keys of a table that are chosen without
//! knowledge of these agree in any n of their hashes' 32 bits with probability 1 in 2^n: whoever
//! writes a capture before a run draws its keys can't make tuples collide. It takes a sixth of the
//! instructions of SipHash-1-3. A third word would get the keys of the second, for which this isn't
//! shown. Keys of different types belong in different tables. Which slot of a table a key gets
//! depends on the hash, no result of a table does.
#![tactic(auto)]

ghost use Rattle.std.specs.Prelude.{◌≡◌};
ghost use Rattle.word_hash.specs.WordHash.{after_word, after_write, finished, initial_state, published_keys};

use std::hash::{BuildHasher, Hasher, RandomState};

/// What is added to the halves of a word.
#[derive(Clone, Copy)]
pub struct HalfKeys {
    low: u64,
    high: u64,
}

/// A sum of products, and the keys of the next word and of those after it.
#[derive(Clone, Copy)]
pub struct WordHasher {
    sum: u64,
    next: HalfKeys,
    after: HalfKeys,
}

/// The keys with which a table's hashers begin.
#[derive(Clone, Copy)]
pub struct WordState {
    summand: u64,
    first: HalfKeys,
    second: HalfKeys,
}

impl WordState {
    /// Keys drawn from those of a `RandomState`: unknown to whoever doesn't know these.
    pub fn new(random: RandomState) -> Self {
        Self {
            summand: random.hash_one(0u64),
            first: HalfKeys {
                low: random.hash_one(1u64),
                high: random.hash_one(2u64),
            },
            second: HalfKeys {
                low: random.hash_one(3u64),
                high: random.hash_one(4u64),
            },
        }
    }
}

impl WordState {
    /// The same keys for every table, which are those of the source: for tables whose keys nobody
    /// chooses in order to slow them down.
    pub fn published() -> Self
        ensures { result ≡ published_keys }
    {
        Self {
            summand: 0x243f_6a88_85a3_08d3,
            first: HalfKeys {
                low: 0x1319_8a2e_0370_7344,
                high: 0xa409_3822_299f_31d0,
            },
            second: HalfKeys {
                low: 0x082e_fa98_ec4e_6c89,
                high: 0x4528_21e6_38d0_1377,
            },
        }
    }
}

impl BuildHasher for WordState {
    type Hasher = WordHasher;

    ghost build_hasher = { initial_state };

    #[inline(always)]
    fn build_hasher(&self) -> WordHasher {
        WordHasher {
            sum: self.summand,
            next: self.first,
            after: self.second,
        }
    }
}

impl WordHasher {
    /// Hashes one word.
    #[inline(always)]
    #[tactic(auto, unfolding(crate::specs::WordHash::after_word))]
    fn absorb(&mut self, word: u64)
        ensures { self.new ≡ after_word self.old word }
    {
        let low = (word % 0x1_0000_0000).wrapping_add(self.next.low);
        let high = (word / 0x1_0000_0000).wrapping_add(self.next.high);
        self.sum = self.sum.wrapping_add(low.wrapping_mul(high));
        self.next = self.after;
    }
}

impl Hasher for WordHasher {
    ghost write = { after_write };

    ghost finish = { finished };

    #[inline(always)]
    #[tactic(auto, unfolding(crate::specs::WordHash::finished))]
    fn finish(&self) -> u64 {
        self.sum / 0x1_0000_0000
    }

    // Eight bytes are a word. Other writes, which no key of these tables makes, are hashed too.
    fn write(&mut self, bytes: &[u8]) {
        if bytes.len() == 8 {
            self.absorb(u64::from_le_bytes([
                bytes[0], bytes[1], bytes[2], bytes[3], bytes[4], bytes[5], bytes[6], bytes[7],
            ]));
            return;
        }
        for byte in bytes {
            self.absorb(u64::from(*byte));
        }
    }

    #[inline(always)]
    fn write_u64(&mut self, i: u64) {
        self.absorb(i);
    }
}
