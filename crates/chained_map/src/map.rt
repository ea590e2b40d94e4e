//! The map.
ghost use Rattle.std.specs.Prelude.{◌≡◌, ◌+◌, ◌-◌, ◌<◌, ◌≤◌, ◌↔◌, cond, [], ◌∷◌, ◌++◌, slice_get, None, Some, IsSome, IsTrue, IsOk, OnOk};
ghost use Rattle.std.specs.HashMap.{get, spare, values, hasher_of, hash_map_len, IsUnique, IsEmpty, IsUnchanged};
ghost use Rattle.std.specs.List.{swap_remove};
ghost use Rattle.chained_map.specs.Values.{hash_map, position, set_value_at};
ghost use Rattle.chained_map.specs.steps.Buckets.{hash_of};

use crate::buckets::hash_of;
use crate::chains::{push_node, remove_node};
use crate::growth::make_room;
use crate::lookups::find;
use crate::node::Node;
use std::alloc::{AllocError, Global};
use std::hash::Hash;
use std::marker::Model;
use word_hash::WordState;

/// A map from keys to values, which is hashed under the keys of a `WordState`.
#[derive(Drop)]
pub struct ChainedMap<K: Copy + Eq + Hash, V: Copy> {
    /// One more than the index of the latest node of each bucket, 0 if it has none.
    heads: Vec<u32>,
    nodes: Vec<Node<K, V>>,
    keys: WordState,
}

impl<K: Copy + Eq + Hash, V: Copy> Model for ChainedMap<K, V> {
    ghost use Rattle.std.specs.Prelude.{◌-◌, length};
    ghost use Rattle.std.specs.HashMap.{HashMap};
    ghost use Rattle.word_hash.specs.declared.WordState.{WordState as Keys};
    ghost use Rattle.chained_map.specs.Values.{hash_map, hash_map_code, keys_code};

    ghost Value = { HashMap K V Keys };

    ghost coded = { hash_map_code K.code V.code keys_code };

    ghost use Rattle.chained_map.specs.steps.Nodes.{entries_of};
    ghost use Rattle.chained_map.specs.steps.Buckets.{hash_of};
    ghost use Rattle.chained_map.specs.steps.Tables.{IsTable};

    ghost view = { λ m. hash_map (entries_of m.nodes.items) m.keys (length m.heads.items - length m.nodes.items) };

    ghost invariant = { λ m. IsTable K.eq (λ k. hash_of m.keys (K.hash_input k)) m.heads.items m.nodes.items m.nodes.cap };
}

impl<K: Copy + Eq + Hash, V: Copy> ChainedMap<K, V> {
    /// A map with no entries and no room for any.
    pub fn with_hasher(alloc: Global, keys: WordState) -> Self
        ensures empty { IsEmpty result }
        ensures spare { spare result ≡ 0 }
        ensures hasher { hasher_of result ≡ keys }
        ensures unique { IsUnique K.eq result }
    {
        ChainedMap {
            heads: Vec::new(alloc),
            nodes: Vec::new(alloc),
            keys,
        }
    }

    /// How many entries there are.
    pub fn len(&self) -> usize
        ensures len { result ≡ hash_map_len self.now }
        ensures unique { IsUnique K.eq self.now }
    {
        self.nodes.len()
    }

    /// Whether there are none.
    pub fn is_empty(&self) -> bool
        ensures { IsTrue result ↔ (hash_map_len self.now ≡ 0) }
    {
        self.nodes.is_empty()
    }

    /// For how many more entries there is room.
    pub fn spare(&self) -> usize
        ensures value { result ≡ spare self.now }
        ensures unique { IsUnique K.eq self.now }
    {
        self.heads.len() - self.nodes.len()
    }

    /// The value of a key.
    #[inline(always)]
    pub fn get(&self, key: K) -> Option<V>
        ensures value { result ≡ get K.eq self.now key }
        ensures unique { IsUnique K.eq self.now }
    {
        match self.index_of(hash_of(self.keys, key), key) {
            Some(index) => Some(self.value_at(index)),
            None => None,
        }
    }

    /// Gives a key a value. What was there before.
    #[inline(always)]
    pub fn insert(&mut self, key: K, value: V) -> Option<V>
        requires { 0 < spare self.old }
        ensures before { result ≡ get K.eq self.old key }
        ensures values { (q : K) → get K.eq self.new q
            ≡ cond (K.eq key q) (Some value) (get K.eq self.old q) }
        ensures spare { spare self.old ≤ spare self.new + 1 }
        ensures spare_stays { IsSome (get K.eq self.old key) → spare self.new ≡ spare self.old }
        ensures unique { IsUnique K.eq self.new }
        ensures hasher { hasher_of self.new ≡ hasher_of self.old }
    {
        let hash = hash_of(self.keys, key);
        if let Some(index) = self.index_of(hash, key) {
            return Some(self.replace_value(index, value));
        }
        self.push(hash, key, value);
        None
    }

    /// Gives a key a value unless it has one, which is returned and stays.
    #[inline(always)]
    pub fn insert_if_absent(&mut self, key: K, value: V) -> Option<V>
        requires { 0 < spare self.old }
        ensures before { result ≡ get K.eq self.old key }
        ensures stays { IsSome (get K.eq self.old key) → self.new ≡ self.old }
        ensures values { get K.eq self.old key ≡ None
            → (q : K) → get K.eq self.new q ≡ cond (K.eq key q) (Some value) (get K.eq self.old q) }
        ensures spare { get K.eq self.old key ≡ None → spare self.old ≡ spare self.new + 1 }
        ensures unique { IsUnique K.eq self.new }
        ensures hasher { hasher_of self.new ≡ hasher_of self.old }
    {
        let hash = hash_of(self.keys, key);
        if let Some(index) = self.index_of(hash, key) {
            return Some(self.value_at(index));
        }
        self.push(hash, key, value);
        None
    }

    /// Gives a key another value, if it has one. What it had.
    pub fn replace(&mut self, key: K, value: V) -> Option<V>
        ensures before { result ≡ get K.eq self.old key }
        ensures stays { get K.eq self.old key ≡ None → self.new ≡ self.old }
        ensures values { IsSome (get K.eq self.old key)
            → (q : K) → get K.eq self.new q ≡ cond (K.eq key q) (Some value) (get K.eq self.old q) }
        ensures spare { spare self.new ≡ spare self.old }
        ensures unique { IsUnique K.eq self.new }
        ensures hasher { hasher_of self.new ≡ hasher_of self.old }
    {
        match self.index_of(hash_of(self.keys, key), key) {
            Some(index) => Some(self.replace_value(index, value)),
            None => None,
        }
    }

    /// Removes a key. What it had.
    pub fn remove(&mut self, key: K) -> Option<V>
        ensures before { result ≡ get K.eq self.old key }
        ensures values { (q : K) → get K.eq self.new q ≡ cond (K.eq key q) None (get K.eq self.old q) }
        ensures spare { spare self.old ≤ spare self.new }
        ensures one_more { IsSome (get K.eq self.old key) → spare self.new ≡ spare self.old + 1 }
        ensures stays { get K.eq self.old key ≡ None → self.new ≡ self.old }
        ensures unique { IsUnique K.eq self.new }
        ensures hasher { hasher_of self.new ≡ hasher_of self.old }
    {
        match self.index_of(hash_of(self.keys, key), key) {
            Some(index) => Some(self.remove_at(index)),
            None => None,
        }
    }

    /// Makes room for so many more entries. If there is room for them already nothing changes.
    ///
    /// # Errors
    ///
    /// `AllocError` where memory ran out, or more than 2^31 entries would have to fit. No key's value
    /// changes then, and no room is lost.
    pub fn reserve(&mut self, additional: usize) -> Result<(), AllocError>
        ensures entries { IsUnchanged self.old self.new }
        ensures values { (q : K) → get K.eq self.new q ≡ get K.eq self.old q }
        ensures room { OnOk result (additional ≤ spare self.new) }
        ensures kept { spare self.old ≤ spare self.new }
        ensures spared { additional ≤ spare self.old → (self.new ≡ self.old) × IsOk result }
        ensures unique { IsUnique K.eq self.new }
        ensures hasher { hasher_of self.new ≡ hasher_of self.old }
    {
        if additional <= self.spare() {
            return Ok(());
        }
        self.grow(additional)
    }

    /// The index of a key's entry.
    #[inline(always)]
    fn index_of(&self, hash: u32, key: K) -> Option<usize>
        requires { hash ≡ hash_of (hasher_of self.now) (K.hash_input key) }
        ensures place { result ≡ position (K.eq key) self.now.entries }
        ensures unique { IsUnique K.eq self.now }
    {
        find(&self.heads, &self.nodes, hash, key)
    }

    /// The value of the entry at an index.
    #[inline(always)]
    fn value_at(&self, index: usize) -> V
        requires { index < hash_map_len self.now }
        ensures { slice_get (values self.now) index ≡ Some result }
    {
        self.nodes[index].value
    }

    /// Gives the entry at an index another value, and returns the old one.
    #[inline(always)]
    fn replace_value(&mut self, index: usize, value: V) -> V
        requires { index < hash_map_len self.old }
        ensures before { slice_get (values self.old) index ≡ Some result }
        ensures entries { self.new.entries ≡ set_value_at self.old.entries index value }
        ensures spare { spare self.new ≡ spare self.old }
        ensures hasher { hasher_of self.new ≡ hasher_of self.old }
    {
        let old = self.nodes[index].value;
        self.nodes[index].value = value;
        old
    }

    /// Adds an entry of a new key.
    #[inline(always)]
    fn push(&mut self, hash: u32, key: K, value: V)
        requires hash { hash ≡ hash_of (hasher_of self.old) (K.hash_input key) }
        requires absent { position (K.eq key) self.old.entries ≡ None }
        requires spare { 0 < spare self.old }
        ensures { self.new ≡ hash_map (self.old.entries ++ (key, value) ∷ []) (hasher_of self.old) (spare self.old - 1) }
    {
        push_node(&mut self.heads, &mut self.nodes, hash, key, value);
    }

    /// Removes the entry at an index. The last entry gets its place.
    fn remove_at(&mut self, index: usize) -> V
        requires { index < hash_map_len self.old }
        ensures before { slice_get (values self.old) index ≡ Some result }
        ensures after { (entry : K × V) → self.new ≡ hash_map (swap_remove self.old.entries index entry)
            (hasher_of self.old) (spare self.old + 1) }
        ensures was_unique { IsUnique K.eq self.old }
    {
        remove_node(&mut self.heads, &mut self.nodes, index)
    }

    /// Makes more room.
    #[inline(never)]
    fn grow(&mut self, additional: usize) -> Result<(), AllocError>
        requires { spare self.old < additional }
        ensures entries { IsUnchanged self.old self.new }
        ensures room { OnOk result (additional ≤ spare self.new) }
        ensures kept { spare self.old ≤ spare self.new }
        ensures hasher { hasher_of self.new ≡ hasher_of self.old }
        ensures unique { IsUnique K.eq self.new }
    {
        make_room(&mut self.heads, &mut self.nodes, additional)
    }
}
