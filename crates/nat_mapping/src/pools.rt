//! The pools of ports of all external addresses.
ghost use Rattle.std.specs.Prelude.{◌≡◌, ◌+◌, ◌<◌, ◌≤◌, ℕ, All, not, true, false, if◌then◌else◌};
ghost use Rattle.std.specs.Prelude.{None, IfSome, OnOk, IsOk, is_some, vec_len};
ghost use Rattle.std.specs.Bool.{OnFalse, OnTrue};
ghost use Rattle.std.specs.List.{find};
ghost use Rattle.std.specs.HashMap.{get, spare, IsUnique};
ghost use Rattle.port_pool.specs.Candidates.{candidates};
ghost use Rattle.nat_mapping.specs.declared.keys.PoolKey.{PoolKey as Key};
ghost use Rattle.nat_mapping.specs.Mappings.{order_of};
ghost use Rattle.nat_mapping.specs.HeldMappings.{has_pool};
ghost use Rattle.nat_mapping.specs.steps.Keys.{inbound_at};
ghost use Rattle.nat_mapping.specs.steps.KeyTests.{same_inbound, same_pool};
ghost use Rattle.nat_mapping.specs.steps.Ports.{is_taken_by, AreInUse, IsSpare, SetsPort};

use crate::keys::{PoolKey, has_pool, order};
use port_pool::{CandidateRange, Order, Pool, choose_unused};
use std::alloc::{AllocError as Memory, Global};
use std::collections::HashMap;
use word_hash::WordState;

/// How many unused pools are kept for the next addresses: as many as one connection may need.
pub(crate) const SPARES: usize = 2;

/// A pool for each kind and external address with a taken port, and a few spare ones. A kind
/// without ports has none.
#[derive(Drop)]
pub(crate) struct Pools {
    pools: HashMap<PoolKey, Pool, WordState>,
    spares: Vec<Pool>,
    alloc: Global,
}

impl Pools {
    ghost use Rattle.nat_mapping.specs.steps.Pooled.{pool_count, pool_room, taken_in, IsPooled};

    /// No pools: all ports are free.
    pub(crate) fn new(alloc: Global, hasher: WordState) -> Self
        ensures taken { (key : Key) (port : ℕ) → taken_in result key port ≡ false }
        ensures pooled { IsPooled result }
        ensures none { pool_count result ≡ 0 }
    {
        Self {
            pools: HashMap::with_hasher(alloc, hasher),
            spares: Vec::new(alloc),
            alloc,
        }
    }

    /// How many pools there are, with the spare ones.
    pub(crate) fn count(&self) -> usize
        requires { IsPooled self.now }
        ensures { result ≡ pool_count self.now }
    {
        self.pools.len() + self.spares.len()
    }

    /// For how many more pools memory is reserved.
    pub(crate) fn room(&self) -> usize
        ensures { result ≡ pool_room self.now }
    {
        let spare = self.pools.capacity() - self.pools.len();
        spare.min(self.spares.len())
    }

    /// The first free candidate.
    pub(crate) fn choose(
        &self,
        key: PoolKey,
        port: u16,
        range: Option<CandidateRange>,
    ) -> Option<u16>
        requires { IsPooled self.now }
        ensures { result ≡ find (λ p. not (taken_in self.now key p))
            (candidates (order_of key.kind) port range) }
    {
        match self.pools.get(&key) {
            Some(pool) => pool.choose(port, range),
            None => choose_unused(order(key.kind), port, range),
        }
    }

    /// Reserves memory for so many new pools, at most as many as may be spare.
    pub(crate) fn reserve(&mut self, pools: usize) -> Result<(), Memory>
        requires pools { pools ≤ SPARES }
        requires pooled { IsPooled self.old }
        ensures pooled { IsPooled self.new }
        ensures taken { (key : Key) (port : ℕ)
            → taken_in self.new key port ≡ taken_in self.old key port }
        ensures room { pool_room self.old ≤ pool_room self.new }
        ensures ok { OnOk result (pools ≤ pool_room self.new) }
        ensures succeeds { pools ≤ pool_room self.old → IsOk result }
    {
        self.pools.reserve(pools)?;
        fill_spares(&mut self.spares, self.alloc, pools)
    }

    /// Takes a port.
    pub(crate) fn take(&mut self, key: PoolKey, port: u16)
        requires room { 0 < pool_room self.old }
        requires free { has_pool key.kind ≡ true → taken_in self.old key port ≡ false }
        requires pooled { IsPooled self.old }
        ensures pooled { IsPooled self.new }
        ensures taken { (q : Key) (p : ℕ) → has_pool q.kind ≡ true
            → taken_in self.new q p ≡ (if same_inbound (inbound_at key port) (inbound_at q p)
            then true else taken_in self.old q p) }
        ensures room { pool_room self.old ≤ pool_room self.new + 1 }
    {
        if !has_pool(key.kind) {
            return;
        }
        if take_port(&mut self.pools, key, port) {
            return;
        }
        let pool = self.spares.pop().unwrap();
        start_pool(&mut self.pools, key, pool, port);
    }

    /// Gives back a port. A pool without taken ports becomes spare, or is freed.
    pub(crate) fn give(&mut self, key: PoolKey, port: u16)
        requires taken { has_pool key.kind ≡ true → taken_in self.old key port ≡ true }
        requires pooled { IsPooled self.old }
        ensures pooled { IsPooled self.new }
        ensures taken { (q : Key) (p : ℕ) → has_pool q.kind ≡ true
            → taken_in self.new q p ≡ (if same_inbound (inbound_at key port) (inbound_at q p)
            then false else taken_in self.old q p) }
        ensures room { pool_room self.old ≤ pool_room self.new }
    {
        if !has_pool(key.kind) {
            return;
        }
        if let Some(pool) = give_port(&mut self.pools, key, port) {
            keep_spare(&mut self.spares, pool);
        }
    }
}

/// Takes a port of a pool, if there is that pool.
fn take_port(pools: &mut HashMap<PoolKey, Pool, WordState>, key: PoolKey, port: u16) -> bool
    requires free { is_taken_by (get same_pool pools.old key) port ≡ false }
    requires used { AreInUse pools.old }
    ensures found { result ≡ is_some (get same_pool pools.old key) }
    ensures used { AreInUse pools.new }
    ensures taken { OnTrue result (SetsPort pools.old pools.new key port true) }
    ensures absent { OnFalse result ((q : Key)
        → get same_pool pools.new q ≡ get same_pool pools.old q) }
    ensures spare { spare pools.new ≡ spare pools.old }
    ensures unique { IsUnique same_pool pools.new }
{
    match pools.get_mut(&key) {
        Some(pool) => {
            pool.take(port);
            true
        }
        None => false,
    }
}

/// Gives a port back to its pool. The pool is removed if it has no taken port left.
fn give_port(pools: &mut HashMap<PoolKey, Pool, WordState>, key: PoolKey, port: u16) -> Option<Pool>
    requires taken { is_taken_by (get same_pool pools.old key) port ≡ true }
    requires used { AreInUse pools.old }
    ensures unused { IfSome result IsSpare }
    ensures used { AreInUse pools.new }
    ensures given { SetsPort pools.old pools.new key port false }
    ensures spare { spare pools.old ≤ spare pools.new }
    ensures unique { IsUnique same_pool pools.new }
{
    let pool = pools.get_mut(&key)?;
    pool.give(port);
    if !pool.is_unused() {
        return None;
    }
    pools.remove(&key)
}

/// Puts a spare pool to use, with one taken port.
fn start_pool(pools: &mut HashMap<PoolKey, Pool, WordState>, key: PoolKey, pool: Pool, port: u16)
    requires room { 0 < spare pools.old }
    requires bitmap { has_pool key.kind ≡ true }
    requires absent { get same_pool pools.old key ≡ None }
    requires used { AreInUse pools.old }
    requires spare { IsSpare pool }
    ensures used { AreInUse pools.new }
    ensures taken { SetsPort pools.old pools.new key port true }
    ensures spare { spare pools.old ≤ spare pools.new + 1 }
    ensures unique { IsUnique same_pool pools.new }
{
    let mut pool = pool.with_order(order(key.kind));
    pool.take(port);
    // There is room for it.
    let inserted: Result<_, _> = pools.insert(key, pool);
    inserted.unwrap();
}

/// Makes at least so many spare pools.
fn fill_spares(spares: &mut Vec<Pool>, alloc: Global, pools: usize) -> Result<(), Memory>
    requires pools { pools ≤ SPARES }
    requires few { vec_len spares.old ≤ SPARES }
    requires spares { All IsSpare spares.old.items }
    ensures few { vec_len spares.new ≤ SPARES }
    ensures spares { All IsSpare spares.new.items }
    ensures kept { vec_len spares.old ≤ vec_len spares.new }
    ensures ok { OnOk result (pools ≤ vec_len spares.new) }
    ensures succeeds { pools ≤ vec_len spares.old → IsOk result }
{
    while spares.len() < pools {
        let pool = Pool::new(alloc, Order::Ports)?;
        spares.push(pool)?;
    }
    Ok(())
}

/// Keeps an unused pool for the next address, unless enough are spare.
fn keep_spare(spares: &mut Vec<Pool>, pool: Pool)
    requires few { vec_len spares.old ≤ SPARES }
    requires spares { All IsSpare spares.old.items }
    requires spare { IsSpare pool }
    ensures few { vec_len spares.new ≤ SPARES }
    ensures spares { All IsSpare spares.new.items }
    ensures kept { vec_len spares.old ≤ vec_len spares.new }
{
    if spares.len() < SPARES {
        // Where the list can't grow, the pool is freed.
        let _ = spares.push(pool);
    }
}
