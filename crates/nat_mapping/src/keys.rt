//! The keys of mappings.
ghost use Rattle.std.specs.Prelude.{◌≡◌, ◌++◌, ℕ, List};
ghost use Rattle.std.specs.Hash as fed;
ghost use Rattle.ip_headers.specs.HashWords.{hash_word};
ghost use Rattle.std.specs.Cmp.Rules.{hashing};
ghost use Rattle.std.proofs.Common.{rules};
ghost use Rattle.nat_mapping.specs.Mappings.{order_of};
ghost use Rattle.nat_mapping.specs.HeldMappings.{has_pool};
ghost use Rattle.nat_mapping.specs.steps.Keys.{inbound_key_of, inbound_writes, pool_key_of, pool_writes, source_key_of, source_writes};

use ip_headers::laws::hash_words_differ;
use ip_headers::{Endpoint, Kind, Mapping};
use port_pool::Order;
use std::hash::{Hash, Hasher};

/// An internal endpoint and an external address. There is one mapping for each at most.
#[derive(Clone, Copy, PartialEq, Eq)]
pub(crate) struct SourceKey {
    pub(crate) kind: Kind,
    pub(crate) internal: Endpoint,
    pub(crate) address: u32,
}

/// An external endpoint. There is one mapping for each at most.
#[derive(Clone, Copy, PartialEq, Eq)]
pub(crate) struct InboundKey {
    pub(crate) kind: Kind,
    pub(crate) external: Endpoint,
}

/// An external address and a kind, which have ports of their own.
#[derive(Clone, Copy, PartialEq, Eq)]
pub(crate) struct PoolKey {
    pub(crate) kind: Kind,
    pub(crate) address: u32,
}

/// The external port of a mapping, and how many holders it has.
#[derive(Clone, Copy)]
pub(crate) struct MappedPort {
    pub(crate) port: u16,
    pub(crate) holders: usize,
}

impl Hash for SourceKey {
    ghost hash_input = { source_writes };

    ghost respects_eq = { Prim.search (hashing, rules) };

    fn hash<H: Hasher>(&self, state: &mut H) {
        state.write_u64(self.internal.hash_word(self.kind));
        state.write_u64(without_port(self.address).hash_word(self.kind));
    }
}

impl Hash for InboundKey {
    ghost hash_input = { inbound_writes };

    ghost respects_eq = { Prim.search (hashing, rules) };

    fn hash<H: Hasher>(&self, state: &mut H) {
        state.write_u64(self.external.hash_word(self.kind));
    }
}

impl Hash for PoolKey {
    ghost hash_input = { pool_writes };

    ghost respects_eq = { Prim.search (hashing, rules) };

    fn hash<H: Hasher>(&self, state: &mut H) {
        state.write_u64(without_port(self.address).hash_word(self.kind));
    }
}

/// An external address, as the endpoint of its port 0.
pub(crate) fn without_port(address: u32) -> Endpoint
    ensures { result ≡ record { address = address; port = 0 } }
{
    Endpoint { address, port: 0 }
}

/// The bytes of a hash word tell its kind and endpoint. It does nothing.
fn word_tells(kind: Kind, endpoint: Endpoint, other_kind: Kind, other: Endpoint)
    ensures { (rest others : List (List ℕ))
        → fed.u64 (hash_word kind endpoint) ++ rest ≡ fed.u64 (hash_word other_kind other) ++ others
        → (kind ≡ other_kind) × (endpoint ≡ other) × (rest ≡ others) }
{
    hash_words_differ(kind, endpoint, other_kind, other);
    hash_words_differ(other_kind, other, kind, endpoint);
}

/// Keys are equal where their hashes take the same bytes. It does nothing.
fn source_hashes_differ(one: SourceKey, other: SourceKey)
    ensures { ⟦<SourceKey as Hash>⟧.hash_input one ≡ ⟦<SourceKey as Hash>⟧.hash_input other
        → one ≡ other }
{
    let first = without_port(one.address);
    let second = without_port(other.address);
    word_tells(one.kind, one.internal, other.kind, other.internal);
    word_tells(one.kind, first, other.kind, second);
}

/// The same of inbound keys.
fn inbound_hashes_differ(one: InboundKey, other: InboundKey)
    ensures { ⟦<InboundKey as Hash>⟧.hash_input one ≡ ⟦<InboundKey as Hash>⟧.hash_input other
        → one ≡ other }
{
    word_tells(one.kind, one.external, other.kind, other.external);
}

/// The same of keys of pools.
fn pool_hashes_differ(one: PoolKey, other: PoolKey)
    ensures { ⟦<PoolKey as Hash>⟧.hash_input one ≡ ⟦<PoolKey as Hash>⟧.hash_input other
        → one ≡ other }
{
    let first = without_port(one.address);
    let second = without_port(other.address);
    word_tells(one.kind, first, other.kind, second);
}

/// The key of its internal endpoint and external address.
pub(crate) fn source_key(m: Mapping) -> SourceKey
    ensures { result ≡ source_key_of m }
{
    SourceKey {
        kind: m.kind,
        internal: m.internal,
        address: m.external.address,
    }
}

/// The key of its external endpoint.
pub(crate) fn inbound_key(m: Mapping) -> InboundKey
    ensures { result ≡ inbound_key_of m }
{
    InboundKey {
        kind: m.kind,
        external: m.external,
    }
}

/// The key of its pool.
pub(crate) fn pool_key(m: Mapping) -> PoolKey
    ensures { result ≡ pool_key_of m }
{
    PoolKey {
        kind: m.kind,
        address: m.external.address,
    }
}

/// The order of a kind's ports.
pub(crate) fn order(kind: Kind) -> Order
    ensures { result ≡ order_of kind }
{
    match kind {
        Kind::Tcp | Kind::Udp => Order::Ports,
        Kind::EchoRequest | Kind::EchoReply => Order::Identifiers,
        Kind::Other(_) => Order::Zero,
    }
}

/// Whether a kind has pools: not those without ports.
pub(crate) fn has_pool(kind: Kind) -> bool
    ensures { result ≡ has_pool kind }
{
    !matches!(kind, Kind::Other(_))
}
