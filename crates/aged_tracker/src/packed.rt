//! Tuples and mappings packed to 14 bytes (no padding).
ghost use Rattle.std.specs.Prelude.{◌≡◌, ◌↔◌, IsTrue, option_map};
ghost use Rattle.ip_headers.specs.Same.{same_endpoint, same_tuple};
ghost use Rattle.aged_tracker.specs.steps.SlotLists.{inverse_packed};
ghost use Rattle.aged_tracker.specs.steps.Table.{endpoint_of, mapping_of, tuple_of};

use ip_headers::{Endpoint, Kind, Mapping, Tuple};

/// An endpoint in 6 bytes: with the address in halves, 2-byte alignment is enough.
#[derive(Clone, Copy)]
struct PackedEndpoint {
    /// The lower 16 bits of the address: first, as in the bytes of a number.
    low: u16,
    /// The upper 16 bits of the address.
    high: u16,
    port: u16,
}

/// A kind and two endpoints in 14 bytes instead of a tuple's or a mapping's 20.
#[derive(Clone, Copy)]
pub struct PackedTuple {
    kind: Kind,
    /// The source, or the internal endpoint.
    first: PackedEndpoint,
    /// The destination, or the external endpoint.
    second: PackedEndpoint,
}

impl PackedEndpoint {
    fn of(endpoint: Endpoint) -> Self
        ensures { endpoint_of result ≡ endpoint }
    {
        PackedEndpoint {
            low: (endpoint.address % 65536) as u16,
            high: (endpoint.address / 65536) as u16,
            port: endpoint.port,
        }
    }

    fn endpoint(self) -> Endpoint
        ensures { result ≡ endpoint_of self }
    {
        Endpoint {
            address: u32::from(self.high) * 65536 + u32::from(self.low),
            port: self.port,
        }
    }

    /// Whether it is the same as another.
    fn equals(self, other: Self) -> bool
        ensures { IsTrue result ↔ (self ≡ other) }
    {
        self.low == other.low && self.high == other.high && self.port == other.port
    }

    #[inline(always)]
    fn is(self, endpoint: Endpoint) -> bool
        ensures { result ≡ same_endpoint (endpoint_of self) endpoint }
    {
        let own = self.endpoint();
        own.address == endpoint.address && own.port == endpoint.port
    }
}

impl PackedTuple {
    /// Packs a tuple.
    pub fn of_tuple(tuple: Tuple) -> Self
        ensures { tuple_of result ≡ tuple }
    {
        PackedTuple {
            kind: tuple.kind,
            first: PackedEndpoint::of(tuple.source),
            second: PackedEndpoint::of(tuple.destination),
        }
    }

    /// The packed tuple of packets in the other direction.
    #[inline(always)]
    pub fn inverse(self) -> Self
        ensures { result ≡ inverse_packed self }
    {
        PackedTuple {
            kind: self.kind.inverse(),
            first: self.second,
            second: self.first,
        }
    }

    /// Whether it is the same as another.
    pub fn equals(self, other: Self) -> bool
        ensures { IsTrue result ↔ (self ≡ other) }
    {
        self.kind == other.kind
            && self.first.equals(other.first)
            && self.second.equals(other.second)
    }

    /// The kind of a tuple.
    pub fn kind(self) -> Kind
        ensures { result ≡ (tuple_of self).kind }
    {
        self.kind
    }

    /// Unpacks a tuple.
    pub fn tuple(self) -> Tuple
        ensures { result ≡ tuple_of self }
    {
        Tuple {
            kind: self.kind,
            source: self.first.endpoint(),
            destination: self.second.endpoint(),
        }
    }

    /// Whether it is this tuple. Most that aren't have another source.
    #[inline(always)]
    pub fn is(self, tuple: Tuple) -> bool
        ensures { result ≡ same_tuple (tuple_of self) tuple }
    {
        self.first.is(tuple.source) && self.second.is(tuple.destination) && self.kind == tuple.kind
    }

    /// Whether it is the tuple of packets in the other direction than this one's. Of most that aren't no
    /// kind is looked at.
    #[inline(always)]
    pub fn is_inverse_of(self, tuple: Tuple) -> bool
        ensures { result ≡ same_tuple (tuple_of (inverse_packed self)) tuple }
    {
        self.second.is(tuple.source)
            && self.first.is(tuple.destination)
            && self.kind.inverse() == tuple.kind
    }

    /// Packs a mapping, if there is one.
    pub fn of_mapping(mapping: Option<Mapping>) -> Option<Self>
        ensures { option_map mapping_of result ≡ mapping }
    {
        match mapping {
            Some(mapping) => Some(PackedTuple {
                kind: mapping.kind,
                first: PackedEndpoint::of(mapping.internal),
                second: PackedEndpoint::of(mapping.external),
            }),
            None => None,
        }
    }

    /// Unpacks a mapping, if there is one.
    pub fn mapping(packed: Option<Self>) -> Option<Mapping>
        ensures { result ≡ option_map mapping_of packed }
    {
        match packed {
            Some(packed) => Some(Mapping {
                kind: packed.kind,
                internal: packed.first.endpoint(),
                external: packed.second.endpoint(),
            }),
            None => None,
        }
    }
}
