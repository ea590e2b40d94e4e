//! The buffer of the packet that leaves.
ghost use Rattle.std.specs.Prelude.{◌≡◌, ◌≤◌, [], length, IfOk};
ghost use Rattle.rewrite.specs.Rewritten.{rewritten};

use ip_headers::View;
use rewrite::{Change, rewrite_packet};
use std::alloc::{AllocError, Global};
use std::marker::Model;

/// The greatest total length of an IPv4 packet, in bytes.
const MOST_PACKET_BYTES: usize = 65_535;

/// The bytes of a packet, in a buffer of constant size.
#[derive(Drop)]
pub struct PacketBuffer {
    /// Of constant length and capacity; the packet is at its front.
    bytes: Vec<u8>,
    /// The length of the packet.
    len: usize,
}

impl Model for PacketBuffer {
    ghost use Rattle.std.specs.Prelude.{◌≡◌, ◌≤◌, ℕ, List, take, length, vec_capacity};
    ghost use Rattle.stepping.specs.declared.packet_buffer.TheConstants.{MOST_PACKET_BYTES};

    ghost Value = { List ℕ };

    ghost view = { λ b. take b.len b.bytes.items };

    ghost invariant = { λ b. (b.len ≤ length b.bytes.items)
        × (length b.bytes.items ≡ MOST_PACKET_BYTES)
        × (vec_capacity b.bytes ≡ MOST_PACKET_BYTES) };
}

impl PacketBuffer {
    /// No packet.
    ///
    /// # Errors
    /// An allocation failed.
    pub fn new(alloc: Global) -> Result<Self, AllocError>
        ensures { IfOk result (λ buffer. buffer ≡ []) }
    {
        let mut bytes = Vec::with_capacity(alloc, MOST_PACKET_BYTES)?;
        while bytes.len() < MOST_PACKET_BYTES {
            bytes.push_reserved(0);
        }
        Ok(PacketBuffer { bytes, len: 0 })
    }

    /// The bytes of the packet.
    #[inline(always)]
    pub fn as_slice(&self) -> &[u8]
        ensures bytes { result.now ≡ self.now }
        ensures short { length result.now ≤ MOST_PACKET_BYTES }
    {
        &self.bytes[..self.len]
    }

    /// Removes the packet.
    #[inline(always)]
    pub fn clear(&mut self)
        ensures { self.new ≡ [] }
    {
        self.len = 0;
    }

    /// Takes the rewritten packet.
    #[inline(always)]
    pub fn put(&mut self, view: &View, change: &Change)
        ensures { self.new ≡ rewritten view.now.packet.now change.now }
    {
        let front = &mut self.bytes[0..view.packet.len()];
        front.copy_from_slice(view.packet);
        rewrite_packet(front, view, change);
        self.len = view.packet.len();
    }
}
