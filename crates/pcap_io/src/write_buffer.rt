//! A write buffer of constant size.
ghost use Rattle.std.specs.Prelude.{◌≡◌, ◌≤◌, ◌+◌, ◌++◌, [], length, IfOk};
ghost use Rattle.pcap_io.specs.Buffering as buffer;
ghost use Rattle.pcap_io.specs.Sll2.{IsSent, sent, sll2_record};

use crate::read_buffer::zeros;
use crate::record_headers::{HEADERS_BYTES, put_headers};
use crate::sink::Leaving;
use std::alloc::{AllocError, Global};
use std::marker::Model;

/// The size of the buffer in bytes: more than the largest record.
pub const WRITE_BUFFER_BYTES: usize = 131_072;

/// Bytes that wait to be written.
#[derive(Drop)]
pub struct WriteBuffer {
    /// Of constant length and capacity; the first `waiting` bytes wait.
    bytes: Vec<u8>,
    waiting: usize,
}

impl Model for WriteBuffer {
    ghost use Rattle.std.specs.Prelude.{◌≡◌, ◌≤◌, ℕ, List, take, length, vec_capacity};
    ghost use Rattle.pcap_io.specs.Buffering.{WRITE_BUFFER_BYTES};

    ghost Value = { List ℕ };

    ghost view = { λ b. take b.waiting b.bytes.items };

    ghost invariant = { λ b. (b.waiting ≤ length b.bytes.items)
        × (length b.bytes.items ≡ WRITE_BUFFER_BYTES) × (vec_capacity b.bytes ≡ WRITE_BUFFER_BYTES) };
}

impl WriteBuffer {
    /// An empty buffer.
    pub fn new(alloc: Global) -> Result<Self, AllocError>
        ensures { IfOk result (λ buffer. buffer ≡ []) }
    {
        Ok(WriteBuffer {
            bytes: zeros(alloc, WRITE_BUFFER_BYTES)?,
            waiting: 0,
        })
    }

    /// The bytes that wait.
    #[inline(always)]
    pub fn as_slice(&self) -> &[u8]
        ensures { result.now ≡ self.now }
    {
        &self.bytes[..self.waiting]
    }

    /// How many more bytes fit.
    #[inline(always)]
    pub fn room(&self) -> usize
        ensures { length self.now + result ≡ buffer.WRITE_BUFFER_BYTES }
    {
        WRITE_BUFFER_BYTES - self.waiting
    }

    /// Appends bytes for which there is room.
    #[inline(always)]
    pub fn append(&mut self, bytes: &[u8])
        requires { length self.old + length bytes.now ≤ buffer.WRITE_BUFFER_BYTES }
        ensures { self.new ≡ self.old ++ bytes.now }
    {
        let end = self.waiting + bytes.len();
        self.bytes[self.waiting..end].copy_from_slice(bytes);
        self.waiting = end;
    }

    /// Appends a record for which there is room: its headers and its packet.
    #[inline(always)]
    pub fn append_record(&mut self, leaving: &Leaving)
        requires sent { IsSent (sent leaving.now) }
        requires room { length self.old + length (sll2_record (sent leaving.now))
            ≤ buffer.WRITE_BUFFER_BYTES }
        ensures { self.new ≡ self.old ++ sll2_record (sent leaving.now) }
    {
        put_headers(&mut self.bytes, self.waiting, leaving);
        self.waiting += HEADERS_BYTES;
        self.append(leaving.packet);
    }

    /// Lets all bytes go.
    #[inline(always)]
    pub fn clear(&mut self)
        ensures { self.new ≡ [] }
    {
        self.waiting = 0;
    }
}
