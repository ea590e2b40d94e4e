//! A read buffer of constant size.
ghost use Rattle.std.specs.Prelude.{◌≡◌, ◌<◌, ◌≤◌, ◌+◌, ◌++◌, ◌-◌, [], length, min, take, drop, vec_len, vec_capacity, true, false, IfOk, OnOk, OnErr};
ghost use Rattle.std.specs.Io.{ReadsAtMost};
ghost use Rattle.std.specs.Io.KnownBytes.{Keeps, ReadConsumes};
ghost use Rattle.devices.specs.CountedCalls.{CountsFailure};
ghost use Rattle.pcap_io.specs.declared.read_buffer.TheConstants.{MOST_READ};
ghost use Rattle.devices.specs.Counting.{one_failure};
ghost use Rattle.pcap_io.specs.ReadAhead.{READ_AHEAD};
ghost use Rattle.pcap_io.specs.steps.ReadAhead as ahead;
ghost use Rattle.pcap_io.specs.steps.ReadAhead.{BufferState, FillsBuffer};

use devices::{Counted, DeviceFailed};
use std::alloc::{AllocError, Global};
use std::io::{self, Read};
use std::marker::Model;

/// The length of the largest record with its header.
pub const READ_BUFFER_BYTES: usize = 262_160;

/// How many bytes one read asks for at most: so few that most bytes are read to where the last ones
/// were, which the processor's cache has still.
const MOST_READ: usize = 65_536;

/// Bytes that were read: the ones taken last, and behind them the ones not taken yet.
#[derive(Drop)]
pub struct ReadBuffer {
    /// Of constant length and capacity.
    bytes: Vec<u8>,
    /// The offset of the first byte that isn't taken yet.
    start: usize,
    /// The offset behind the last byte read.
    end: usize,
    /// The reader has ended.
    is_ended: bool,
}

impl Model for ReadBuffer {
    ghost use Rattle.std.specs.Prelude.{◌≡◌, ◌≤◌, take, slice_range, length, vec_capacity};
    ghost use Rattle.pcap_io.specs.ReadAhead.{READ_AHEAD};
    ghost use Rattle.pcap_io.specs.steps.ReadAhead.{BufferState};

    ghost Value = { BufferState };

    ghost view = { λ b. record {
      taken = take b.start b.bytes.items;
      held = slice_range b.bytes.items b.start b.end;
      ended = b.is_ended;
    } };

    ghost invariant = { λ b. (b.start ≤ b.end) × (b.end ≤ length b.bytes.items)
        × (length b.bytes.items ≡ READ_AHEAD) × (vec_capacity b.bytes ≡ READ_AHEAD) };
}

impl ReadBuffer {
    /// An empty buffer.
    pub fn new(alloc: Global) -> Result<Self, AllocError>
        ensures { IfOk result (λ buffer. buffer ≡ record { taken = []; held = []; ended = false }) }
    {
        Ok(ReadBuffer {
            bytes: zeros(alloc, READ_BUFFER_BYTES)?,
            start: 0,
            end: 0,
            is_ended: false,
        })
    }

    /// The bytes not taken yet.
    #[inline(always)]
    pub fn held(&self) -> &[u8]
        ensures { result.now ≡ self.now.held }
    {
        &self.bytes[self.start..self.end]
    }

    /// Whether the reader has ended.
    #[inline(always)]
    pub fn is_ended(&self) -> bool
        ensures { result ≡ self.now.ended }
    {
        self.is_ended
    }

    /// Reads once, behind the bytes not taken yet. The taken ones are lost.
    pub fn fill<R: Read>(&mut self, reader: &mut Counted<R>) -> Result<(), DeviceFailed>
        requires room { length self.old.held < READ_AHEAD }
        requires going { self.old.ended ≡ false }
        ensures ok { OnOk result (FillsBuffer self.old self.new (R.remaining reader.old.inner)
            (R.remaining reader.new.inner)) }
        ensures no_failure { OnOk result (reader.new.failures ≡ reader.old.failures) }
        ensures err { OnErr result ((self.new.held ≡ self.old.held) × (self.new.ended ≡ false)
            × Keeps (R.remaining reader.old.inner) (R.remaining reader.new.inner)) }
        ensures device { OnErr result (reader.new.failures ≡ one_failure reader.old.failures) }
        ensures short { length self.new.held ≤ READ_AHEAD }
        // The reader is offered all the room that is left, up to the most that one read asks for.
        ensures room { reader.new.room ≡ min MOST_READ (READ_AHEAD - length self.old.held) }
    {
        self.compact();
        match read_front(reader, &mut self.bytes[self.end..]) {
            Ok(0) => self.is_ended = true,
            Ok(count) => self.end += count,
            Err(_) => return Err(DeviceFailed),
        }
        Ok(())
    }

    /// Moves the bytes not taken yet to the front, over the taken ones.
    fn compact(&mut self)
        ensures { self.new ≡ record { taken = []; held = self.old.held; ended = self.old.ended } }
    {
        if self.start == 0 {
            return;
        }
        self.bytes.copy_within(self.start..self.end, 0);
        self.end -= self.start;
        self.start = 0;
    }

    /// Takes the next `count` bytes.
    #[inline(always)]
    pub fn take(&mut self, count: usize)
        requires { count ≤ length self.old.held }
        ensures { self.new ≡ record {
          taken = self.old.taken ++ take count self.old.held;
          held = drop count self.old.held;
          ended = self.old.ended;
        } }
    {
        self.start += count;
    }

    /// The last `count` of the taken bytes.
    #[inline(always)]
    pub fn taken(&self, count: usize) -> &[u8]
        requires { count ≤ length self.now.taken }
        ensures { result.now ≡ ahead.last_of count self.now.taken }
    {
        &self.bytes[self.start - count..self.start]
    }
}

/// Reads once to the front of a buffer, `MOST_READ` bytes at most.
fn read_front<R: Read>(reader: &mut Counted<R>, buf: &mut [u8]) -> io::Result<usize>
    ensures bound { ReadsAtMost result buf.new }
    ensures bytes { ReadConsumes (R.remaining reader.old.inner) (R.remaining reader.new.inner)
        result buf.new }
    ensures counts { CountsFailure result reader.old.failures reader.new.failures }
    ensures long { length buf.new ≡ length buf.old }
    ensures room { reader.new.room ≡ min MOST_READ (length buf.old) }
{
    let most = buf.len().min(MOST_READ);
    reader.read(&mut buf[..most])
}

/// So many zeros, with room for no more.
pub(crate) fn zeros(alloc: Global, count: usize) -> Result<Vec<u8>, AllocError>
    ensures whole { IfOk result (λ bytes. vec_len bytes ≡ count) }
    ensures exact { IfOk result (λ bytes. vec_capacity bytes ≡ count) }
{
    let mut bytes = Vec::with_capacity(alloc, count)?;
    while bytes.len() < count {
        bytes.push_reserved(0);
    }
    Ok(bytes)
}
