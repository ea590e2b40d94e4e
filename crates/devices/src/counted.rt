//! A reader or writer that counts its calls by how they ended.
ghost use Rattle.std.specs.Prelude.{◌≡◌, true, false, length, MatchResult};
ghost use Rattle.std.specs.Io.{ReadsAtMost, WritesAtMost};
ghost use Rattle.std.specs.Io.KnownBytes.{ReadConsumes, WriteAppends, Keeps};
ghost use Rattle.devices.specs.CountedCalls.{CountsFailure, CountsWrite, CountsWritten, CountsFlushed};

use crate::failures::Failures;
use std::io;
use std::io::{Read, Write};

/// A reader or writer, the numbers of its failed calls and of the writes and flushes that didn't
/// fail, whether all written bytes are flushed, and how many bytes the last read had room for.
#[derive(Drop)]
pub struct Counted<T> {
    /// What is wrapped. A call on it alone isn't counted.
    pub inner: T,
    failures: Failures,
    is_flushed: bool,
    // The others only contracts read: no write is made in vain, there is one flush, and a read is
    // offered all the room there is.
    writes: u64,
    flushes: u64,
    room: usize,
}

impl<T> Counted<T> {
    /// Wraps `inner`: no calls yet, and nothing to flush.
    pub fn new(inner: T) -> Self
        ensures inner { result.inner ≡ inner }
        ensures failures { result.failures ≡ record { count = 0; wrapped = 0 } }
        ensures writes { result.writes ≡ 0 }
        ensures flushes { result.flushes ≡ 0 }
        ensures flushed { result.is_flushed ≡ true }
    {
        Counted {
            inner,
            failures: Failures::NONE,
            writes: 0,
            flushes: 0,
            is_flushed: true,
            room: 0,
        }
    }

    /// The number of failed calls, saturating.
    pub fn failures(&self) -> u64
        ensures { result ≡ self.now.failures.count }
    {
        self.failures.count()
    }

    /// Whether nothing was written since the last successful flush.
    pub fn is_flushed(&self) -> bool
        ensures { result ≡ self.now.is_flushed }
    {
        self.is_flushed
    }

    /// Unwraps the reader or writer.
    pub fn into_inner(self) -> T
        ensures { result ≡ self.inner }
    {
        self.inner
    }
}

impl<R: Read> Read for Counted<R> {
    ghost remaining = { λ c. R.remaining c.inner };

    fn read(&mut self, buf: &mut [u8]) -> io::Result<usize>
        ensures bound { ReadsAtMost result buf.new }
        ensures bytes { ReadConsumes (R.remaining self.old.inner) (R.remaining self.new.inner)
            result buf.new }
        ensures counts { CountsFailure result self.old.failures self.new.failures }
        ensures writes { self.new.writes ≡ self.old.writes }
        ensures flushes { self.new.flushes ≡ self.old.flushes }
        ensures flushed { self.new.is_flushed ≡ self.old.is_flushed }
        ensures room { self.new.room ≡ length buf.new }
    {
        self.room = buf.len();
        let result = self.inner.read(buf);
        if result.is_err() {
            self.failures = self.failures.one_more();
        }
        result
    }
}

impl<W: Write> Write for Counted<W> {
    ghost contents = { λ c. W.contents c.inner };

    fn write(&mut self, buf: &[u8]) -> io::Result<usize>
        ensures bound { WritesAtMost result buf.now }
        ensures bytes { WriteAppends (W.contents self.old.inner) (W.contents self.new.inner) result
            buf.now }
        ensures counts { CountsWrite result buf.now self.old.failures self.new.failures }
        ensures writes { CountsWritten result buf.now self.old.writes self.new.writes }
        ensures flushes { self.new.flushes ≡ self.old.flushes }
        ensures flushed { self.new.is_flushed ≡ false }
        ensures room { self.new.room ≡ self.old.room }
    {
        // A failed call may have written some bytes.
        self.is_flushed = false;
        let result = self.inner.write(buf);
        // To write nothing is a failure, unless there was nothing to write.
        let has_failed = match &result {
            Ok(count) => *count == 0 && !buf.is_empty(),
            Err(_) => true,
        };
        if has_failed {
            self.failures = self.failures.one_more();
        } else {
            self.writes = self.writes.saturating_add(1);
        }
        result
    }

    fn flush(&mut self) -> io::Result<()>
        ensures bytes { Keeps (W.contents self.old.inner) (W.contents self.new.inner) }
        ensures counts { CountsFailure result self.old.failures self.new.failures }
        ensures writes { self.new.writes ≡ self.old.writes }
        ensures flushes { CountsFlushed result self.old.flushes self.new.flushes }
        ensures flushed { MatchResult result (λ _. self.new.is_flushed ≡ true) (λ _.
            self.new.is_flushed ≡ self.old.is_flushed) }
        ensures room { self.new.room ≡ self.old.room }
    {
        let result = self.inner.flush();
        match &result {
            Ok(()) => {
                self.flushes = self.flushes.saturating_add(1);
                self.is_flushed = true;
            }
            Err(_) => self.failures = self.failures.one_more(),
        }
        result
    }
}
