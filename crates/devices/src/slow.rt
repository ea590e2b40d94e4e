//! A reader or writer for tests, of which each call takes a few bytes.
ghost use Rattle.std.specs.Prelude.{◌≡◌, ◌≤◌, max, IfOk};
ghost use Rattle.std.specs.Io.{ReadsAtMost, WritesAtMost};
ghost use Rattle.std.specs.Io.KnownBytes.{ReadConsumes, WriteAppends};

use std::io;
use std::io::{Read, Write};

/// Reads or writes at most `most` bytes a call, or one where that is 0.
#[derive(Drop)]
pub struct Slow<T> {
    inner: T,
    most: usize,
}

impl<T> Slow<T> {
    /// Limits the calls of `inner` to `most` bytes.
    pub fn new(inner: T, most: usize) -> Self
        ensures inner { result.inner ≡ inner }
        ensures most { result.most ≡ most }
    {
        Slow { inner, most }
    }

    /// Unwraps the reader or writer.
    pub fn into_inner(self) -> T
        ensures { result ≡ self.inner }
    {
        self.inner
    }
}

impl<R: Read> Read for Slow<R> {
    ghost remaining = { λ s. R.remaining s.inner };

    fn read(&mut self, buf: &mut [u8]) -> io::Result<usize>
        ensures bound { ReadsAtMost result buf.new }
        ensures bytes { ReadConsumes (R.remaining self.old.inner) (R.remaining self.new.inner)
            result buf.new }
        ensures most { IfOk result (λ count. count ≤ max self.old.most 1) }
        ensures kept { self.new.most ≡ self.old.most }
    {
        let count = self.most.max(1).min(buf.len());
        self.inner.read(&mut buf[..count])
    }
}

impl<W: Write> Write for Slow<W> {
    ghost contents = { λ s. W.contents s.inner };

    fn write(&mut self, buf: &[u8]) -> io::Result<usize>
        ensures bound { WritesAtMost result buf.now }
        ensures bytes { WriteAppends (W.contents self.old.inner) (W.contents self.new.inner) result
            buf.now }
        ensures most { IfOk result (λ count. count ≤ max self.old.most 1) }
        ensures kept { self.new.most ≡ self.old.most }
    {
        let count = self.most.max(1).min(buf.len());
        self.inner.write(&buf[..count])
    }

    fn flush(&mut self) -> io::Result<()> {
        self.inner.flush()
    }
}
