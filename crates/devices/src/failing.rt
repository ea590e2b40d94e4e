//! A reader or writer for tests, of which one call fails.
ghost use Rattle.std.specs.Prelude.{◌≡◌, ◌-◌, false, cond, not, ◌&&◌, ◌||◌, ◌==◌, IsErr};
ghost use Rattle.std.specs.Io.{ReadsAtMost, WritesAtMost};
ghost use Rattle.std.specs.Io.KnownBytes.{ReadConsumes, WriteAppends, Keeps};

use std::io;
use std::io::{ErrorKind, Read, Write};

/// Fails once, after some calls (reads, writes and flushes) that work.
#[derive(Drop)]
pub struct Failing<T> {
    inner: T,
    calls: usize,
    is_done: bool,
}

impl<T> Failing<T> {
    /// `calls` calls work, and the next one fails.
    pub fn new(inner: T, calls: usize) -> Self
        ensures inner { result.inner ≡ inner }
        ensures calls { result.calls ≡ calls }
        ensures waits { result.is_done ≡ false }
    {
        Failing {
            inner,
            calls,
            is_done: false,
        }
    }

    /// Unwraps the reader or writer.
    pub fn into_inner(self) -> T
        ensures { result ≡ self.inner }
    {
        self.inner
    }

    /// Whether this call is the one that fails.
    fn fails(&mut self) -> bool
        ensures inner { self.new.inner ≡ self.old.inner }
        ensures fails_now { result ≡ (not self.old.is_done && (self.old.calls == 0)) }
        ensures calls { self.new.calls ≡ cond self.old.is_done self.old.calls (self.old.calls - 1) }
        ensures done { self.new.is_done ≡ (self.old.is_done || (self.old.calls == 0)) }
    {
        if self.is_done {
            return false;
        }
        if self.calls == 0 {
            self.is_done = true;
            return true;
        }
        self.calls -= 1;
        false
    }
}

impl<R: Read> Read for Failing<R> {
    ghost remaining = { λ s. R.remaining s.inner };

    #[tactic(auto, using(crate::proofs::Devices::kept_rules))]
    fn read(&mut self, buf: &mut [u8]) -> io::Result<usize>
        ensures bound { ReadsAtMost result buf.new }
        ensures bytes { ReadConsumes (R.remaining self.old.inner) (R.remaining self.new.inner)
            result buf.new }
        ensures fails { self.old.is_done ≡ false → self.old.calls ≡ 0 → IsErr result }
        ensures calls { self.new.calls ≡ cond self.old.is_done self.old.calls (self.old.calls - 1) }
        ensures done { self.new.is_done ≡ (self.old.is_done || (self.old.calls == 0)) }
    {
        if self.fails() {
            return Err(io::Error::from(ErrorKind::Interrupted));
        }
        self.inner.read(buf)
    }
}

impl<W: Write> Write for Failing<W> {
    ghost contents = { λ s. W.contents s.inner };

    #[tactic(auto, using(crate::proofs::Devices::kept_rules))]
    fn write(&mut self, buf: &[u8]) -> io::Result<usize>
        ensures bound { WritesAtMost result buf.now }
        ensures bytes { WriteAppends (W.contents self.old.inner) (W.contents self.new.inner) result
            buf.now }
        ensures fails { self.old.is_done ≡ false → self.old.calls ≡ 0 → IsErr result }
        ensures calls { self.new.calls ≡ cond self.old.is_done self.old.calls (self.old.calls - 1) }
        ensures done { self.new.is_done ≡ (self.old.is_done || (self.old.calls == 0)) }
    {
        if self.fails() {
            return Err(io::Error::from(ErrorKind::Other));
        }
        self.inner.write(buf)
    }

    #[tactic(auto, using(crate::proofs::Devices::kept_rules))]
    fn flush(&mut self) -> io::Result<()>
        ensures bytes { Keeps (W.contents self.old.inner) (W.contents self.new.inner) }
        ensures fails { self.old.is_done ≡ false → self.old.calls ≡ 0 → IsErr result }
        ensures calls { self.new.calls ≡ cond self.old.is_done self.old.calls (self.old.calls - 1) }
        ensures done { self.new.is_done ≡ (self.old.is_done || (self.old.calls == 0)) }
    {
        if self.fails() {
            return Err(io::Error::from(ErrorKind::Other));
        }
        self.inner.flush()
    }
}
