//! Where a run writes.
ghost use Rattle.std.specs.Io.{WritesAtMost};
ghost use Rattle.std.specs.Io.KnownBytes.{WriteAppends, Keeps};
ghost use Rattle.nftrun.specs.steps.Promised.{held_by};

use std::io;
use std::io::Write;

/// A file that a run writes; or nothing, where what is written is lost. It is one type, so that a run
/// for its connections alone is compiled to the code of every other.
#[derive(Drop)]
pub(crate) enum Destination<F> {
    File(F),
    Nothing,
}

impl<F: Write> Write for Destination<F> {
    ghost contents = { λ destination. held_by F.contents destination };

    fn write(&mut self, buf: &[u8]) -> io::Result<usize>
        ensures bound { WritesAtMost result buf.now }
        ensures bytes { WriteAppends (held_by F.contents self.old) (held_by F.contents self.new)
            result buf.now }
    {
        match self {
            Destination::File(file) => file.write(buf),
            Destination::Nothing => Ok(buf.len()),
        }
    }

    fn flush(&mut self) -> io::Result<()>
        ensures bytes { Keeps (held_by F.contents self.old) (held_by F.contents self.new) }
    {
        match self {
            Destination::File(file) => file.flush(),
            Destination::Nothing => Ok(()),
        }
    }
}
