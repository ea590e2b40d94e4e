//! Writes a whole byte string, by as many calls as it takes.
ghost use Rattle.std.specs.Prelude.{◌≡◌, ◌≤◌, ◌+◌, length, OnOk, OnErr};
ghost use Rattle.std.specs.Io.KnownBytes.{Appends};
ghost use Rattle.devices.specs.Counting.{one_failure, AppendsPrefix};

use crate::counted::Counted;
use std::io::Write;
use thiserror::Error;

/// A read, a write or a flush failed.
#[derive(Clone, Copy, Debug, Error)]
#[error("device")]
pub struct DeviceFailed;

/// Writes all bytes.
///
/// # Errors
/// At the first call that fails (an interrupted one too) or writes nothing; the writer then holds
/// a prefix of the bytes.
pub fn write_whole<W: Write>(writer: &mut Counted<W>, bytes: &[u8]) -> Result<(), DeviceFailed>
    ensures ok { OnOk result (Appends (W.contents writer.old.inner) (W.contents writer.new.inner)
        bytes.now) }
    ensures no_failure { OnOk result (writer.new.failures ≡ writer.old.failures) }
    ensures part { OnErr result (AppendsPrefix (W.contents writer.old.inner)
        (W.contents writer.new.inner) bytes.now) }
    ensures device { OnErr result (writer.new.failures ≡ one_failure writer.old.failures) }
    // Each write but a failed one takes some bytes, so there is none where there are none to write.
    ensures writes { writer.new.writes ≤ writer.old.writes + length bytes.now }
    ensures flushes { writer.new.flushes ≡ writer.old.flushes }
{
    let mut rest = bytes;
    while !rest.is_empty() {
        match writer.write(rest) {
            Ok(0) => return Err(DeviceFailed),
            Ok(count) => rest = &rest[count..],
            Err(_) => return Err(DeviceFailed),
        }
    }
    Ok(())
}
