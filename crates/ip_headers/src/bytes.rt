//! Numbers in network byte order.
ghost use Rattle.std.specs.Prelude.{◌≡◌, ◌+◌, ◌≤◌, length};
ghost use Rattle.ip_headers.specs.Bytes.{u16_at, u32_at};

use byteorder::{BigEndian, ByteOrder};

/// The 16 bits at an offset.
#[inline(always)]
pub(crate) fn u16_at(bytes: &[u8], offset: usize) -> u16
    requires { offset + 2 ≤ length bytes.now }
    ensures { result ≡ u16_at bytes.now offset }
{
    BigEndian::read_u16(&bytes[offset..])
}

/// The 32 bits at an offset.
#[inline(always)]
pub(crate) fn u32_at(bytes: &[u8], offset: usize) -> u32
    requires { offset + 4 ≤ length bytes.now }
    ensures { result ≡ u32_at bytes.now offset }
{
    BigEndian::read_u32(&bytes[offset..])
}
