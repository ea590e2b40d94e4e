//! The Internet checksum's ones' complement sum (RFC 1071).
ghost use Rattle.std.specs.Prelude.{◌≡◌, ◌+◌, ◌<◌, ℕ, All, length};
ghost use Rattle.ip_headers.specs.Sum.{words_sum, ones_sum_of, ones_add, sum_with_carries, folded};

use byteorder::{BigEndian, ByteOrder};
use std::simd::prelude::*;

/// How many bytes are summed at a time, one in each SIMD lane.
const BLOCK: usize = 16;

/// The length of a header without options.
const PLAIN_HEADER: usize = 20;

/// The ones' complement sum of the big-endian 16-bit words (RFC 1071); an odd last byte is padded
/// with a zero byte. It is 0 only where every byte is 0. A header with a correct checksum sums up
/// to ffff.
pub fn ones_sum(bytes: &[u8]) -> u16
    ensures sum { result ≡ ones_sum_of bytes.now }
    // The same with the end-around carry at each word.
    ensures carries { result ≡ sum_with_carries bytes.now }
    ensures zero { result ≡ 0 → All (λ byte. byte ≡ 0) bytes.now }
{
    let mut sum = 0;
    let mut rest = bytes;
    while let Some((block, others)) = rest.split_at_checked(BLOCK) {
        sum = reduced(sum) + u64::from(block_sum(block));
        rest = others;
    }
    add_words(sum, rest)
}

/// The sum of a header. Most have no options: their five double words are summed one by one, which
/// takes less than one block and a rest.
pub(crate) fn header_sum(header: &[u8]) -> u16
    ensures { result ≡ ones_sum_of header.now }
{
    if header.len() == PLAIN_HEADER {
        add_words(0, header)
    } else {
        ones_sum(header)
    }
}

/// A smaller number with the same ones' complement sum (2^32 is congruent to 1 modulo 65535).
fn reduced(sum: u64) -> u64
    requires { sum < 8589934592 }
    ensures small { result < 4294967297 }
    ensures same { (more : ℕ) → folded (result + more) ≡ folded (sum + more) }
{
    sum / 4_294_967_296 + sum % 4_294_967_296
}

/// The sum of a block's eight words without reduction, each byte in a lane of its own.
fn block_sum(block: &[u8]) -> u32
    requires { length block.now ≡ 16 }
    ensures { result ≡ words_sum block.now }
{
    let weights = u32x16::from_array([
        256, 1, 256, 1, 256, 1, 256, 1, 256, 1, 256, 1, 256, 1, 256, 1,
    ]);
    u8x16::from_slice(block)
        .cast::<u32>()
        .strict_mul(weights)
        .strict_reduce_sum()
}

/// Folds the carries in (end-around carry).
fn fold(sum: u64) -> u16
    ensures { result ≡ folded sum }
{
    if sum == 0 {
        0
    } else {
        ((sum - 1) % 65535 + 1) as u16
    }
}

/// Adds these bytes to the sum, two words at a time, and folds it.
#[inline(always)]
fn add_words(start: u64, bytes: &[u8]) -> u16
    requires { start < 8589934592 }
    ensures { result ≡ folded (start + words_sum bytes.now) }
{
    let mut sum = start;
    let mut rest = bytes;
    while let Some((words, others)) = rest.split_at_checked(4) {
        sum = reduced(sum) + u64::from(BigEndian::read_u32(words));
        rest = others;
    }
    add_bytes(fold(sum), rest)
}

/// Adds these bytes to the sum, the first of them as a high byte.
fn add_bytes(start: u16, bytes: &[u8]) -> u16
    ensures { result ≡ folded (start + words_sum bytes.now) }
{
    let mut sum = start;
    let mut is_high = true;
    for byte in bytes {
        let part = if is_high {
            *byte as u16 * 256
        } else {
            *byte as u16
        };
        sum = add(sum, part);
        is_high = !is_high;
    }
    sum
}

// Ones' complement addition, with the end-around carry.
fn add(first: u16, second: u16) -> u16
    ensures { result ≡ ones_add first second }
{
    match first.checked_add(second) {
        Some(sum) => sum,
        None => first - (65535 - second),
    }
}
