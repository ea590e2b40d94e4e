//! Parses numbers, names and addresses.
ghost use Rattle.std.specs.Prelude.{◌≡◌, ◌<◌, ◌-◌, ◌^◌, ◌%◌, ◌==◌};
ghost use Rattle.std.specs.List.{list_all};
ghost use Rattle.std.specs.Option.{option_map};
ghost use Rattle.std.specs.Char.{is_ascii_digit};
ghost use Rattle.box_file.specs.Box.{is_name_byte};
ghost use Rattle.box_file.specs.Text.{is_numeral};
ghost use Rattle.box_file.specs.steps.Reading.{is_name, number_in, name_in, octet_in, address_in, prefixed_in};

use crate::words::cut;
use std::str;

/// An interface's name has fewer bytes (Linux's IFNAMSIZ, which counts the zero byte after a name).
const NAME_BYTES: usize = 16;

fn is_digits(bytes: &[u8]) -> bool
    ensures { result ≡ list_all is_ascii_digit bytes.now }
{
    bytes.iter().all(|byte| byte.is_ascii_digit())
}

/// Whether the bytes are digits, without a leading zero.
pub fn is_numeral(bytes: &[u8]) -> bool
    ensures { result ≡ is_numeral bytes.now }
{
    match bytes {
        [] => false,
        [first, rest @ ..] => is_digits(bytes) && (*first != b'0' || rest.is_empty()),
    }
}

/// The decimal number that the bytes spell.
#[tactic(auto, unfolding(crate::specs::steps::Reading::number_in))]
pub fn number(bytes: &[u8]) -> Option<u32>
    ensures { result ≡ number_in bytes.now }
{
    // `parse` alone would also take a plus and leading zeros.
    if !is_numeral(bytes) {
        return None;
    }
    str::from_utf8(bytes).ok()?.parse().ok()
}

fn is_name_byte(byte: u8) -> bool
    ensures { result ≡ is_name_byte byte }
{
    byte.is_ascii_alphanumeric() || byte == b'_' || byte == b'-' || byte == b'.'
}

fn is_name_bytes(bytes: &[u8]) -> bool
    ensures { result ≡ list_all is_name_byte bytes.now }
{
    bytes.iter().all(|byte| is_name_byte(*byte))
}

/// Whether the bytes are an interface's name: 1 to 15 letters, digits, `_`, `-` or `.`.
fn is_name(bytes: &[u8]) -> bool
    ensures { result ≡ is_name bytes.now }
{
    0 < bytes.len() && bytes.len() < NAME_BYTES && is_name_bytes(bytes)
}

/// The bytes, if they are an interface's name.
#[tactic(auto, unfolding(crate::specs::steps::Reading::name_in))]
pub fn name(bytes: &[u8]) -> Option<&[u8]>
    ensures { option_map (λ x. x.now) result ≡ name_in bytes.now }
{
    if is_name(bytes) { Some(bytes) } else { None }
}

/// A byte of a dotted address.
#[tactic(auto, unfolding(crate::specs::steps::Reading::octet_in))]
fn octet(bytes: &[u8]) -> Option<u8>
    ensures { result ≡ octet_in bytes.now }
{
    let value = number(bytes)?;
    if value < 256 { Some(value as u8) } else { None }
}

/// An address in dotted decimal, the most significant byte first.
#[tactic(auto, unfolding(crate::specs::steps::Reading::address_in))]
fn address(bytes: &[u8]) -> Option<u32>
    ensures { result ≡ address_in bytes.now }
{
    let (first, rest) = cut(bytes, b'.')?;
    let (second, rest) = cut(rest, b'.')?;
    let (third, fourth) = cut(rest, b'.')?;
    let first = octet(first)?;
    let second = octet(second)?;
    let third = octet(third)?;
    let fourth = octet(fourth)?;
    Some(
        u32::from(first) * 16_777_216
            + u32::from(second) * 65_536
            + u32::from(third) * 256
            + u32::from(fourth),
    )
}

/// A prefix in CIDR notation: its address and its length.
#[tactic(auto, unfolding(crate::specs::steps::Reading::prefixed_in))]
pub fn prefixed(bytes: &[u8]) -> Option<(u32, u8)>
    ensures { result ≡ prefixed_in bytes.now }
{
    let (before, after) = cut(bytes, b'/')?;
    let address = address(before)?;
    let prefix = number(after)?;
    if prefix < 33 {
        Some((address, prefix as u8))
    } else {
        None
    }
}

/// Whether the host bits of the address are zero.
pub fn is_network(address: u32, prefix: u8) -> bool
    requires { prefix < 33 }
    ensures { result ≡ (address % 2 ^ (32 - prefix) == 0) }
{
    u64::from(address) % (1u64 << (32 - prefix)) == 0
}
