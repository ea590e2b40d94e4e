//! Interface names as 128-bit numbers.
ghost use Rattle.std.specs.Prelude.{◌≡◌, ◌==◌, not, slice_index_or};
ghost use Rattle.std.specs.List.{list_all};
ghost use Rattle.std.specs.Option.{option_map};
ghost use Rattle.nft_values.specs.Values.{wildcard_prefix, padded, is_interface_name, is_plain_name, name_span};
ghost use Rattle.nft_values.specs.steps.Bounds.{bounds_span};

use crate::bounds::{Bounds, one_number};

/// The size of an interface name with its terminating zero (IFNAMSIZ).
const NAME_BYTES: usize = 16;

fn has_no_backslash(name: &[u8]) -> bool
    ensures { result ≡ list_all (λ b. not (b == 92)) name.now }
{
    name.iter().all(|byte| *byte != b'\\')
}

/// Whether these are 1 to 15 bytes, none of them a backslash.
fn is_plain_name(name: &[u8]) -> bool
    ensures { result ≡ is_plain_name name.now }
{
    0 < name.len() && name.len() < NAME_BYTES && has_no_backslash(name)
}

/// What comes before a trailing `*`, if there is one.
fn wildcard_prefix(name: &[u8]) -> Option<&[u8]>
    ensures { option_map (λ n. n.now) result ≡ wildcard_prefix name.now }
{
    let (last, before) = name.split_last()?;
    if *last == b'*' { Some(before) } else { None }
}

/// Whether the bytes are an interface name, or a prefix of names followed by `*`.
pub fn is_interface_name(name: &[u8]) -> bool
    ensures { result ≡ is_interface_name name.now }
{
    is_plain_name(wildcard_prefix(name).unwrap_or(name))
}

fn byte_at(name: &[u8], at: usize, fill: u8) -> u8
    ensures { result ≡ slice_index_or name.now at fill }
{
    name.get(at).copied().unwrap_or(fill)
}

/// The name padded with `fill` to 16 bytes, as a big-endian number.
fn padded(fill: u8, name: &[u8]) -> u128
    ensures { result ≡ padded fill name.now }
{
    let mut number = 0;
    for at in 0..NAME_BYTES {
        number = number * 256 + u128::from(byte_at(name, at, fill));
    }
    number
}

/// The interface name as a number: padded with zeros to 16 bytes, big-endian.
pub fn name_number(name: &[u8]) -> u128
    ensures { result ≡ padded 0 name.now }
{
    padded(0, name)
}

/// The number of the name; for a name that ends in `*`, those of all names with that prefix.
pub fn name_bounds(name: &[u8]) -> Bounds
    ensures { bounds_span result ≡ name_span name.now (wildcard_prefix name.now) }
{
    match wildcard_prefix(name) {
        Some(beginning) => Bounds {
            low: padded(0, beginning),
            high: padded(255, beginning),
        },
        None => one_number(padded(0, name)),
    }
}
