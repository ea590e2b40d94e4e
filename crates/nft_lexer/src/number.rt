//! Digits and their values.
ghost use Rattle.std.specs.Prelude.{◌≡◌, ◌≤◌, ◌<◌};
ghost use Rattle.nft_lexer.specs.steps.Reading.{address_of, decimal_at, has_leading_zero, octet_at, value_after, with_digit};

/// The number with one more digit, if it fits 64 bits.
fn with_digit(number: u64, byte: u8, radix: u32) -> Option<u64>
    requires { (2 ≤ radix) × (radix ≤ 36) }
    ensures { result ≡ with_digit radix number byte }
{
    let digit = char::from(byte).to_digit(radix)?;
    number
        .checked_mul(u64::from(radix))?
        .checked_add(u64::from(digit))
}

/// The value of the digits, if it fits 64 bits.
#[tactic(auto, unfolding(crate::specs::steps::Reading::value_after))]
pub(crate) fn value(digits: &[u8], radix: u32) -> Option<u64>
    requires { (2 ≤ radix) × (radix ≤ 36) }
    ensures { result ≡ value_after radix 0 digits.now }
{
    let mut number = 0;
    let mut rest = digits;
    while let [byte, after @ ..] = rest {
        number = with_digit(number, *byte, radix)?;
        rest = after;
    }
    Some(number)
}

/// Whether there is more than one digit and the first is a zero.
fn has_leading_zero(digits: &[u8]) -> bool
    ensures { result ≡ has_leading_zero digits.now }
{
    digits.len() > 1 && digits[0] == b'0'
}

/// The value of decimal digits: `None` if it exceeds 64 bits or has a leading zero.
#[tactic(auto, unfolding(crate::specs::steps::Reading::decimal_at))]
pub(crate) fn decimal(digits: &[u8]) -> Option<u64>
    ensures { result ≡ decimal_at digits.now }
{
    if has_leading_zero(digits) {
        return None;
    }
    value(digits, 10)
}

/// The value of an octet's digits.
#[tactic(auto, unfolding(crate::specs::steps::Reading::octet_at))]
fn octet(digits: &[u8]) -> Option<u8>
    ensures { result ≡ octet_at digits.now }
{
    u8::try_from(decimal(digits)?).ok()
}

/// The address whose octets have these digits, the first the most significant.
#[tactic(auto, unfolding(crate::specs::steps::Reading::address_of))]
pub(crate) fn address(first: &[u8], second: &[u8], third: &[u8], fourth: &[u8]) -> Option<u32>
    ensures { result ≡ address_of first.now second.now third.now fourth.now }
{
    Some(u32::from_be_bytes([octet(first)?, octet(second)?, octet(third)?, octet(fourth)?]))
}
