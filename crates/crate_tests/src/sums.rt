//! The sum of a header's words, over bytes of any number.
use crate::support::check_row;
use ip_headers::ones_sum;

/// The first is the example of RFC 1071, section 3.
static SUMS: [(&[u8], u16); 5] = [
    (&[0x00, 0x01, 0xf2, 0x03, 0xf4, 0xf5, 0xf6, 0xf7], 0xddf2),
    (&[], 0),
    (&[0x01], 0x0100),
    (&[0xff, 0xff, 0x00, 0x01], 0x0001),
    (&[0xff, 0xff, 0xff, 0xff], 0xffff),
];

#[test]
fn sums(rt: HostRuntime) {
    for row in 0..SUMS.len() {
        let (words, sum) = SUMS[row];
        check_row(&rt, row, ones_sum(words) == sum);
    }
}

/// The sum by the C code of RFC 1071, section 4.1.
fn plain_sum(bytes: &[u8]) -> u16 {
    let mut sum = 0u32;
    for index in 0..bytes.len() {
        let weight = if index % 2 == 0 { 256 } else { 1 };
        sum = sum.wrapping_add(u32::from(bytes[index]) * weight);
    }
    let folded = (sum & 0xffff).wrapping_add(sum >> 16);
    (folded & 0xffff).wrapping_add(folded >> 16) as u16
}

/// Every length up to 200: blocks of the fast path, and their remainders.
#[test]
fn sums_of_each_length(rt: HostRuntime) {
    let mut bytes = [0u8; 200];
    for number in 0..200u8 {
        bytes[usize::from(number)] = number.wrapping_mul(151) ^ 0xa5;
    }
    for length in 0..201 {
        let beginning = &bytes[..length];
        check_row(&rt, length, ones_sum(beginning) == plain_sum(beginning));
    }
}
