//! Shared by the tests: a packet, bytes, repeated texts, code, and checks of rows.
use box_file::Plant;
use compiler::compile;
use filter_vm::Code;
use nft_parser::parse;
use rule_check::{Checked, check};
use std::alloc::Global;
use std::process::Abort;

/// UDP from 192.168.1.10:5000 to 198.51.100.7:53, TTL 64.
pub static PACKET: [u8; 28] = [
    0x45, 0x00, 0x00, 0x1c, 0x00, 0x01, 0x00, 0x00, 0x40, 0x11, 0x8e, 0xe3, 0xc0, 0xa8, 0x01, 0x0a,
    0xc6, 0x33, 0x64, 0x07, 0x13, 0x88, 0x00, 0x35, 0x00, 0x08, 0x00, 0x00,
];

/// The bytes of the concatenated hexadecimal strings.
pub fn bytes<R: Abort + AllocGlobal>(rt: &R, parts: &[&str]) -> Vec<u8> {
    let digits = parts.concat(rt.alloc()).expect(rt, "memory");
    hex::decode(rt.alloc(), digits).expect(rt, "hexadecimal digits")
}

/// A beginning, a piece repeated, and an end.
pub fn repeated<R: Abort + AllocGlobal>(
    rt: &R,
    beginning: &[u8],
    piece: &[u8],
    count: usize,
    end: &[u8],
) -> Vec<u8> {
    let pieces = piece.repeat(rt.alloc(), count).expect(rt, "memory");
    [beginning, &pieces, end]
        .concat(rt.alloc())
        .expect(rt, "memory")
}

/// The code of a ruleset on a box; `None` if one of them is refused.
pub fn code_of(alloc: Global, rules: &[u8], network: &[u8]) -> Option<Code> {
    let checked = checked(alloc, rules, network)?;
    compile(alloc, &checked).ok()
}

/// The ruleset, checked for a box; `None` if one of them is refused, or there was no memory.
pub fn checked(alloc: Global, rules: &[u8], network: &[u8]) -> Option<Checked> {
    let network = Plant::read(alloc, network).ok()?;
    match parse(alloc, rules) {
        Ok(tree) => check(alloc, tree, network).ok(),
        Err(_) => None,
    }
}

/// Fails with the row's number if it isn't right.
pub fn check_row<R: Abort>(rt: &R, row: usize, is_right: bool) {
    assert!(rt; is_right, "row {row}");
}
