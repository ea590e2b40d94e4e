//! The parts of a line.

/// A part of a line.
#[derive(Clone, Copy)]
pub enum Piece<'a> {
    /// Bytes as they are.
    Text(&'a [u8]),
    /// A blank, and then bytes.
    Word(&'a [u8]),
    /// A blank, and then a decimal number.
    Number(u128),
}
