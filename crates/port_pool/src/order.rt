//! The kind of a pool's numbers.

/// The kind of a pool's numbers.
#[derive(Clone, Copy)]
pub enum Order {
    /// Ports of TCP or UDP: 1 to 65535, by class and parity.
    Ports,
    /// Identifiers of ICMP queries: 0 to 65535.
    Identifiers,
    /// 0 alone, for a protocol without ports.
    Zero,
}
