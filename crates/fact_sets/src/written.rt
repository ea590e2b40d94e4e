//! What rules have written.

/// What a mark is, where rules may have written it.
#[derive(Clone, Copy, PartialEq, Eq)]
pub enum MarkSource {
    /// The packet's mark as it came.
    Packet,
    /// The mark of the packet's connection as it came.
    Connection,
    /// A number that rules wrote.
    Number(u32),
}

/// What rules have written of a packet's facts.
#[derive(Clone, Copy, PartialEq, Eq)]
pub struct Written {
    /// The packet's mark.
    pub packet: MarkSource,
    /// The mark of its connection.
    pub connection: MarkSource,
    /// A `notrack` statement has ruled out the lookup to come.
    pub untracked: bool,
}

impl Written {
    /// Nothing.
    pub const NOTHING: Written = Written {
        packet: MarkSource::Packet,
        connection: MarkSource::Connection,
        untracked: false,
    };
}
