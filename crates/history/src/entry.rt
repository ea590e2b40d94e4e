//! What an engine lends of the last record.
use crate::outcome::Outcome;
use rule_meaning::Event;

/// The last record as a report reads it.
#[derive(Clone, Copy)]
pub struct Entry<'a> {
    /// The record's number, from 1.
    pub number: u64,
    /// The total length of the packet as received, in bytes; 0 where the record carries none.
    pub length: u16,
    /// The events of the rules' evaluation, in order.
    pub events: &'a [Event],
    /// The outcome.
    pub outcome: Outcome,
    /// Whether the packet began a connection.
    pub begun: bool,
}
