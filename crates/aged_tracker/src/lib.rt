//! A conntrack table with an index of tuples and expiry queues. Each call counts few visited slots,
//! however many entries there are.
#![tactic(auto)]

mod aged_slots;
mod aged_tracker;
mod linked_lists;
mod packed;
mod slot;
mod slots;
mod tuple_index;

pub use aged_tracker::AgedTracker;
