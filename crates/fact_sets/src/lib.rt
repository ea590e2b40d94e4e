//! What rules can read of a packet as bits, and the packets for which a selector has a value that passes a
//! test, as a set.
#![tactic(auto)]

mod cases;
mod fact_field;
mod interfaces;
mod laws;
mod layout;
mod numbers;
mod ranges;
mod readings;
mod written;

pub use cases::Case;
pub use fact_field::FactField;
pub use interfaces::Interfaces;
pub use laws::facts_have_bits;
pub use ranges::{Test, fixed};
pub use readings::Reader;
pub use written::{MarkSource, Written};
