//! Rules as sets of packets: what each statement does with all of them at once.
#![tactic(auto)]

mod adding;
mod cutting;
mod ends;
mod interfaces;
mod laws;
mod meeting;
mod parts;
mod progress;
mod statements;

pub use ends::{End, rule_ends};
pub use interfaces::box_interfaces;
pub use laws::rule_runs_to_its_end;
pub use meeting::met;
pub use parts::{Parts, sorted};
pub use statements::{Setting, statement_cases};
