//! Flat code for the rules of a table: its steps with their guards, and what one statement does with
//! a packet.
#![tactic(auto)]

mod actions;
mod code;
mod concatenation;
mod guards;
mod reading;

pub use actions::{ActionEffect, apply_action, fails};
pub use code::{Action, Instruction, Lookups, Operand, Step, TableCode};
pub use concatenation::{Concatenation, read_concatenation};
pub use guards::{Guard, StepList};
pub use reading::read_short;
