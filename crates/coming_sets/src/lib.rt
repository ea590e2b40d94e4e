//! The packets that can come to a base chain, or to a stage of a hook, as a set.
#![tactic(auto)]

mod base;
mod can_come;
mod laws;
mod stages;

pub use base::Base;
pub use can_come::coming;
pub use laws::chains_see_their_stage;
pub use stages::coming_to;
