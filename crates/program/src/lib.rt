//! The program: what it does with its command line, its files, standard output and standard error.
#![tactic(auto)]

mod diffing;
mod examining;
mod fault;
mod host;
mod identity;
mod performing;
mod reaching;
mod replaying;
mod status;

pub use diffing::{DiffInputs, RulesetRole, diff};
pub use examining::examine;
pub use fault::{DiffFault, ReachFault};
pub use host::{Host, RunFiles};
pub use identity::FileIdentity;
pub use performing::perform;
pub use reaching::reach;
pub use replaying::replay;
pub use status::Status;
