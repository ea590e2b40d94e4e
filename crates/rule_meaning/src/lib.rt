//! The semantics of rules: what selectors read, what statements do, how chains run and hooks are
//! traversed. The definitions are in `specs/`; the code has the types that they share with the
//! implementation.
#![tactic(auto)]

mod event;
mod facts;
mod laws;
mod stage;

pub use event::{
    ChainNo, ChainResult, Event, HookVerdict, NatAction, PortInterval, RuleVerdict,
    StatementPosition,
};
pub use facts::{ConnectionFacts, CtFacts, CtState, Facts, Interface, Packet};
pub use laws::{
    accept_ends_chain, counters_count, drop_ends_hook, empty_chain_jump, hook_result_unique,
    match_needs_value, run_unique, run_unique_for,
};
pub use stage::HookStage;
