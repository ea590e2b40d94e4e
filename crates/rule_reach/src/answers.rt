//! What packets do at the rules of a ruleset, and to which its policies apply.
ghost use Rattle.std.specs.Prelude.{◌≡◌};
ghost use Rattle.rule_reach.specs.Takers.{is_unmet};
ghost use Rattle.rule_reach.specs.steps.Answering.{better};

use chain_sets::WalkError;
use nft_tree::RuleNo;
use packet_sets::SetError;
use rule_meaning::ChainNo;
use std::alloc::{AllocError, AllocFailed};
use thiserror::Error;

/// What packets do at a rule, of those that come to a base chain.
#[derive(Clone, Copy, Debug, PartialEq, Eq)]
pub enum Answer {
    /// Some packet meets its last statement.
    Met,
    /// No packet comes to it.
    NotReached,
    /// Packets come to it, and none meets its last statement.
    NotMatched,
}

/// A rule, and what packets do at it.
#[derive(Clone, Copy)]
pub struct RuleReach {
    pub rule: RuleNo,
    pub answer: Answer,
}

/// A base chain, and whether its policy applies to some packet.
#[derive(Clone, Copy)]
pub struct PolicyReach {
    pub chain: ChainNo,
    pub applies: bool,
}

/// What packets do in a ruleset.
#[derive(Drop)]
pub struct Reach {
    /// All rules, in text order.
    pub rules: Vec<RuleReach>,
    /// The base chains to which packets come, in text order.
    pub policies: Vec<PolicyReach>,
}

/// A rule that no packet meets, and why.
#[derive(Drop)]
pub struct Unmet {
    pub rule: RuleNo,
    /// The numbers of the rules of its chain, in order, that take packets which would meet it as they
    /// came to a base chain: such a packet comes to the rule with the number, and not to the next.
    pub takers: Vec<u32>,
    /// Whether any packet that comes to the first rule of its chain would meet it as it came.
    pub matches_some: bool,
}

/// Why it isn't told.
#[derive(Clone, Copy, Debug, PartialEq, Eq, Error)]
pub enum ReachError {
    /// The sets of packets have as many nodes as the limit allows, and one more is needed.
    #[error("too large")]
    TooLarge,
    /// Jumps and gotos are nested too deep.
    #[error("too deep")]
    TooDeep,
    /// An allocation failed.
    #[error("memory")]
    Memory,
}

impl From<SetError> for ReachError {
    ghost use Rattle.std.specs.Prelude.{◌≡◌};
    ghost use Rattle.rule_reach.specs.steps.Errors.{of_sets};

    ghost from_gives = { λ error e. e ≡ of_sets error };

    fn from(error: SetError) -> ReachError {
        match error {
            SetError::TooLarge => ReachError::TooLarge,
            SetError::Memory => ReachError::Memory,
        }
    }
}

impl From<WalkError> for ReachError {
    ghost use Rattle.std.specs.Prelude.{◌≡◌};
    ghost use Rattle.rule_reach.specs.steps.Errors.{of_ways};

    ghost from_gives = { λ error e. e ≡ of_ways error };

    fn from(error: WalkError) -> ReachError {
        match error {
            WalkError::TooLarge => ReachError::TooLarge,
            WalkError::TooDeep => ReachError::TooDeep,
            WalkError::Memory => ReachError::Memory,
        }
    }
}

impl From<AllocError> for ReachError {
    ghost use Rattle.std.specs.Prelude.{◌≡◌};
    ghost use Rattle.rule_reach.specs.declared.answers.ReachError.{ReachError};

    ghost from_gives = { λ _ e. e ≡ ReachError.Memory };

    fn from(_error: AllocError) -> ReachError {
        ReachError::Memory
    }
}

impl<T: Drop> From<AllocFailed<T>> for ReachError {
    ghost use Rattle.std.specs.Prelude.{◌≡◌};
    ghost use Rattle.rule_reach.specs.declared.answers.ReachError.{ReachError};

    ghost from_gives = { λ _ e. e ≡ ReachError.Memory };

    fn from(_error: AllocFailed<T>) -> ReachError {
        ReachError::Memory
    }
}

impl RuleReach {
    /// Whether no packet meets it.
    pub(crate) fn is_unmet(self) -> bool
        ensures { result ≡ is_unmet self }
    {
        !matches!(self.answer, Answer::Met)
    }
}

impl Answer {
    /// The answer for two groups of packets by those for each.
    pub(crate) fn or(self, other: Answer) -> Answer
        ensures { result ≡ better self other }
    {
        match (self, other) {
            (Answer::Met, _) | (_, Answer::Met) => Answer::Met,
            (Answer::NotReached, Answer::NotReached) => Answer::NotReached,
            _ => Answer::NotMatched,
        }
    }
}
