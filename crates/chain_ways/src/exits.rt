//! Where packets go on behind a rule.
ghost use Rattle.chain_ways.specs.Exits.{IsExit};

use rule_meaning::{HookVerdict, RuleVerdict};

/// Where a packet goes on behind a rule.
#[derive(Clone, Copy)]
pub enum RuleExit {
    /// At the next rule of the chain.
    Next,
    /// At the chain's end.
    End,
    /// At no further rule: the base chain has this verdict.
    Over(HookVerdict),
    /// In the chain with this index, and behind that at the next rule.
    Jump(u32),
    /// In that chain, in place of the rest of this one.
    Goto(u32),
}

/// Where a packet goes on behind a rule, by the verdict that the rule gave, if it gave one.
pub fn rule_exit(verdict: Option<RuleVerdict>) -> RuleExit
    ensures { IsExit verdict result }
{
    match verdict {
        None | Some(RuleVerdict::Continue) => RuleExit::Next,
        Some(RuleVerdict::Accept) => RuleExit::Over(HookVerdict::Accepted),
        Some(RuleVerdict::Drop) => RuleExit::Over(HookVerdict::Dropped),
        Some(RuleVerdict::Translate(action)) => RuleExit::Over(HookVerdict::Translated(action)),
        Some(RuleVerdict::Return) => RuleExit::End,
        Some(RuleVerdict::Jump(chain)) => RuleExit::Jump(chain),
        Some(RuleVerdict::Goto(chain)) => RuleExit::Goto(chain),
    }
}
