//! Verdicts of rules, events, and results of base chains.
use crate::facts::Facts;
use nft_tree::{MarkField, Policy, RuleNo};

/// The position of a chain: its table, and its index among the table's chains, both from 0.
#[derive(Clone, Copy)]
pub struct ChainNo {
    pub table: u32,
    pub chain: u32,
}

/// The position of a statement: its rule, and its number within the rule, from 1.
#[derive(Clone, Copy)]
pub struct StatementPosition {
    pub rule: RuleNo,
    pub statement: u32,
}

/// The verdict of a rule. Chains are given by their index within the table, from 0.
#[derive(Clone, Copy, PartialEq, Eq)]
pub enum RuleVerdict {
    Accept,
    Drop,
    Continue,
    Return,
    Jump(u32),
    Goto(u32),
    Translate(NatAction),
}

/// What a NAT statement requests.
#[derive(Clone, Copy, PartialEq, Eq)]
pub enum NatAction {
    /// `snat`: the source becomes the address and, if ports are given, one of them.
    Source(u32, Option<PortInterval>),
    /// `dnat`: the destination becomes the address and, if one is given, the port.
    Destination(u32, Option<u16>),
    /// `masquerade`: the source becomes the address of the output interface.
    Masquerade(Option<PortInterval>),
    /// `redirect`: the destination becomes the address of the input interface.
    Redirect(Option<u16>),
}

/// The ports from `low` to `high`, both included.
#[derive(Clone, Copy, PartialEq, Eq)]
pub struct PortInterval {
    pub low: u16,
    pub high: u16,
}

/// An event while rules run.
#[derive(Clone, Copy)]
pub enum Event {
    /// A counter counted the packet.
    Counted(StatementPosition),
    /// A `log` statement logged it.
    Logged(StatementPosition),
    /// A `notrack` statement took effect: there will be no conntrack lookup.
    Untracked,
    /// A mark was set.
    Marked(MarkField, u32),
    /// A rule gave a verdict.
    TookVerdict(RuleNo, RuleVerdict),
    /// A packet reached the end of a base chain, whose policy applies.
    TookPolicy(ChainNo, Policy),
}

/// The verdict of a base chain.
#[derive(Clone, Copy)]
pub enum HookVerdict {
    /// The packet continues with the next base chain.
    Accepted,
    /// The packet is dropped.
    Dropped,
    /// A NAT statement applies to the packet.
    Translated(NatAction),
}

/// The result of a base chain: its verdict, and the facts from then on.
#[derive(Clone, Copy)]
pub struct ChainResult {
    pub verdict: HookVerdict,
    /// With the marks that were set.
    pub facts: Facts,
}
