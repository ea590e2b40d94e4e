//! How the ways of packets through the base chains of a stage end.
use fact_sets::Written;
use nft_tree::RuleNo;
use rule_meaning::{ChainNo, HookVerdict};

/// What gave the verdict of the last base chain that packets came to. It is told for people: no
/// contract rests on it.
#[derive(Clone, Copy)]
pub enum Decider {
    /// The stage has no base chain.
    NoChain,
    /// A rule's verdict.
    Rule(RuleNo),
    /// The policy of a base chain.
    Policy(ChainNo),
}

/// How the ways of packets end: the verdict of the last base chain, and what rules have written then.
#[derive(Clone, Copy)]
pub struct StageOutcome {
    pub verdict: HookVerdict,
    pub written: Written,
    pub by: Decider,
}
