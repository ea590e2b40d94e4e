//! Base chains, with their costs.
ghost use Rattle.std.specs.Prelude.{◌≡◌, ◌<◌, ◌≤◌, false};
ghost use Rattle.rule_paths.specs.Paths.{MAX_COST};
ghost use Rattle.rule_values.specs.Faults.{priority_out_of_range};

use filter_vm::Start;
use nft_tree::{ChainKind, Head, Policy};
use rule_meaning::ChainNo;

/// A base chain of a ruleset.
#[derive(Clone, Copy)]
pub(crate) struct CompiledChain<'t> {
    pub(crate) number: ChainNo,
    pub(crate) head: &'t Head,
    /// How many statements a packet starts here at most, plus 1 for the policy.
    pub(crate) cost: u32,
    ghost is_positive: { 0 < cost },
    ghost in_limit: { cost ≤ MAX_COST },
    ghost in_range: { priority_out_of_range head.now.priority ≡ false },
}

impl CompiledChain<'_> {
    ghost use Rattle.compiler.specs.steps.Bases.{start_of};

    /// The entry point of the chain. Without a `policy` a base chain accepts (nft(8), "Chains").
    pub(crate) fn start(&self) -> Start
        ensures { result ≡ start_of self.now }
    {
        Start {
            chain: self.number,
            policy: self.head.policy.unwrap_or(Policy::Accept),
            priority: self.head.priority.number() as i32,
            is_nat: matches!(self.head.kind, ChainKind::Nat),
            cost: self.cost,
        }
    }
}
