//! What nft(8) refuses of the heads of base chains, and what Linux does otherwise by them.
use crate::findings::Findings;
use nft_tree::{Chain, ChainKind, Head, Hook, Policy, Priority, PriorityName};
use node_spans::TokenRange;
use std::alloc::AllocError;

/// The priority at which Linux looks up connections.
const LOOKUP: i128 = -200;

/// A base chain.
#[derive(Clone, Copy)]
pub(crate) struct BaseChain {
    is_nat: bool,
    hook: Hook,
    priority: i128,
    /// The token of its priority.
    place: usize,
}

impl BaseChain {
    fn shares_hook(self, other: BaseChain) -> bool {
        self.hook as u8 == other.hook as u8
    }

    /// Whether both run in an order of their own on Linux.
    fn shares_place(self, other: BaseChain) -> bool {
        self.shares_hook(other)
            && self.is_nat == other.is_nat
            && self.priority == other.priority
            && !matches!(self.hook, Hook::Output)
    }

    /// Whether it filters at just the priority at which Linux translates destinations or sources
    /// (linux/netfilter_ipv4.h).
    fn is_at_step(self) -> bool {
        let step = (self.hook, self.priority);
        !self.is_nat && matches!(step, (Hook::Prerouting, -100) | (Hook::Postrouting, 100))
    }
}

/// Whether a base chain runs before connections are looked up.
pub(crate) fn is_early(head: &Head) -> bool {
    matches!(head.kind, ChainKind::Filter)
        && matches!(head.hook, Hook::Prerouting)
        && head.priority.number() <= LOOKUP
}

/// Whether the name of a priority isn't one of its hook.
fn is_misplaced_name(head: &Head) -> bool {
    let (Priority::Named(name) | Priority::Offset(name, _, _)) = head.priority else {
        return false;
    };
    match name {
        PriorityName::DstNat => !matches!(head.hook, Hook::Prerouting),
        PriorityName::SrcNat => !matches!(head.hook, Hook::Postrouting),
        _ => false,
    }
}

impl Findings<'_> {
    /// Adds the warnings about the head of a chain, if it has one.
    pub(crate) fn judge_head(
        &mut self,
        chain: &Chain,
        range: TokenRange,
    ) -> Result<(), AllocError> {
        let Some(head) = &chain.head else {
            return Ok(());
        };
        let place = self.tokens.find(range, b"priority").unwrap_or(range.first);
        let priority = head.priority.number();
        if is_misplaced_name(head) {
            let warning =
                "nft takes `dstnat` on prerouting alone and `srcnat` on postrouting alone: write the number";
            self.add(place, warning);
        }
        if is_early(head) && priority == LOOKUP {
            let warning =
                "here a chain of priority -200 runs before connections are looked up, on Linux it may run after: take -199 or -201";
            self.add(place, warning);
        }
        let does_something = !chain.rules.is_empty() || matches!(head.policy, Some(Policy::Drop));
        if matches!(head.hook, Hook::Output) && does_something {
            let warning =
                "here chains on output never run, on Linux they see what the box sends itself";
            self.add_at_word(range, b"type", warning);
        }
        self.chains.push(BaseChain {
            is_nat: matches!(head.kind, ChainKind::Nat),
            hook: head.hook,
            priority,
            place,
        })?;
        Ok(())
    }

    /// Adds the warnings about base chains that have one place together.
    pub(crate) fn judge_order(&mut self) -> Result<(), AllocError> {
        let chains = self.chains.clone()?;
        for (number, chain) in chains.iter().enumerate() {
            let (mut earlier, mut all) = (chains.iter().take(number), chains.iter());
            if earlier.any(|other| chain.shares_place(*other)) {
                let warning =
                    "another base chain of this hook has this priority: here the first in the text runs first, on Linux the last";
                self.add(chain.place, warning);
            }
            if chain.is_at_step() && all.any(|other| other.is_nat && chain.shares_hook(*other)) {
                let warning =
                    "a chain of just the priority at which addresses are translated: here it runs behind that, on Linux it may run before";
                self.add(chain.place, warning);
            }
        }
        Ok(())
    }
}
