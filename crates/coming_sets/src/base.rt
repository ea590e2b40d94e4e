//! Base chains.
ghost use Rattle.std.specs.Prelude.{◌≡◌};
ghost use Rattle.rule_meaning.specs.Hooks.{is_prerouting_raw};
ghost use Rattle.coming_sets.specs.Bases.{base_chain, runs};

use nft_tree::{ChainKind, Head, Hook};
use rule_meaning::ChainNo;

/// A base chain: its position, and its head.
#[derive(Clone, Copy)]
pub struct Base<'t> {
    pub number: ChainNo,
    pub head: &'t Head,
}

/// The first priority after the conntrack lookup, which is at -200.
const AFTER_CONNTRACK: i128 = -199;

impl Base<'_> {
    /// Whether packets run through it.
    pub fn runs(self) -> bool
        ensures { result ≡ runs (base_chain self.entry) }
    {
        match (self.head.hook, self.head.kind) {
            (Hook::Prerouting | Hook::Postrouting, _) => true,
            (Hook::Input | Hook::Forward, ChainKind::Filter) => true,
            (Hook::Input | Hook::Forward, ChainKind::Nat) | (Hook::Output, _) => false,
        }
    }

    /// Whether it is a filter chain before the conntrack lookup.
    pub(crate) fn is_before_lookup(self) -> bool
        ensures { result ≡ is_prerouting_raw (base_chain self.entry) }
    {
        match (self.head.hook, self.head.kind) {
            (Hook::Prerouting, ChainKind::Filter) => self.head.priority.number() < AFTER_CONNTRACK,
            _ => false,
        }
    }
}
