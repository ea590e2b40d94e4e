//! The packets that come to each rule, and those that meet its last statement.
ghost use Rattle.std.specs.Prelude.{◌≡◌, ◌≤◌, ◌==◌, ◌&&◌, ℕ, cond, length, IfErr, OnOk};
ghost use Rattle.packet_sets.specs.Sets.{IsSet, Keeps};
ghost use Rattle.packet_sets.specs.declared.fault.SetError.TheVariants.{TooLarge};

use nft_tree::RuleNo;
use packet_sets::{Diagrams, PacketSet, SetError};
use std::alloc::{AllocError, Global};
use std::collections::HashMap;

/// The packets that come to a rule, and those that meet its last statement: that is reached, and
/// doesn't fail.
#[derive(Clone, Copy)]
pub struct RuleSets {
    pub reached: PacketSet,
    pub met: PacketSet,
}

/// The index of a rule's chain, and its number there, from 1.
#[derive(Clone, Copy, PartialEq, Eq, Hash)]
pub(crate) struct RuleKey {
    pub(crate) chain: u32,
    pub(crate) rule: u32,
}

/// The sets of each rule of a table. Those of a rule that no packet has come to are empty.
#[derive(Drop)]
pub struct Visits {
    sets: HashMap<RuleKey, RuleSets>,
}

impl Visits {
    ghost use Rattle.chain_sets.specs.RuleSets.{no_packets, sets_of};
    ghost use Rattle.chain_sets.specs.steps.Looks.{AddsRule, AreRuleSets};

    /// No packet comes to any rule.
    pub(crate) fn new(alloc: Global) -> Visits
        ensures { (c n : ℕ) → sets_of result c n ≡ no_packets }
    {
        Visits {
            sets: HashMap::new(alloc),
        }
    }

    /// The sets of a rule, by the index of its chain and its number there, from 1.
    pub fn sets(&self, chain: u32, rule: u32) -> RuleSets
        ensures { result ≡ sets_of self.now chain rule }
    {
        match self.sets.get(&RuleKey { chain, rule }) {
            Some(sets) => *sets,
            None => RuleSets {
                reached: PacketSet::NONE,
                met: PacketSet::NONE,
            },
        }
    }

    /// Sets those of a rule.
    fn put(&mut self, key: RuleKey, sets: RuleSets) -> Result<(), AllocError>
        ensures { OnOk result ((c n : ℕ) → sets_of self.new c n
            ≡ cond (key.chain == c && key.rule == n) sets (sets_of self.old c n)) }
    {
        self.sets.insert(key, sets)?;
        Ok(())
    }

    /// Adds packets that come to the rule, and those that meet its last statement.
    pub(crate) fn add(
        &mut self,
        diagrams: &mut Diagrams,
        rule: RuleNo,
        more: RuleSets,
    ) -> Result<(), SetError>
        requires sets { AreRuleSets diagrams.old (sets_of self.old) }
        requires reached { IsSet diagrams.old more.reached }
        requires met { IsSet diagrams.old more.met }
        ensures keeps { Keeps diagrams.old diagrams.new }
        ensures adds { OnOk result
            (AddsRule diagrams.old diagrams.new rule.chain rule.rule more
            (sets_of self.old) (sets_of self.new)) }
        ensures too_large { IfErr result (λ e. e ≡ TooLarge
            → diagrams.new.limit ≤ length diagrams.new.nodes) }
    {
        let sets = self.sets(rule.chain, rule.rule);
        let reached = diagrams.or(sets.reached, more.reached)?;
        let met = diagrams.or(sets.met, more.met)?;
        let key = RuleKey {
            chain: rule.chain,
            rule: rule.rule,
        };
        self.put(key, RuleSets { reached, met })?;
        Ok(())
    }
}
