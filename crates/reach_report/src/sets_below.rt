//! The packets of sets, as matches of nft(8), below the lines that tell what can be met.
ghost use Rattle.std.specs.Prelude.{◌≡◌, All, IfOk, OnOk};
ghost use Rattle.packet_sets.specs.Sets.{DiagramsView, IsSet};
ghost use Rattle.reach_report.specs.steps.SetTexts.{HasSets, IsOfSets};
ghost use Rattle.reach_report.specs.Told.{AreBelow};
ghost use Rattle.set_texts.specs.Indented.{AreIndented};

use chain_sets::ChainEnd;
use fact_sets::Case;
use nft_tree::RuleNo;
use packet_sets::PacketSet;
use rule_check::Checked;
use rule_meaning::ChainNo;
use rule_reach::{BaseSets, ReachSets};
use set_texts::SetWords;
use std::alloc::{AllocError, Global};

/// The most lines that tell of one base chain which packets come to a rule, meet it, or come to the
/// end.
const MOST_LINES: usize = 100;

/// Sets of packets, and what it takes to tell of them.
#[derive(Drop)]
pub(crate) struct SetTexts<'a> {
    /// Whether they are told.
    pub(crate) is_wanted: bool,
    checked: &'a Checked,
    sets: &'a ReachSets,
    words: SetWords<'a>,
}

impl<'a> SetTexts<'a> {
    /// The sets of a ruleset, which are told or not.
    pub(crate) fn new(
        alloc: Global,
        checked: &'a Checked,
        sets: &'a ReachSets,
        is_wanted: bool,
    ) -> Result<SetTexts<'a>, AllocError>
        requires { HasSets sets.now }
        ensures sets { IfOk result (λ texts. HasSets texts.sets.now) }
        ensures wanted { IfOk result (λ texts. texts.is_wanted ≡ is_wanted) }
    {
        Ok(SetTexts {
            is_wanted,
            checked,
            sets,
            words: SetWords::new(alloc, checked.plant())?,
        })
    }
}

impl SetTexts<'_> {
    /// The lines below that of a rule, if sets are told: by base chain, which packets come to it and
    /// which meet it.
    pub(crate) fn below_rule(&self, alloc: Global, rule: RuleNo) -> Result<Vec<u8>, AllocError>
        requires { HasSets self.now.sets.now }
        ensures { IfOk result (λ text. AreBelow self.now.is_wanted text.items) }
    {
        if self.is_wanted {
            self.of_rule(alloc, rule)
        } else {
            Ok(Vec::new(alloc))
        }
    }

    #[tactic(auto, using(crate::proofs::Indenting::none_indented))]
    fn of_rule(&self, alloc: Global, rule: RuleNo) -> Result<Vec<u8>, AllocError>
        requires { HasSets self.now.sets.now }
        ensures { IfOk result (λ text. AreIndented text.items) }
    {
        let mut text = Vec::new(alloc);
        for base in self.sets.bases() {
            if base.chain.table == rule.table {
                self.put_rule(alloc, &mut text, base, rule)?;
            }
        }
        Ok(text)
    }

    /// Appends which packets of a base chain come to a rule, and which meet it.
    fn put_rule(
        &self,
        alloc: Global,
        text: &mut Vec<u8>,
        base: &BaseSets,
        rule: RuleNo,
    ) -> Result<(), AllocError>
        requires sets { IsOfSets self.now.sets.now.diagrams base.now }
        requires before { AreIndented text.old.items }
        ensures { OnOk result (AreIndented text.new.items) }
    {
        let found = base.rules.sets(rule.chain, rule.rule);
        let reached = self.lead(alloc, b"reached in ", base.chain)?;
        self.put_sets(alloc, text, &reached, &[found.reached])?;
        let met = self.lead(alloc, b"met in ", base.chain)?;
        self.put_sets(alloc, text, &met, &[found.met])
    }

    /// The lines below that of a base chain's policy, if sets are told: which packets come to the
    /// chain's end.
    pub(crate) fn below_policy(&self, alloc: Global, chain: ChainNo) -> Result<Vec<u8>, AllocError>
        requires { HasSets self.now.sets.now }
        ensures { IfOk result (λ text. AreBelow self.now.is_wanted text.items) }
    {
        if self.is_wanted {
            self.of_policy(alloc, chain)
        } else {
            Ok(Vec::new(alloc))
        }
    }

    #[tactic(auto, using(crate::proofs::Indenting::none_indented))]
    fn of_policy(&self, alloc: Global, chain: ChainNo) -> Result<Vec<u8>, AllocError>
        requires { HasSets self.now.sets.now }
        ensures { IfOk result (λ text. AreIndented text.items) }
    {
        let mut text = Vec::new(alloc);
        for base in self.sets.bases() {
            if base.chain.table == chain.table && base.chain.chain == chain.chain {
                let lead = self.lead(alloc, b"ends in ", chain)?;
                let ends = end_sets(alloc, &base.ends)?;
                self.put_sets(alloc, &mut text, &lead, &ends)?;
            }
        }
        Ok(text)
    }

    /// Appends the packets of these sets, with this before each line.
    fn put_sets(
        &self,
        alloc: Global,
        text: &mut Vec<u8>,
        lead: &[u8],
        sets: &[PacketSet],
    ) -> Result<(), AllocError>
        requires sets { All (IsSet self.now.sets.now.diagrams) sets.now }
        requires before { AreIndented text.old.items }
        ensures { OnOk result (AreIndented text.new.items) }
    {
        let diagrams = self.sets.diagrams();
        self.words
            .put_sets(alloc, text, diagrams, lead, sets, MOST_LINES)
    }

    /// What a line begins with: the word, and the base chain's name.
    fn lead(&self, alloc: Global, word: &[u8], chain: ChainNo) -> Result<Vec<u8>, AllocError> {
        let mut lead = word.to_vec(alloc)?;
        if let Some(table) = self.checked.tree().tables.get(chain.table as usize) {
            if let Some(found) = table.chain(chain.chain as usize) {
                lead.extend_from_slice(&found.name)?;
            }
        }
        lead.extend_from_slice(b": ")?;
        Ok(lead)
    }
}

/// The sets of packets that come to a base chain's end.
fn end_sets(alloc: Global, ends: &[Case<ChainEnd>]) -> Result<Vec<PacketSet>, AllocError>
    ensures { IfOk result (λ sets. (d : DiagramsView) → All (λ e. IsSet d e.set) ends.now
        → All (IsSet d) sets.items) }
{
    let mut sets = Vec::new(alloc);
    for end in ends {
        if end.outcome.verdict.is_none() {
            sets.push(end.set)?;
        }
    }
    Ok(sets)
}
