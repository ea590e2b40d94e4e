//! The base chains of a stage, and all filter chains.
ghost use Rattle.std.specs.Prelude.{◌≡◌, ◌++◌, ℤ, filter, int_lt, map, IfOk, OnOk};
ghost use Rattle.nft_tree.specs.TreeViews.{chain_tree};
ghost use Rattle.nft_tree.specs.TableItems.{chains_of};
ghost use Rattle.rule_meaning.specs.Hooks.{base_chain_of, base_chains_from, base_chains_of, chains_in_stage};
ghost use Rattle.rule_meaning.specs.Hooks.{filter_chains_on, is_below, is_filter, is_prerouting_raw, nat_chains_on, same_hook};
ghost use Rattle.chain_ways.specs.BaseWays.{AreChainsOf};
ghost use Rattle.stage_sets.specs.steps.Bases.{base_chain, is_asked};

use crate::numbers::to_u32;
use nft_tree::{Chain, ChainKind, Head, Hook};
use rule_meaning::{ChainNo, HookStage};
use rule_names::TableNames;
use std::alloc::{AllocError, Global};

/// A base chain: its position, and its head.
#[derive(Clone, Copy)]
pub(crate) struct Base<'t> {
    pub(crate) number: ChainNo,
    pub(crate) head: &'t Head,
}

/// Which base chains are asked for.
#[derive(Clone, Copy)]
pub(crate) enum Asked {
    /// Those of a stage.
    InStage(HookStage),
    /// All filter chains.
    Filters,
}

/// The first priority after the conntrack lookup, which is at -200.
const AFTER_CONNTRACK: i128 = -199;

/// The priority of destination NAT (nft(8), `dstnat`). Filter chains of this priority run after it.
const DESTINATION: i128 = -100;

/// The priority of source NAT (nft(8), `srcnat`). Filter chains of this priority run after it.
const SOURCE: i128 = 100;

fn same_hook(left: Hook, right: Hook) -> bool
    ensures { result ≡ same_hook left right }
{
    match (left, right) {
        (Hook::Prerouting, Hook::Prerouting) => true,
        (Hook::Input, Hook::Input) => true,
        (Hook::Forward, Hook::Forward) => true,
        (Hook::Output, Hook::Output) => true,
        (Hook::Postrouting, Hook::Postrouting) => true,
        _ => false,
    }
}

impl Base<'_> {
    /// Whether it is a filter chain of the hook.
    fn filters_on(self, hook: Hook) -> bool
        ensures { result ≡ filter_chains_on hook (base_chain self.entry) }
    {
        match self.head.kind {
            ChainKind::Filter => same_hook(self.head.hook, hook),
            ChainKind::Nat => false,
        }
    }

    /// Whether it is a chain of the hook of type nat.
    fn translates_on(self, hook: Hook) -> bool
        ensures { result ≡ nat_chains_on hook (base_chain self.entry) }
    {
        match self.head.kind {
            ChainKind::Filter => false,
            ChainKind::Nat => same_hook(self.head.hook, hook),
        }
    }

    /// Whether its priority is below the limit.
    fn is_below(self, limit: i128) -> bool
        ensures { result ≡ is_below limit (base_chain self.entry) }
    {
        self.head.priority.number() < limit
    }

    /// Whether it is a filter chain before the conntrack lookup.
    fn is_before_lookup(self) -> bool
        ensures { result ≡ is_prerouting_raw (base_chain self.entry) }
    {
        self.filters_on(Hook::Prerouting) && self.is_below(AFTER_CONNTRACK)
    }

    /// Whether it runs in the stage.
    fn runs_in(self, stage: HookStage) -> bool
        ensures { result ≡ chains_in_stage stage (base_chain self.entry) }
    {
        match stage {
            HookStage::PreroutingRaw => self.is_before_lookup(),
            HookStage::PreroutingBeforeNat => {
                self.filters_on(Hook::Prerouting)
                    && !self.is_before_lookup()
                    && self.is_below(DESTINATION)
            }
            HookStage::PreroutingNat => self.translates_on(Hook::Prerouting),
            HookStage::PreroutingAfterNat => {
                self.filters_on(Hook::Prerouting)
                    && !self.is_before_lookup()
                    && !self.is_below(DESTINATION)
            }
            HookStage::Input => self.filters_on(Hook::Input),
            HookStage::Forward => self.filters_on(Hook::Forward),
            HookStage::PostroutingBeforeNat => {
                self.filters_on(Hook::Postrouting) && self.is_below(SOURCE)
            }
            HookStage::PostroutingNat => self.translates_on(Hook::Postrouting),
            HookStage::PostroutingAfterNat => {
                self.filters_on(Hook::Postrouting) && !self.is_below(SOURCE)
            }
        }
    }

    /// Whether it is a filter chain.
    fn filters(self) -> bool
        ensures { result ≡ is_filter (base_chain self.entry).head.kind }
    {
        match self.head.kind {
            ChainKind::Filter => true,
            ChainKind::Nat => false,
        }
    }

    /// Whether it is asked for.
    fn is_asked(self, asked: Asked) -> bool
        ensures { result ≡ is_asked asked (base_chain self.entry) }
    {
        match asked {
            Asked::InStage(stage) => self.runs_in(stage),
            Asked::Filters => self.filters(),
        }
    }
}

/// Adds the chain, if it is a base chain that is asked for.
fn add_chain<'t>(
    asked: Asked,
    number: ChainNo,
    chain: &'t Chain,
    bases: &mut Vec<Base<'t>>,
) -> Result<(), AllocError>
    ensures { OnOk result (map base_chain bases.new.items ≡ map base_chain bases.old.items
        ++ filter (is_asked asked)
        (base_chain_of number.table number.chain (chain_tree chain.now).head)) }
{
    let Some(head) = &chain.head else {
        return Ok(());
    };
    let base = Base { number, head };
    if base.is_asked(asked) {
        bases.push(base)?;
    }
    Ok(())
}

/// Adds those of a table.
fn add_table<'t>(
    asked: Asked,
    table: u32,
    names: &TableNames<'t>,
    bases: &mut Vec<Base<'t>>,
) -> Result<(), AllocError>
    ensures { OnOk result (map base_chain bases.new.items ≡ map base_chain bases.old.items
        ++ filter (is_asked asked) (base_chains_from table 0 (chains_of names.now))) }
{
    for (index, chain) in names.chains().iter().enumerate() {
        let number = ChainNo {
            table,
            chain: to_u32(index)?,
        };
        add_chain(asked, number, chain, bases)?;
    }
    Ok(())
}

/// All of them, in text order.
pub(crate) fn text_bases<'t>(
    alloc: Global,
    tables: &[TableNames<'t>],
    asked: Asked,
) -> Result<Vec<Base<'t>>, AllocError>
    ensures { IfOk result (λ bases. map base_chain bases.items
        ≡ filter (is_asked asked) (base_chains_of tables.now)) }
{
    let mut bases = Vec::new(alloc);
    for (table, names) in tables.iter().enumerate() {
        add_table(asked, to_u32(table)?, names, &mut bases)?;
    }
    Ok(bases)
}

/// The base chains of the stage, in the order in which they run: by priority, and in text order
/// where priorities are equal.
pub(crate) fn stage_bases<'t>(
    alloc: Global,
    tables: &[TableNames<'t>],
    stage: HookStage,
) -> Result<Vec<Base<'t>>, AllocError>
    ensures { IfOk result (λ bases. AreChainsOf tables.now stage (map base_chain bases.items)) }
{
    let mut bases = text_bases(alloc, tables, Asked::InStage(stage))?;
    bases.sort_by_key(|base| base.head.priority.number())?;
    Ok(bases)
}
