//! The starts of a ruleset: its base chains, each at its hook, in the order in which they run.
ghost use Rattle.std.specs.Prelude.{◌≡◌, ◌+◌, ◌++◌, ◌∷◌, ◌<◌, ℕ, [], false, length, map, slice_get, slice_index, Some, OnOk};
ghost use Rattle.std.specs.List.{list_any};
ghost use Rattle.nft_tree.specs.Tree.{ChainTree, HeadTree};
ghost use Rattle.nft_tree.specs.TreeViews.{chain_tree};
ghost use Rattle.nft_tree.specs.TableItems.{chains_of};
ghost use Rattle.rule_paths.specs.Paths.{MAX_COST};
ghost use Rattle.rule_values.specs.Faults.{chain_out_of_range, has_wrong_value, item_out_of_range};
ghost use Rattle.rule_meaning.specs.declared.event.ChainNo.{ChainNo};
ghost use Rattle.rule_meaning.specs.Hooks.{base_chain_of, base_chains_from, base_chains_of};
ghost use Rattle.filter_vm.specs.Machine.{starts_of};
ghost use Rattle.compiler.specs.steps.Bases.{costed, hook_starts, priced, AreOrdered, Prices, PricesTable};
ghost use Rattle.nft_tree.specs.declared.chain.Hook.{Hook as TheHook};

use crate::compiled_chain::CompiledChain;
use code_layout::to_u32;
use filter_vm::Code;
use nft_tree::{Chain, Hook};
use rule_check::Checked;
use rule_meaning::ChainNo;
use rule_names::TableNames;
use std::alloc::AllocError;

/// Adds the chain, if it is a base chain.
fn add_base<'t>(
    number: ChainNo,
    chain: &'t Chain,
    cost: u64,
    bases: &mut Vec<CompiledChain<'t>>,
) -> Result<(), AllocError>
    requires bounds { chain_out_of_range (chain_tree chain.now) ≡ false }
    requires small { (head : HeadTree) → (chain_tree chain.now).head ≡ Some head → cost < MAX_COST }
    ensures { OnOk result ((price : ChainNo → ℕ) → (cost < MAX_COST → price number ≡ 1 + cost)
        → map costed bases.new.items ≡ map costed bases.old.items ++ map (priced price)
        (base_chain_of number.table number.chain (chain_tree chain.now).head)) }
{
    if let Some(head) = &chain.head {
        bases.push(CompiledChain {
            number,
            head,
            cost: cost as u32 + 1,
        })?;
    }
    Ok(())
}

/// Adds the base chains of a table. `costs` has the cost of each of its chains.
fn add_bases<'t>(
    table: u32,
    names: &TableNames<'t>,
    costs: &[u64],
    bases: &mut Vec<CompiledChain<'t>>,
) -> Result<(), AllocError>
    requires bounds { list_any item_out_of_range names.now.items ≡ false }
    requires long { length costs.now ≡ length (chains_of names.now) }
    requires small { (j : ℕ) (c : ChainTree) (head : HeadTree)
        → slice_get (chains_of names.now) j ≡ Some c
        → c.head ≡ Some head → slice_index costs.now j < MAX_COST }
    ensures { OnOk result ((price : ChainNo → ℕ) → PricesTable price table costs.now
        → map costed bases.new.items ≡ map costed bases.old.items
        ++ map (priced price) (base_chains_from table 0 (chains_of names.now))) }
{
    for (place, chain) in names.chains().iter().enumerate() {
        let number = ChainNo {
            table,
            chain: to_u32(place)?,
        };
        add_base(number, chain, costs[place], bases)?;
    }
    Ok(())
}

/// Adds all base chains of a checked ruleset, in text order.
pub(crate) fn add_base_chains<'t>(
    checked: &Checked,
    names: &[TableNames<'t>],
    bases: &mut Vec<CompiledChain<'t>>,
) -> Result<(), AllocError>
    requires names { names.now ≡ checked.now.rules }
    requires bounds { list_any (has_wrong_value checked.now.network) names.now ≡ false }
    requires none { bases.old.items ≡ [] }
    ensures { OnOk result ((price : ChainNo → ℕ) → Prices checked.now.rules price
        → map costed bases.new.items ≡ map (priced price) (base_chains_of checked.now.rules)) }
{
    for (table, names) in names.iter().enumerate() {
        add_bases(to_u32(table)?, names, checked.costs(table), bases)?;
    }
    Ok(())
}

/// Adds the start of a base chain to those of its hook.
fn add_start(base: &CompiledChain, code: &mut Code) -> Result<(), AllocError>
    ensures tables { code.new.tables ≡ code.old.tables }
    ensures starts { OnOk result ((hook : TheHook) → starts_of code.new hook
        ≡ starts_of code.old hook ++ hook_starts hook (base.now ∷ [])) }
{
    let start = base.start();
    match base.head.hook {
        Hook::Prerouting => Ok(code.prerouting.push(start)?),
        Hook::Input => Ok(code.input.push(start)?),
        Hook::Forward => Ok(code.forward.push(start)?),
        Hook::Output => Ok(code.output.push(start)?),
        Hook::Postrouting => Ok(code.postrouting.push(start)?),
    }
}

/// Adds each base chain to the starts of its hook: by priority, and in text order where priorities
/// are equal.
pub(crate) fn add_starts(mut bases: Vec<CompiledChain>, code: &mut Code) -> Result<(), AllocError>
    requires none { (hook : TheHook) → starts_of code.old hook ≡ [] }
    ensures tables { code.new.tables ≡ code.old.tables }
    ensures starts { OnOk result (AreOrdered bases.entry.items code.new) }
{
    bases.sort_by_key(|base| base.head.priority.number())?;
    for base in &bases {
        add_start(base, code)?;
    }
    Ok(())
}
