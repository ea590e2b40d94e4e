//! All rules of a ruleset.
ghost use Rattle.std.specs.Prelude.{◌≡◌, ◌++◌, map, IfOk, OnOk};
ghost use Rattle.nft_tree.specs.TreeViews.{chain_tree};
ghost use Rattle.nft_tree.specs.TableItems.{chains_of};
ghost use Rattle.rule_reach.specs.Reach.{rules_of, rules_of_chain, rules_of_chains};
ghost use Rattle.rule_reach.specs.steps.Rules.{unreached};

use crate::answers::{Answer, RuleReach};
use crate::numbers::to_u32;
use nft_tree::{Chain, RuleNo};
use rule_names::TableNames;
use std::alloc::{AllocError, Global};

/// Adds the rules of a chain, which no packet has come to.
fn add_rules_of_chain(
    table: u32,
    chain_number: u32,
    chain: &Chain,
    rules: &mut Vec<RuleReach>,
) -> Result<(), AllocError>
    ensures { OnOk result (rules.new.items ≡ rules.old.items
        ++ map unreached (rules_of_chain table chain_number 1 (chain_tree chain.now).rules)) }
{
    for place in 0..chain.rules.len() {
        rules.push(RuleReach {
            rule: RuleNo {
                table,
                chain: chain_number,
                rule: to_u32(place + 1)?,
            },
            answer: Answer::NotReached,
        })?;
    }
    Ok(())
}

/// Adds those of a table.
fn add_rules_of_table(
    table: u32,
    names: &TableNames,
    rules: &mut Vec<RuleReach>,
) -> Result<(), AllocError>
    ensures { OnOk result (rules.new.items ≡ rules.old.items
        ++ map unreached (rules_of_chains table 0 (chains_of names.now))) }
{
    for (place, chain) in names.chains().iter().enumerate() {
        add_rules_of_chain(table, to_u32(place)?, chain, rules)?;
    }
    Ok(())
}

/// All rules, in text order, which no packet has come to.
pub(crate) fn all_rules(alloc: Global, names: &[TableNames]) -> Result<Vec<RuleReach>, AllocError>
    ensures { IfOk result (λ rules. rules.items ≡ map unreached (rules_of names.now)) }
{
    let mut rules = Vec::new(alloc);
    for (table, names) in names.iter().enumerate() {
        add_rules_of_table(to_u32(table)?, names, &mut rules)?;
    }
    Ok(rules)
}
