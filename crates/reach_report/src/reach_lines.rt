//! The lines that tell what can be met.
ghost use Rattle.std.specs.Prelude.{◌≡◌, ◌++◌, [], IfOk, OnOk};
ghost use Rattle.std.specs.List.{flat_map};
ghost use Rattle.std.specs.Option.{option_map, option_map_or};
ghost use Rattle.nft_tree.specs.TreeViews.{chain_tree, table_tree, tables_of};
ghost use Rattle.report.specs.Report.{and_number, and_word, chain_at};
ghost use Rattle.report.specs.Report as words;
ghost use Rattle.reach_report.specs.ReachLines as lines;
ghost use Rattle.reach_report.specs.ReachLines.{policy_line, policy_text, rule_line, rule_text};
ghost use Rattle.reach_report.specs.Told.{reasoned};

use crate::told::{ToldPolicy, ToldRule};
use itoa::Buffer;
use nft_tree::{Chain, Family, Ruleset, Table};
use rule_reach::{Answer, PolicyReach};
use std::alloc::{AllocError, Global};

/// How many of the rules that take a rule's packets are told.
const MOST_TAKERS: usize = 8;

/// The lines of an answer: those of each rule, and those of each policy, in their order.
pub(crate) fn lines_of(
    alloc: Global,
    rules: &Ruleset,
    told: &[ToldRule<'_>],
    policies: &[ToldPolicy],
) -> Result<Vec<u8>, AllocError>
    ensures { IfOk result (λ text. text.items
        ≡ lines.reach_lines (tables_of rules.now) told.now policies.now) }
{
    let mut text = Vec::new(alloc);
    put_rules(&mut text, rules, told)?;
    put_policies(&mut text, rules, policies)?;
    Ok(text)
}

#[tactic(auto, using(std::proofs::lemmas::List::flat_map_more))]
fn put_rules(text: &mut Vec<u8>, rules: &Ruleset, told: &[ToldRule<'_>]) -> Result<(), AllocError>
    ensures { OnOk result (text.new.items
        ≡ text.old.items ++ flat_map (rule_text (tables_of rules.now)) told.now) }
{
    for rule in told {
        put_rule(text, rules, rule)?;
    }
    Ok(())
}

#[tactic(auto, using(std::proofs::lemmas::List::flat_map_more))]
fn put_policies(text: &mut Vec<u8>, rules: &Ruleset, told: &[ToldPolicy]) -> Result<(), AllocError>
    ensures { OnOk result (text.new.items
        ≡ text.old.items ++ flat_map (policy_text (tables_of rules.now)) told.now) }
{
    for policy in told {
        put_policy(text, rules, policy)?;
    }
    Ok(())
}

/// Appends what is told of a rule.
fn put_rule(text: &mut Vec<u8>, rules: &Ruleset, told: &ToldRule<'_>) -> Result<(), AllocError>
    ensures { OnOk result (text.new.items ≡ text.old.items ++ rule_text (tables_of rules.now) told.now) }
{
    put_rule_line(text, rules, told)?;
    text.extend_from_slice(&told.below)
}

/// Appends what is told of a policy.
fn put_policy(text: &mut Vec<u8>, rules: &Ruleset, told: &ToldPolicy) -> Result<(), AllocError>
    ensures { OnOk result (text.new.items
        ≡ text.old.items ++ policy_text (tables_of rules.now) told.now) }
{
    put_policy_line(text, rules, told.reach)?;
    text.extend_from_slice(&told.below)
}

fn put_rule_line(text: &mut Vec<u8>, rules: &Ruleset, told: &ToldRule<'_>) -> Result<(), AllocError>
    ensures { OnOk result (text.new.items
        ≡ text.old.items ++ rule_line (tables_of rules.now) (reasoned told.now)) }
{
    let found = told.reach;
    let Some(at) = find(rules, found.rule.table, found.rule.chain) else {
        return Ok(());
    };
    put_chain(text, b"rule", at)?;
    put_word(text, Buffer::new().format(found.rule.rule).as_bytes())?;
    put_word(text, answer_words(found.answer))?;
    put_reason_of(text, told)?;
    text.push(b'\n')?;
    Ok(())
}

fn put_policy_line(
    text: &mut Vec<u8>,
    rules: &Ruleset,
    found: PolicyReach,
) -> Result<(), AllocError>
    ensures { OnOk result (text.new.items
        ≡ text.old.items ++ policy_line (tables_of rules.now) found) }
{
    let Some(at) = find(rules, found.chain.table, found.chain.chain) else {
        return Ok(());
    };
    put_chain(text, b"policy", at)?;
    put_word(text, policy_words(found.applies))?;
    text.push(b'\n')?;
    Ok(())
}

/// Appends why a rule isn't met, where it isn't.
fn put_reason_of(text: &mut Vec<u8>, told: &ToldRule<'_>) -> Result<(), AllocError>
    ensures { OnOk result (text.new.items ≡ text.old.items
        ++ option_map_or (lines.reason told.now.comes) (reasoned told.now).unmet []) }
{
    match told.unmet {
        Some(unmet) => put_reason(text, &unmet.takers, unmet.matches_some, told.comes),
        None => Ok(()),
    }
}

fn put_reason(
    text: &mut Vec<u8>,
    takers: &[u32],
    matches_some: bool,
    comes: bool,
) -> Result<(), AllocError>
    ensures { OnOk result (text.new.items
        ≡ text.old.items ++ lines.reason_by takers.now matches_some comes) }
{
    if takers.is_empty() {
        return text.extend_from_slice(untaken(matches_some, comes));
    }
    text.extend_from_slice(b", taken by")?;
    put_takers(text, takers)
}

/// Why a rule isn't met whose packets no rule takes.
fn untaken(matches_some: bool, comes: bool) -> &'static [u8]
    ensures { result.now ≡ lines.untaken matches_some comes }
{
    match (matches_some, comes) {
        (true, _) => b", changed before",
        (false, true) => b", matches none",
        (false, false) => b"",
    }
}

/// Appends the numbers of rules that take a rule's packets.
fn put_takers(text: &mut Vec<u8>, takers: &[u32]) -> Result<(), AllocError>
    ensures { OnOk result (text.new.items ≡ text.old.items ++ lines.numbers takers.now) }
{
    put_numbers(text, takers.get(..MOST_TAKERS).unwrap_or(takers))?;
    if takers.len() > MOST_TAKERS {
        text.extend_from_slice(b" ..")?;
    }
    Ok(())
}

#[tactic(auto, using(std::proofs::lemmas::List::flat_map_more))]
fn put_numbers(text: &mut Vec<u8>, numbers: &[u32]) -> Result<(), AllocError>
    ensures { OnOk result (text.new.items ≡ text.old.items ++ flat_map and_number numbers.now) }
{
    for number in numbers {
        put_word(text, Buffer::new().format(*number).as_bytes())?;
    }
    Ok(())
}

/// Appends `KIND FAMILY TABLE CHAIN`.
fn put_chain(text: &mut Vec<u8>, kind: &[u8], at: ChainInTable<'_>) -> Result<(), AllocError>
    ensures { OnOk result (text.new.items ≡ text.old.items ++ lines.of_chain kind.now
        (table_tree at.entry.table.now) (chain_tree at.entry.chain.now)) }
{
    text.extend_from_slice(kind)?;
    put_word(text, family_word(at.table.family))?;
    put_word(text, &at.table.name)?;
    put_word(text, &at.chain.name)
}

/// Appends a blank and a word.
fn put_word(text: &mut Vec<u8>, word: &[u8]) -> Result<(), AllocError>
    ensures { OnOk result (text.new.items ≡ text.old.items ++ and_word word.now) }
{
    text.push(b' ')?;
    text.extend_from_slice(word)
}

/// A chain and its table.
#[derive(Clone, Copy)]
struct ChainInTable<'a> {
    table: &'a Table,
    chain: &'a Chain,
}

/// The chain of these numbers, both from 0.
fn find(rules: &Ruleset, table: u32, chain: u32) -> Option<ChainInTable<'_>>
    ensures { option_map (λ n. (table_tree n.table.now, chain_tree n.chain.now)) result
        ≡ chain_at (tables_of rules.now) table chain }
{
    let table = rules.tables.get(table as usize)?;
    let chain = table.chain(chain as usize)?;
    Some(ChainInTable { table, chain })
}

fn family_word(family: Family) -> &'static [u8]
    ensures { result.now ≡ words.family_word family }
{
    match family {
        Family::Ip => b"ip",
        Family::Inet => b"inet",
    }
}

fn answer_words(answer: Answer) -> &'static [u8]
    ensures { result.now ≡ lines.answer_words answer }
{
    match answer {
        Answer::Met => b"met",
        Answer::NotReached => b"never reached",
        Answer::NotMatched => b"reached, never matched",
    }
}

fn policy_words(applies: bool) -> &'static [u8]
    ensures { result.now ≡ lines.policy_words applies }
{
    if applies {
        b"can apply"
    } else {
        b"never applies"
    }
}
