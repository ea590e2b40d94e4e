//! Lines of counters.
ghost use Rattle.std.specs.Prelude.{◌≡◌};
ghost use Rattle.nft_tree.specs.TreeViews.{chain_tree, rule_tree, table_tree, tables_of};
ghost use Rattle.nft_tree.specs.TableItems.{chains_of};
ghost use Rattle.report.specs.steps.Paging.{Puts};
ghost use Rattle.report.specs.steps.TallyLines.{position_of, tally_or_zero, tally_line, chains_text, rules_text, statements_text, tables_text};

use crate::names::{ChainInTable, family_word};
use crate::page::Page;
use crate::piece::Piece;
use crate::tallies::{Location, RulesetTallies, Tally};
use devices::Counted;
use nft_tree::{Rule, Ruleset, Table};
use std::io::Write;

/// Appends the lines of all counters, in the ruleset's order.
#[tactic(auto, using(crate::proofs::Putting::left_start))]
pub fn put_counters<W: Write>(
    page: &mut Page,
    writer: &mut Counted<W>,
    rules: &Ruleset,
    tallies: &RulesetTallies,
)
    ensures { Puts W.contents page.old writer.old page.new writer.new
        (tables_text tallies.now 0 (tables_of rules.now)) }
{
    for (number, table) in rules.tables.iter().enumerate() {
        put_table(page, writer, tallies, number, table);
    }
}

/// Appends those of one table; `number` is from 0.
fn put_table<W: Write>(
    page: &mut Page,
    writer: &mut Counted<W>,
    tallies: &RulesetTallies,
    number: usize,
    table: &Table,
)
    ensures { Puts W.contents page.old writer.old page.new writer.new
        (chains_text tallies.now (table_tree table.now) number 0
        (chains_of (table_tree table.now))) }
{
    let mut chain_number = 0;
    for item in &table.items {
        if let Some(chain) = item.chain() {
            let found = ChainInTable { table, chain };
            put_chain(page, writer, tallies, found, number, chain_number);
            chain_number += 1;
        }
    }
}

/// Appends those of one chain; both numbers are from 0.
#[tactic(auto, using(crate::proofs::Putting::left_start))]
fn put_chain<W: Write>(
    page: &mut Page,
    writer: &mut Counted<W>,
    tallies: &RulesetTallies,
    found: ChainInTable,
    table: usize,
    chain: usize,
)
    ensures { Puts W.contents page.old writer.old page.new writer.new
        (rules_text tallies.now (table_tree found.entry.table.now)
        (chain_tree found.entry.chain.now) table chain 1 (chain_tree found.entry.chain.now).rules) }
{
    for (before, rule) in found.chain.rules.iter().enumerate() {
        let first = Location {
            table,
            chain,
            rule: before + 1,
            statement: 1,
        };
        put_rule(page, writer, tallies, found, first, rule);
    }
}

/// Appends those of the rule whose first statement is at `first`.
fn put_rule<W: Write>(
    page: &mut Page,
    writer: &mut Counted<W>,
    tallies: &RulesetTallies,
    found: ChainInTable,
    first: Location,
    rule: &Rule,
)
    requires { first.statement ≡ 1 }
    ensures { Puts W.contents page.old writer.old page.new writer.new
        (statements_text tallies.now
        (table_tree found.entry.table.now) (chain_tree found.entry.chain.now) (position_of first) 1
        (rule_tree rule.now).statements) }
{
    let mut number = 1;
    for (before, statement) in rule.statements.iter().enumerate() {
        if statement.counter().is_some() {
            let position = Location {
                statement: before + 1,
                ..first
            };
            put_counter(page, writer, tallies, found, position, number);
            number += 1;
        }
    }
}

/// Appends the line of the counter at a position, the rule's counter of this number.
fn put_counter<W: Write>(
    page: &mut Page,
    writer: &mut Counted<W>,
    tallies: &RulesetTallies,
    found: ChainInTable,
    position: Location,
    number: u128,
)
    ensures { Puts W.contents page.old writer.old page.new writer.new
        (tally_line (table_tree found.entry.table.now)
        (chain_tree found.entry.chain.now) position.rule number
        (tally_or_zero tallies.now (position_of position))) }
{
    let tally = tallies.at(position).unwrap_or(Tally {
        packets: 0,
        bytes: 0,
    });
    let family = family_word(found.table.family);
    page.put_all(
        writer,
        &[
            Piece::Text(b"counter"),
            Piece::Word(family),
            Piece::Word(&found.table.name),
            Piece::Word(&found.chain.name),
            Piece::Number(position.rule as u128),
            Piece::Number(number),
            Piece::Text(b" packets"),
            Piece::Number(tally.packets),
            Piece::Text(b" bytes"),
            Piece::Number(tally.bytes),
            Piece::Text(b"\n"),
        ],
    )
}
