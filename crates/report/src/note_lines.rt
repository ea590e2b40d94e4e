//! Lines of notes.
ghost use Rattle.std.specs.Prelude.{◌≡◌, ℕ, true};
ghost use Rattle.std.specs.List.{flat_map};
ghost use Rattle.nft_tree.specs.TreeViews.{tables_of};
ghost use Rattle.report.specs.Report.{event_line, outcome_line};
ghost use Rattle.report.specs.Representing.{note_line};
ghost use Rattle.report.specs.steps.NoteLines.{line_text};
ghost use Rattle.report.specs.steps.Paging.{Puts};

use crate::names::{
    ChainInTable, family_word, find, outcome_word, policy_word, prefix, verdict_pieces,
};
use crate::notes::Note;
use crate::page::Page;
use crate::piece::Piece;
use devices::Counted;
use history::Outcome;
use nft_tree::Ruleset;
use rule_meaning::Event;
use std::io::Write;

/// Appends the lines of notes, in their order.
#[tactic(auto, using(crate::proofs::Putting::left_start))]
pub fn put_notes<W: Write>(
    page: &mut Page,
    writer: &mut Counted<W>,
    rules: &Ruleset,
    notes: &[Note],
)
    ensures { Puts W.contents page.old writer.old page.new writer.new
        (flat_map (note_line (tables_of rules.now)) notes.now) }
{
    for note in notes {
        put_note(page, writer, rules, *note);
    }
}

fn put_note<W: Write>(page: &mut Page, writer: &mut Counted<W>, rules: &Ruleset, note: Note)
    ensures { Puts W.contents page.old writer.old page.new writer.new
        (note_line (tables_of rules.now) note) }
{
    match note {
        Note::Event(number, event) => put_event(page, writer, number, chain_line(rules, event)),
        Note::Ended(number, outcome) => put_outcome(page, writer, number, outcome),
    }
}

/// A line about a chain, but for the record's number.
#[derive(Clone, Copy)]
pub(crate) struct ChainLine<'a> {
    kind: &'a [u8],
    chain: ChainInTable<'a>,
    /// What of the chain it is about: a rule, or the policy.
    about: Piece<'a>,
    /// What is told of that.
    told: (Piece<'a>, Piece<'a>),
}

/// The line of an event; none where it has no line, or no such chain.
fn chain_line(rules: &Ruleset, event: Event) -> Option<ChainLine<'_>>
    ensures { (number : ℕ) → line_text number result
        ≡ event_line (tables_of rules.now) true number event }
{
    match event {
        Event::Logged(position) => {
            let chain = find(rules, position.rule.table, position.rule.chain)?;
            Some(ChainLine {
                kind: b"log",
                chain,
                about: Piece::Number(u128::from(position.rule.rule)),
                told: (prefix(chain.chain, position), Piece::Text(b"")),
            })
        }
        Event::TookVerdict(rule, verdict) => {
            let chain = find(rules, rule.table, rule.chain)?;
            Some(ChainLine {
                kind: b"trace",
                chain,
                about: Piece::Number(u128::from(rule.rule)),
                told: verdict_pieces(chain.table, verdict),
            })
        }
        Event::TookPolicy(chain, policy) => {
            let chain = find(rules, chain.table, chain.chain)?;
            Some(ChainLine {
                kind: b"trace",
                chain,
                about: Piece::Text(b" policy"),
                told: (Piece::Word(policy_word(policy)), Piece::Text(b"")),
            })
        }
        _ => None,
    }
}

/// Appends the line of an event, if it has one.
fn put_event<W: Write>(
    page: &mut Page,
    writer: &mut Counted<W>,
    number: u64,
    line: Option<ChainLine>,
)
    ensures { Puts W.contents page.old writer.old page.new writer.new
        (line_text number line.entry) }
{
    let Some(line) = line else {
        return;
    };
    let family = family_word(line.chain.table.family);
    page.put_all(
        writer,
        &[
            Piece::Text(line.kind),
            Piece::Number(u128::from(number)),
            Piece::Word(family),
            Piece::Word(&line.chain.table.name),
            Piece::Word(&line.chain.chain.name),
            line.about,
            line.told.0,
            line.told.1,
            Piece::Text(b"\n"),
        ],
    )
}

fn put_outcome<W: Write>(page: &mut Page, writer: &mut Counted<W>, number: u64, outcome: Outcome)
    ensures { Puts W.contents page.old writer.old page.new writer.new
        (outcome_line true number outcome) }
{
    let word = outcome_word(outcome);
    page.put_all(
        writer,
        &[
            Piece::Text(b"trace"),
            Piece::Number(u128::from(number)),
            Piece::Text(b" outcome"),
            Piece::Word(word),
            Piece::Text(b"\n"),
        ],
    )
}
