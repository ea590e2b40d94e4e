//! The totals of a report.
ghost use Rattle.std.specs.List.{flat_map};
ghost use Rattle.report.specs.Report.{drop_line, number_lines};
ghost use Rattle.report.specs.steps.Paging.{Puts};
ghost use Rattle.report.specs.steps.Totals.{drops_in};

use crate::page::Page;
use crate::piece::Piece;
use devices::Counted;
use history::Cause;
use std::io::Write;

/// The totals of a run.
#[derive(Clone, Copy)]
pub struct Totals<'a> {
    pub records: u64,
    pub passed: u64,
    pub local: u64,
    /// In the order of `Cause::ALL`.
    pub dropped: &'a [u64; 17],
    /// The number of connections begun.
    pub begun: u64,
    /// The number of connections alive.
    pub live: u64,
    /// Whether the capture ends inside a record.
    pub torn: bool,
}

/// Appends the lines of the totals.
pub fn put_totals<W: Write>(page: &mut Page, writer: &mut Counted<W>, totals: &Totals)
    ensures { Puts W.contents page.old writer.old page.new writer.new
        (number_lines totals.now.records totals.now.passed
        totals.now.local (drops_in totals.now.dropped.now) totals.now.begun totals.now.live
        totals.now.torn) }
{
    page.put_all(
        writer,
        &[
            Piece::Text(b"records"),
            Piece::Number(u128::from(totals.records)),
            Piece::Text(b"\npassed"),
            Piece::Number(u128::from(totals.passed)),
            Piece::Text(b"\nlocal"),
            Piece::Number(u128::from(totals.local)),
            Piece::Text(b"\n"),
        ],
    );
    put_drops(page, writer, totals.dropped, &Cause::ALL);
    page.put_all(
        writer,
        &[
            Piece::Text(b"begun"),
            Piece::Number(u128::from(totals.begun)),
            Piece::Text(b"\nlive"),
            Piece::Number(u128::from(totals.live)),
            Piece::Text(b"\ntorn"),
            Piece::Number(u128::from(totals.torn)),
            Piece::Text(b"\n"),
        ],
    )
}

/// Appends a line for each cause.
#[tactic(auto, using(crate::proofs::Putting::left_start))]
fn put_drops<W: Write>(
    page: &mut Page,
    writer: &mut Counted<W>,
    dropped: &[u64; 17],
    causes: &[Cause],
)
    ensures { Puts W.contents page.old writer.old page.new writer.new
        (flat_map (drop_line (drops_in dropped.now)) causes.now) }
{
    for cause in causes {
        put_drop(page, writer, *cause, dropped[cause.report_index()]);
    }
}

/// Appends the line of one cause, which `lost` records have.
fn put_drop<W: Write>(page: &mut Page, writer: &mut Counted<W>, cause: Cause, lost: u64)
    ensures { Puts W.contents page.old writer.old page.new writer.new
        (drop_line (λ _. lost) cause) }
{
    let word = cause.report_word().as_bytes();
    page.put_all(
        writer,
        &[
            Piece::Text(b"drop"),
            Piece::Word(word),
            Piece::Number(u128::from(lost)),
            Piece::Text(b"\n"),
        ],
    )
}
