//! The packets of a set with which two rulesets do something different, as a few small sets.
ghost use Rattle.std.specs.Prelude.{◌≡◌, ◌≢◌, ◌<◌, ◌+◌, ◌==◌, ◌&&◌, not, Bool, All, IfOk, OnOk};
ghost use Rattle.std.specs.Bool.{OnTrue, OnFalse};
ghost use Rattle.packet_sets.specs.Sets.{IsSet, Keeps, Means, holds};
ghost use Rattle.rule_meaning.specs.Same.{GoesOn};
ghost use Rattle.ruleset_diff.specs.steps.Pieces.{AddsPieces, ArePieces, has_connection, is_before_lookup, marks_differ, unlike, written_differ};
ghost use Rattle.ruleset_diff.specs.steps.Pieces.{connection_mark_bit, mark_bit};
ghost use Rattle.fact_sets.specs.declared.written.MarkSource.{MarkSource};

use fact_sets::{FactField, MarkSource, Written};
use packet_sets::{Diagrams, PacketSet, SetError};
use rule_meaning::HookVerdict;
use stage_sets::StageOutcome;
use std::alloc::Global;

/// Whether the verdicts are the same, those of NAT statements with their addresses and ports.
fn same_verdict(old: HookVerdict, new: HookVerdict) -> bool
    ensures same { OnTrue result (old ≡ new) }
    ensures differ { OnFalse result (old ≢ new) }
{
    match (old, new) {
        (HookVerdict::Accepted, HookVerdict::Accepted)
        | (HookVerdict::Dropped, HookVerdict::Dropped) => true,
        (HookVerdict::Translated(old), HookVerdict::Translated(new)) => old == new,
        _ => false,
    }
}

/// Whether rules have written the same.
fn same_written(old: Written, new: Written) -> bool
    ensures same { OnTrue result (old ≡ new) }
{
    old == new
}

/// Whether a packet goes on behind base chains with this verdict.
fn goes_on(verdict: HookVerdict) -> bool
    ensures so { OnTrue result (GoesOn verdict) }
    ensures not_so { OnFalse result (verdict ≡ HookVerdict.Dropped) }
{
    match verdict {
        HookVerdict::Accepted | HookVerdict::Translated(_) => true,
        HookVerdict::Dropped => false,
    }
}

/// Adds the packets of a set that aren't in the other one.
fn add_without(
    diagrams: &mut Diagrams,
    set: PacketSet,
    other: PacketSet,
    pieces: &mut Vec<PacketSet>,
) -> Result<(), SetError>
    requires set { IsSet diagrams.old set }
    requires other { IsSet diagrams.old other }
    ensures keeps { Keeps diagrams.old diagrams.new }
    ensures adds { OnOk result (AddsPieces diagrams.old diagrams.new pieces.old.items
        pieces.new.items (λ packet. holds diagrams.old set packet
        && not (holds diagrams.old other packet))) }
{
    let piece = diagrams.without(set, other)?;
    pieces.push(piece)?;
    Ok(())
}

/// Adds the packets of a set of whose mark and connection's mark one has the bit at this place, from
/// the highest on, and the other hasn't.
fn add_unlike_bit(
    diagrams: &mut Diagrams,
    set: PacketSet,
    place: u32,
    pieces: &mut Vec<PacketSet>,
) -> Result<(), SetError>
    requires set { IsSet diagrams.old set }
    requires place { place < 32 }
    ensures keeps { Keeps diagrams.old diagrams.new }
    ensures adds { OnOk result (AddsPieces diagrams.old diagrams.new pieces.old.items
        pieces.new.items (λ packet. holds diagrams.old set packet
        && unlike (packet (mark_bit place)) (packet (connection_mark_bit place)))) }
{
    let marked = diagrams.bit(FactField::Mark.place().first + place)?;
    let connection_marked = diagrams.bit(FactField::CtMark.place().first + place)?;
    let with_mark = diagrams.and(set, marked)?;
    add_without(diagrams, with_mark, connection_marked, pieces)?;
    let with_connection_mark = diagrams.and(set, connection_marked)?;
    add_without(diagrams, with_connection_mark, marked, pieces)?;
    Ok(())
}

/// Adds the packets of a set whose mark isn't that of their connection, bit by bit: the fields stand
/// one behind the other, so that all of them as one set take too many nodes.
fn add_unlike_marks(
    diagrams: &mut Diagrams,
    set: PacketSet,
    pieces: &mut Vec<PacketSet>,
) -> Result<(), SetError>
    requires set { IsSet diagrams.old set }
    ensures keeps { Keeps diagrams.old diagrams.new }
    ensures adds { OnOk result (AddsPieces diagrams.old diagrams.new pieces.old.items
        pieces.new.items (λ packet. holds diagrams.old set packet
        && marks_differ MarkSource.Packet MarkSource.Connection packet)) }
{
    for place in 0..32 {
        add_unlike_bit(diagrams, set, place, pieces)?;
    }
    Ok(())
}

/// Adds the packets of a set whose mark, as it came, isn't this number.
fn add_other_marks(
    diagrams: &mut Diagrams,
    set: PacketSet,
    number: u32,
    pieces: &mut Vec<PacketSet>,
) -> Result<(), SetError>
    requires set { IsSet diagrams.old set }
    ensures keeps { Keeps diagrams.old diagrams.new }
    ensures adds { OnOk result (AddsPieces diagrams.old diagrams.new pieces.old.items
        pieces.new.items (λ packet. holds diagrams.old set packet
        && marks_differ MarkSource.Packet (MarkSource.Number number) packet)) }
{
    let equal = diagrams.equal(FactField::Mark.place(), number as u64)?;
    add_without(diagrams, set, equal, pieces)?;
    Ok(())
}

/// The same of the mark of their connection.
fn add_other_connection_marks(
    diagrams: &mut Diagrams,
    set: PacketSet,
    number: u32,
    pieces: &mut Vec<PacketSet>,
) -> Result<(), SetError>
    requires set { IsSet diagrams.old set }
    ensures keeps { Keeps diagrams.old diagrams.new }
    ensures adds { OnOk result (AddsPieces diagrams.old diagrams.new pieces.old.items
        pieces.new.items (λ packet. holds diagrams.old set packet
        && marks_differ MarkSource.Connection (MarkSource.Number number) packet)) }
{
    let equal = diagrams.equal(FactField::CtMark.place(), number as u64)?;
    add_without(diagrams, set, equal, pieces)?;
    Ok(())
}

/// Adds the packets of a set whose mark, as it came, isn't this one.
fn add_unlike_mark(
    diagrams: &mut Diagrams,
    set: PacketSet,
    new: MarkSource,
    pieces: &mut Vec<PacketSet>,
) -> Result<(), SetError>
    requires set { IsSet diagrams.old set }
    ensures keeps { Keeps diagrams.old diagrams.new }
    ensures adds { OnOk result (AddsPieces diagrams.old diagrams.new pieces.old.items
        pieces.new.items (λ packet. holds diagrams.old set packet
        && marks_differ MarkSource.Packet new packet)) }
{
    match new {
        MarkSource::Packet => Ok(()),
        MarkSource::Connection => add_unlike_marks(diagrams, set, pieces),
        MarkSource::Number(number) => add_other_marks(diagrams, set, number, pieces),
    }
}

/// The same of the mark of their connection.
fn add_unlike_connection_mark(
    diagrams: &mut Diagrams,
    set: PacketSet,
    new: MarkSource,
    pieces: &mut Vec<PacketSet>,
) -> Result<(), SetError>
    requires set { IsSet diagrams.old set }
    ensures keeps { Keeps diagrams.old diagrams.new }
    ensures adds { OnOk result (AddsPieces diagrams.old diagrams.new pieces.old.items
        pieces.new.items (λ packet. holds diagrams.old set packet
        && marks_differ MarkSource.Connection new packet)) }
{
    match new {
        MarkSource::Packet => add_unlike_marks(diagrams, set, pieces),
        MarkSource::Connection => Ok(()),
        MarkSource::Number(number) => add_other_connection_marks(diagrams, set, number, pieces),
    }
}

/// The same of a mark that is this number.
fn add_unlike_number(
    diagrams: &mut Diagrams,
    set: PacketSet,
    number: u32,
    new: MarkSource,
    pieces: &mut Vec<PacketSet>,
) -> Result<(), SetError>
    requires set { IsSet diagrams.old set }
    ensures keeps { Keeps diagrams.old diagrams.new }
    ensures adds { OnOk result (AddsPieces diagrams.old diagrams.new pieces.old.items
        pieces.new.items (λ packet. holds diagrams.old set packet
        && marks_differ (MarkSource.Number number) new packet)) }
{
    match new {
        MarkSource::Packet => add_other_marks(diagrams, set, number, pieces),
        MarkSource::Connection => add_other_connection_marks(diagrams, set, number, pieces),
        MarkSource::Number(other) => {
            if number != other {
                pieces.push(set)?;
            }
            Ok(())
        }
    }
}

/// Adds the packets of a set for which these marks differ.
fn add_marks(
    diagrams: &mut Diagrams,
    set: PacketSet,
    old: MarkSource,
    new: MarkSource,
    pieces: &mut Vec<PacketSet>,
) -> Result<(), SetError>
    requires set { IsSet diagrams.old set }
    ensures keeps { Keeps diagrams.old diagrams.new }
    ensures adds { OnOk result (AddsPieces diagrams.old diagrams.new pieces.old.items
        pieces.new.items (λ packet. holds diagrams.old set packet
        && marks_differ old new packet)) }
{
    match old {
        MarkSource::Packet => add_unlike_mark(diagrams, set, new, pieces),
        MarkSource::Connection => add_unlike_connection_mark(diagrams, set, new, pieces),
        MarkSource::Number(number) => add_unlike_number(diagrams, set, number, new, pieces),
    }
}

/// The packets of a set that have a connection.
fn with_connection(diagrams: &mut Diagrams, set: PacketSet) -> Result<PacketSet, SetError>
    requires { IsSet diagrams.old set }
    ensures keeps { Keeps diagrams.old diagrams.new }
    ensures value { IfOk result (λ known. Means diagrams.new known
        (λ packet. holds diagrams.old set packet && has_connection packet)) }
{
    let known = diagrams.at_least(FactField::Tracking.place(), 4)?;
    diagrams.and(set, known)
}

/// The packets of a set for which the lookup is yet to come.
fn before_lookup(diagrams: &mut Diagrams, set: PacketSet) -> Result<PacketSet, SetError>
    requires { IsSet diagrams.old set }
    ensures keeps { Keeps diagrams.old diagrams.new }
    ensures value { IfOk result (λ early. Means diagrams.new early
        (λ packet. holds diagrams.old set packet && is_before_lookup packet)) }
{
    let early = diagrams.equal(FactField::Tracking.place(), 0)?;
    diagrams.and(set, early)
}

/// Adds the packets of a set for which the lookup is yet to come and only one of the rulesets has ruled
/// it out.
fn add_untracked(
    diagrams: &mut Diagrams,
    set: PacketSet,
    old: bool,
    new: bool,
    pieces: &mut Vec<PacketSet>,
) -> Result<(), SetError>
    requires set { IsSet diagrams.old set }
    ensures keeps { Keeps diagrams.old diagrams.new }
    ensures adds { OnOk result (AddsPieces diagrams.old diagrams.new pieces.old.items
        pieces.new.items (λ packet. holds diagrams.old set packet
        && (is_before_lookup packet && unlike old new))) }
{
    if old == new {
        return Ok(());
    }
    let early = before_lookup(diagrams, set)?;
    pieces.push(early)?;
    Ok(())
}

/// Adds the packets of a set for which rules can tell apart what was written.
fn add_written(
    diagrams: &mut Diagrams,
    set: PacketSet,
    old: Written,
    new: Written,
    pieces: &mut Vec<PacketSet>,
) -> Result<(), SetError>
    requires set { IsSet diagrams.old set }
    ensures keeps { Keeps diagrams.old diagrams.new }
    ensures adds { OnOk result (AddsPieces diagrams.old diagrams.new pieces.old.items
        pieces.new.items (λ packet. holds diagrams.old set packet
        && written_differ old new packet)) }
{
    add_marks(diagrams, set, old.packet, new.packet, pieces)?;
    let known = with_connection(diagrams, set)?;
    add_marks(diagrams, known, old.connection, new.connection, pieces)?;
    add_untracked(diagrams, set, old.untracked, new.untracked, pieces)?;
    Ok(())
}

/// The packets of a set that end differently by these two outcomes with the same verdict.
fn written_pieces(
    alloc: Global,
    diagrams: &mut Diagrams,
    set: PacketSet,
    old: StageOutcome,
    new: StageOutcome,
) -> Result<Vec<PacketSet>, SetError>
    requires set { IsSet diagrams.old set }
    requires verdict { old.verdict ≡ new.verdict }
    ensures keeps { Keeps diagrams.old diagrams.new }
    ensures value { IfOk result (λ pieces.
        ArePieces diagrams.old diagrams.new set old new pieces.items) }
{
    let mut pieces = Vec::new(alloc);
    // Most pairs of cases are so: no set is made for them.
    if same_written(old.written, new.written) {
        return Ok(pieces);
    }
    if goes_on(old.verdict) {
        add_written(diagrams, set, old.written, new.written, &mut pieces)?;
        return Ok(pieces);
    }
    Ok(pieces)
}

/// The packets of a set that end differently by these two outcomes.
pub(crate) fn pieces(
    alloc: Global,
    diagrams: &mut Diagrams,
    set: PacketSet,
    old: StageOutcome,
    new: StageOutcome,
) -> Result<Vec<PacketSet>, SetError>
    requires set { IsSet diagrams.old set }
    ensures keeps { Keeps diagrams.old diagrams.new }
    ensures value { IfOk result (λ pieces.
        ArePieces diagrams.old diagrams.new set old new pieces.items) }
{
    if same_verdict(old.verdict, new.verdict) {
        return written_pieces(alloc, diagrams, set, old, new);
    }
    let mut pieces = Vec::new(alloc);
    pieces.push(set)?;
    Ok(pieces)
}
