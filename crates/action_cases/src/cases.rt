//! Actions as cases of packets.
ghost use Rattle.std.specs.Prelude.{◌≡◌, ◌≤◌, ◌==◌, ◌∷◌, [], ◌&&◌, not, bit_and, true, ℕ, Bool, length, map, None, is_some, IfOk, IfErr};
ghost use Rattle.std.specs.Option.{option_and_then};
ghost use Rattle.packet_sets.specs.Sets.{IsSet, Keeps, Means, holds};
ghost use Rattle.packet_sets.specs.declared.fault.SetError.TheVariants.{Memory, TooLarge};
ghost use Rattle.set_intervals.specs.Pairs.{first_value, in_range};
ghost use Rattle.nft_values.specs.Values.{span_of};
ghost use Rattle.rule_meaning.specs.Matches.{compares, tests};
ghost use Rattle.rule_meaning.specs.Selectors.{joined_value, value};
ghost use Rattle.rule_meaning.specs.Statements.{mark_selector, with_value, writes};
ghost use Rattle.rule_code.specs.Actions.{action_effect, is_in_set, lookup_by, operand_reads};
ghost use Rattle.fact_sets.specs.Cases.{seen};
ghost use Rattle.action_cases.specs.Effects.{Decides};
ghost use Rattle.action_cases.specs.steps.Picking.{Always, Picks, ReadsMarks, with_outcome};

use crate::concatenations::{Bound, bounded};
use fact_sets::{Case, MarkSource, Reader, Test, fixed};
use nft_tree::{MarkField, Operator, Selector};
use packet_sets::{Diagrams, PacketSet, SetError};
use rule_code::{Action, Lookups, Operand};
use rule_meaning::{NatAction, RuleVerdict, StatementPosition};
use set_intervals::{Intervals, Range};
use std::alloc::{AllocError, Global};

/// What a statement does with a packet.
#[derive(Clone, Copy)]
pub enum Outcome {
    /// The next statement follows.
    Passes,
    /// It is counted.
    Counts(StatementPosition),
    /// It is logged.
    Logs(StatementPosition),
    /// `notrack`.
    Untracks,
    /// A mark is set; that of a connection only where there is one.
    Marks(MarkField, MarkSource),
    /// The rule gives a verdict.
    Gives(RuleVerdict),
}

/// One case.
fn one<V: Copy>(alloc: Global, set: PacketSet, outcome: V) -> Result<Vec<Case<V>>, AllocError>
    ensures { IfOk result (λ cases. cases.items ≡ record { set = set; outcome = outcome } ∷ []) }
{
    let mut cases = Vec::new(alloc);
    cases.push(Case { set, outcome })?;
    Ok(cases)
}

/// Marks that are set to these numbers.
fn numbers(alloc: Global, cases: &[Case<u32>]) -> Result<Vec<Case<MarkSource>>, AllocError>
    ensures { IfOk result (λ marks. marks.items ≡ map (with_outcome MarkSource.Number) cases.now) }
{
    cases
        .iter()
        .map(|case| Case {
            set: case.set,
            outcome: MarkSource::Number(case.outcome),
        })
        .collect(alloc)
}

/// All packets.
fn always(
    alloc: Global,
    diagrams: &mut Diagrams,
    outcome: Outcome,
) -> Result<Vec<Case<Outcome>>, SetError>
    ensures same { diagrams.new ≡ diagrams.old }
    ensures value { IfOk result (λ cases. Always diagrams.new cases.items outcome) }
    ensures memory { IfErr result (λ e. e ≡ Memory) }
{
    let all = fixed(diagrams, true);
    Ok(one(alloc, all, outcome)?)
}

/// Cases of a rule's verdicts.
fn verdicts(alloc: Global, cases: &[Case<RuleVerdict>]) -> Result<Vec<Case<Outcome>>, AllocError>
    ensures { IfOk result (λ given. given.items ≡ map (with_outcome Outcome.Gives) cases.now) }
{
    cases
        .iter()
        .map(|case| Case {
            set: case.set,
            outcome: Outcome::Gives(case.outcome),
        })
        .collect(alloc)
}

/// Cases of source addresses.
fn sources(alloc: Global, cases: &[Case<u32>]) -> Result<Vec<Case<Outcome>>, AllocError>
    ensures { IfOk result (λ given. given.items ≡ map (with_outcome (λ a.
        Outcome.Gives (RuleVerdict.Translate (NatAction.Source a None)))) cases.now) }
{
    cases
        .iter()
        .map(|case| Case {
            set: case.set,
            outcome: Outcome::Gives(RuleVerdict::Translate(NatAction::Source(case.outcome, None))),
        })
        .collect(alloc)
}

/// Cases of destination addresses.
fn destinations(alloc: Global, cases: &[Case<u32>]) -> Result<Vec<Case<Outcome>>, AllocError>
    ensures { IfOk result (λ given. given.items ≡ map (with_outcome (λ a.
        Outcome.Gives (RuleVerdict.Translate (NatAction.Destination a None)))) cases.now) }
{
    cases
        .iter()
        .map(|case| Case {
            set: case.set,
            outcome: Outcome::Gives(RuleVerdict::Translate(NatAction::Destination(
                case.outcome,
                None,
            ))),
        })
        .collect(alloc)
}

/// Cases of marks that are set.
fn written(
    alloc: Global,
    field: MarkField,
    cases: &[Case<MarkSource>],
) -> Result<Vec<Case<Outcome>>, AllocError>
    ensures { IfOk result (λ given. given.items ≡ map (with_outcome (Outcome.Marks field)) cases.now) }
{
    cases
        .iter()
        .map(|case| Case {
            set: case.set,
            outcome: Outcome::Marks(field, case.outcome),
        })
        .collect(alloc)
}

/// The packets for which each selector has a value.
fn present(
    reader: Reader<'_>,
    diagrams: &mut Diagrams,
    selectors: &[Selector],
) -> Result<PacketSet, SetError>
    ensures keeps { Keeps diagrams.old diagrams.new }
    ensures value { IfOk result (λ set. Means diagrams.new set
        (λ packet. tests (joined_value selectors.now (seen reader.entry packet)) (λ n. true))) }
    ensures too_large { IfErr result (λ e. e ≡ TooLarge
        → diagrams.new.limit ≤ length diagrams.new.nodes) }
{
    bounded(reader, diagrams, selectors, Bound::Least, 0)
}

/// The packets for which each selector has a value, without these.
fn others(
    reader: Reader<'_>,
    diagrams: &mut Diagrams,
    selectors: &[Selector],
    set: PacketSet,
) -> Result<PacketSet, SetError>
    requires { IsSet diagrams.old set }
    ensures keeps { Keeps diagrams.old diagrams.new }
    ensures value { IfOk result (λ others. Means diagrams.new others
        (λ packet. tests (joined_value selectors.now (seen reader.entry packet)) (λ n. true)
        && not (holds diagrams.old set packet))) }
    ensures too_large { IfErr result (λ e. e ≡ TooLarge
        → diagrams.new.limit ≤ length diagrams.new.nodes) }
{
    let all = present(reader, diagrams, selectors)?;
    diagrams.without(all, set)
}

/// The packets for which the selector is in the range.
fn ranged(
    reader: Reader<'_>,
    diagrams: &mut Diagrams,
    selector: Selector,
    range: Range,
) -> Result<PacketSet, SetError>
    ensures keeps { Keeps diagrams.old diagrams.new }
    ensures value { IfOk result (λ set. Means diagrams.new set
        (λ packet. tests (value selector (seen reader.entry packet)) (in_range range))) }
    ensures too_large { IfErr result (λ e. e ≡ TooLarge
        → diagrams.new.limit ≤ length diagrams.new.nodes) }
{
    reader.passing(diagrams, selector, Test::Within(range.low(), range.high()))
}

/// The packets for which the concatenation of the selectors is in the range.
fn within(
    reader: Reader<'_>,
    diagrams: &mut Diagrams,
    selectors: &[Selector],
    range: Range,
) -> Result<PacketSet, SetError>
    ensures keeps { Keeps diagrams.old diagrams.new }
    ensures value { IfOk result (λ set. Means diagrams.new set
        (λ packet. tests (joined_value selectors.now (seen reader.entry packet))
        (in_range range))) }
    ensures too_large { IfErr result (λ e. e ≡ TooLarge
        → diagrams.new.limit ≤ length diagrams.new.nodes) }
{
    if let [selector] = selectors {
        return ranged(reader, diagrams, *selector, range);
    }
    let least = bounded(reader, diagrams, selectors, Bound::Least, range.low())?;
    let most = bounded(reader, diagrams, selectors, Bound::Most, range.high())?;
    diagrams.and(least, most)
}

/// The packets whose selector compares so with the range.
fn compared(
    reader: Reader<'_>,
    diagrams: &mut Diagrams,
    selector: Selector,
    operator: Operator,
    range: Range,
) -> Result<PacketSet, SetError>
    ensures keeps { Keeps diagrams.old diagrams.new }
    ensures value { IfOk result (λ set. Means diagrams.new set
        (λ packet. tests (value selector (seen reader.entry packet))
        (compares operator (span_of range)))) }
    ensures too_large { IfErr result (λ e. e ≡ TooLarge
        → diagrams.new.limit ≤ length diagrams.new.nodes) }
{
    match operator {
        Operator::Equal => ranged(reader, diagrams, selector, range),
        Operator::Unequal => {
            let equal = ranged(reader, diagrams, selector, range)?;
            others(reader, diagrams, &[selector], equal)
        }
        Operator::Below => {
            let above = reader.passing(diagrams, selector, Test::AtLeast(range.low()))?;
            others(reader, diagrams, &[selector], above)
        }
        Operator::Above => {
            let below = reader.passing(diagrams, selector, Test::AtMost(range.high()))?;
            others(reader, diagrams, &[selector], below)
        }
        Operator::AtMost => reader.passing(diagrams, selector, Test::AtMost(range.high())),
        Operator::AtLeast => reader.passing(diagrams, selector, Test::AtLeast(range.low())),
    }
}

/// The packets for which the concatenation of the selectors is in the table.
fn in_table(
    reader: Reader<'_>,
    diagrams: &mut Diagrams,
    selectors: &[Selector],
    table: &[(Range, ())],
) -> Result<PacketSet, SetError>
    ensures keeps { Keeps diagrams.old diagrams.new }
    ensures value { IfOk result (λ set. Means diagrams.new set
        (λ packet. tests (joined_value selectors.now (seen reader.entry packet))
        (λ n. is_some (first_value table.now n)))) }
    ensures too_large { IfErr result (λ e. e ≡ TooLarge
        → diagrams.new.limit ≤ length diagrams.new.nodes) }
{
    let mut set = fixed(diagrams, false);
    for (range, _) in table {
        let one = within(reader, diagrams, selectors, *range)?;
        set = diagrams.or(set, one)?;
    }
    Ok(set)
}

/// The packets for which the concatenation of the selectors is in the set with this index.
fn in_set(
    reader: Reader<'_>,
    diagrams: &mut Diagrams,
    selectors: &[Selector],
    lookups: &Lookups,
    place: usize,
) -> Result<PacketSet, SetError>
    ensures keeps { Keeps diagrams.old diagrams.new }
    ensures value { IfOk result (λ set. Means diagrams.new set
        (λ packet. tests (joined_value selectors.now (seen reader.entry packet))
        (is_in_set lookups.now place))) }
    ensures too_large { IfErr result (λ e. e ≡ TooLarge
        → diagrams.new.limit ≤ length diagrams.new.nodes) }
{
    match lookups.sets.get(place) {
        Some(table) => in_table(reader, diagrams, selectors, table.pieces()),
        None => in_table(reader, diagrams, selectors, &[]),
    }
}

/// The packets for which each selector has a value, and their concatenation isn't in the set.
fn not_in_set(
    reader: Reader<'_>,
    diagrams: &mut Diagrams,
    selectors: &[Selector],
    lookups: &Lookups,
    place: usize,
) -> Result<PacketSet, SetError>
    ensures keeps { Keeps diagrams.old diagrams.new }
    ensures value { IfOk result (λ others. Means diagrams.new others
        (λ packet. tests (joined_value selectors.now (seen reader.entry packet))
        (λ n. not (is_in_set lookups.now place n)))) }
    ensures too_large { IfErr result (λ e. e ≡ TooLarge
        → diagrams.new.limit ≤ length diagrams.new.nodes) }
{
    let among = in_set(reader, diagrams, selectors, lookups, place)?;
    others(reader, diagrams, selectors, among)
}

/// The packets for which the selector has a value, and its bits of the mask aren't these.
fn unequal_bits(
    reader: Reader<'_>,
    diagrams: &mut Diagrams,
    selector: Selector,
    mask: u128,
    wanted: u128,
) -> Result<PacketSet, SetError>
    ensures keeps { Keeps diagrams.old diagrams.new }
    ensures value { IfOk result (λ others. Means diagrams.new others
        (λ packet. tests (value selector (seen reader.entry packet))
        (λ n. not (bit_and n mask == wanted)))) }
    ensures too_large { IfErr result (λ e. e ≡ TooLarge
        → diagrams.new.limit ≤ length diagrams.new.nodes) }
{
    let equal = reader.passing(diagrams, selector, Test::Bits(mask, wanted))?;
    others(reader, diagrams, &[selector], equal)
}

/// The packets for which the selector has a value in the table, by what the table has there.
fn found<V: Copy + Eq>(
    reader: Reader<'_>,
    alloc: Global,
    diagrams: &mut Diagrams,
    selector: Selector,
    table: &[(Range, V)],
) -> Result<Vec<Case<V>>, SetError>
    ensures keeps { Keeps diagrams.old diagrams.new }
    ensures value { IfOk result (λ cases. Picks diagrams.new cases.items (λ packet.
        option_and_then (first_value table.now) (value selector (seen reader.entry packet)))) }
    ensures too_large { IfErr result (λ e. e ≡ TooLarge
        → diagrams.new.limit ≤ length diagrams.new.nodes) }
{
    let mut cases = Vec::new(alloc);
    for (range, value) in table {
        let set = ranged(reader, diagrams, selector, *range)?;
        cases.push(Case {
            set,
            outcome: *value,
        })?;
    }
    Ok(cases)
}

/// The same by the table with this index.
fn looked_up<V: Copy + Eq>(
    reader: Reader<'_>,
    alloc: Global,
    diagrams: &mut Diagrams,
    selector: Selector,
    tables: &[Intervals<V>],
    table: usize,
) -> Result<Vec<Case<V>>, SetError>
    ensures keeps { Keeps diagrams.old diagrams.new }
    ensures value { IfOk result (λ cases. Picks diagrams.new cases.items (λ packet.
        lookup_by tables.now table (value selector (seen reader.entry packet)))) }
    ensures too_large { IfErr result (λ e. e ≡ TooLarge
        → diagrams.new.limit ≤ length diagrams.new.nodes) }
{
    match tables.get(table) {
        Some(table) => found(reader, alloc, diagrams, selector, table.pieces()),
        None => Ok(Vec::new(alloc)),
    }
}

/// A mark, by the packets that have it.
fn mark(
    reader: Reader<'_>,
    alloc: Global,
    diagrams: &mut Diagrams,
    field: MarkField,
) -> Result<Vec<Case<MarkSource>>, SetError>
    ensures keeps { Keeps diagrams.old diagrams.new }
    ensures value { IfOk result (λ cases. ReadsMarks diagrams.new cases.items (λ packet.
        value (mark_selector field) (seen reader.entry packet))) }
    ensures too_large { IfErr result (λ e. e ≡ TooLarge
        → diagrams.new.limit ≤ length diagrams.new.nodes) }
{
    match field {
        MarkField::Meta => {
            let all = fixed(diagrams, true);
            Ok(one(alloc, all, reader.written.packet)?)
        }
        MarkField::Ct => {
            let known = reader.passing(diagrams, Selector::CtMark, Test::AtLeast(0))?;
            Ok(one(alloc, known, reader.written.connection)?)
        }
    }
}

/// What a mark is set to, by the packets for which the operand has a value.
fn operand_marks(
    reader: Reader<'_>,
    alloc: Global,
    diagrams: &mut Diagrams,
    lookups: &Lookups,
    operand: &Operand,
) -> Result<Vec<Case<MarkSource>>, SetError>
    ensures keeps { Keeps diagrams.old diagrams.new }
    ensures value { IfOk result (λ cases. ReadsMarks diagrams.new cases.items (λ packet.
        operand_reads lookups.now operand.now (seen reader.entry packet))) }
    ensures too_large { IfErr result (λ e. e ≡ TooLarge
        → diagrams.new.limit ≤ length diagrams.new.nodes) }
{
    match operand {
        Operand::Number(number) => {
            let all = fixed(diagrams, true);
            Ok(one(alloc, all, MarkSource::Number(*number))?)
        }
        Operand::Mark(field) => mark(reader, alloc, diagrams, *field),
        Operand::MapLookup(selector, map) => {
            let found = looked_up(reader, alloc, diagrams, *selector, &lookups.numbers, *map)?;
            Ok(numbers(alloc, &found)?)
        }
    }
}

/// What `meta mark set` or `ct mark set` does.
fn marks(
    reader: Reader<'_>,
    alloc: Global,
    diagrams: &mut Diagrams,
    lookups: &Lookups,
    field: MarkField,
    operand: &Operand,
) -> Result<Vec<Case<Outcome>>, SetError>
    ensures keeps { Keeps diagrams.old diagrams.new }
    ensures value { IfOk result (λ cases. Decides diagrams.new reader.entry cases.items (λ f.
        with_value (writes field f) (operand_reads lookups.now operand.now f))) }
    ensures too_large { IfErr result (λ e. e ≡ TooLarge
        → diagrams.new.limit ≤ length diagrams.new.nodes) }
{
    let found = operand_marks(reader, alloc, diagrams, lookups, operand)?;
    Ok(written(alloc, field, &found)?)
}

/// The cases of an action. Each packet of a case is one whose facts have its outcome.
///
/// # Errors
///
/// `TooLarge` where more nodes are needed than the limit allows, `Memory` where an allocation
/// failed.
pub fn action_cases(
    reader: Reader<'_>,
    alloc: Global,
    diagrams: &mut Diagrams,
    lookups: &Lookups,
    action: &Action,
) -> Result<Vec<Case<Outcome>>, SetError>
    ensures keeps { Keeps diagrams.old diagrams.new }
    ensures value { IfOk result (λ cases. Decides diagrams.new reader.entry cases.items
        (action_effect lookups.now action.now)) }
    ensures too_large { IfErr result (λ e. e ≡ TooLarge
        → diagrams.new.limit ≤ length diagrams.new.nodes) }
{
    match action {
        Action::Compare(selector, operator, range) => {
            let set = compared(reader, diagrams, *selector, *operator, *range)?;
            Ok(one(alloc, set, Outcome::Passes)?)
        }
        Action::BitsEqual(selector, mask, wanted) => {
            let set = reader.passing(diagrams, *selector, Test::Bits(*mask, *wanted))?;
            Ok(one(alloc, set, Outcome::Passes)?)
        }
        Action::BitsUnequal(selector, mask, wanted) => {
            let set = unequal_bits(reader, diagrams, *selector, *mask, *wanted)?;
            Ok(one(alloc, set, Outcome::Passes)?)
        }
        Action::InSet(selectors, set) => {
            let set = in_set(reader, diagrams, selectors, lookups, *set)?;
            Ok(one(alloc, set, Outcome::Passes)?)
        }
        Action::NotInSet(selectors, set) => {
            let set = not_in_set(reader, diagrams, selectors, lookups, *set)?;
            Ok(one(alloc, set, Outcome::Passes)?)
        }
        Action::Count(position) => always(alloc, diagrams, Outcome::Counts(*position)),
        Action::Log(position) => always(alloc, diagrams, Outcome::Logs(*position)),
        Action::NoTrack => always(alloc, diagrams, Outcome::Untracks),
        Action::GiveVerdict(verdict) => always(alloc, diagrams, Outcome::Gives(*verdict)),
        Action::SetMark(field, operand) => {
            marks(reader, alloc, diagrams, lookups, *field, operand)
        }
        Action::LookUpVerdict(selector, map) => {
            let found = looked_up(reader, alloc, diagrams, *selector, &lookups.verdicts, *map)?;
            Ok(verdicts(alloc, &found)?)
        }
        Action::TranslateSource(selector, map) => {
            let found = looked_up(reader, alloc, diagrams, *selector, &lookups.numbers, *map)?;
            Ok(sources(alloc, &found)?)
        }
        Action::TranslateDestination(selector, map) => {
            let found = looked_up(reader, alloc, diagrams, *selector, &lookups.numbers, *map)?;
            Ok(destinations(alloc, &found)?)
        }
    }
}
