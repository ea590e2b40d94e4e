//! Concatenations of selectors.
ghost use Rattle.std.specs.Prelude.{◌≡◌, ◌≤◌, ◌/◌, ◌%◌, ◌^◌, ◌==◌, length, min, true, IfOk, IfErr};
ghost use Rattle.packet_sets.specs.Sets.{IsSet, Keeps, Means, holds};
ghost use Rattle.packet_sets.specs.declared.fault.SetError.TheVariants.{TooLarge};
ghost use Rattle.rule_meaning.specs.Matches.{tests};
ghost use Rattle.rule_meaning.specs.Selectors.{joined_value, value};
ghost use Rattle.fact_sets.specs.Cases.{seen};
ghost use Rattle.action_cases.specs.steps.Bounds.{bound_passes, is_beyond, is_past, joined_width};

use fact_sets::{Reader, Test, fixed};
use nft_tree::Selector;
use packet_sets::{Diagrams, PacketSet, SetError};

/// A bound of numbers, itself included.
#[derive(Clone, Copy)]
pub(crate) enum Bound {
    Least,
    Most,
}

/// How many bits the selectors' values take, or 128 where they take more.
fn joined_width(selectors: &[Selector]) -> u32
    ensures { result ≡ min 128 (joined_width selectors.now) }
{
    match selectors {
        [] => 0,
        [first, rest @ ..] => 128.min(first.width() + joined_width(rest)),
    }
}

/// The number without its last bits.
fn front(number: u128, bits: u32) -> u128
    requires { bits ≤ 128 }
    ensures { result ≡ number / 2 ^ bits }
{
    if bits < 128 { number >> bits } else { 0 }
}

/// The last bits of the number.
fn back(number: u128, bits: u32) -> u128
    requires { bits ≤ 128 }
    ensures { result ≡ number % 2 ^ bits }
{
    if bits < 128 {
        number % 2u128.pow(bits)
    } else {
        number
    }
}

/// No selectors: their concatenation is 0.
fn empty(diagrams: &Diagrams, bound: Bound, number: u128) -> PacketSet
    ensures { Means diagrams.now result (λ packet. bound_passes bound number 0) }
{
    match bound {
        Bound::Least => fixed(diagrams, number == 0),
        Bound::Most => fixed(diagrams, true),
    }
}

/// The packets beyond a number, of those with at least it and those with at most it.
fn beyond(
    diagrams: &mut Diagrams,
    bound: Bound,
    least: PacketSet,
    most: PacketSet,
) -> Result<PacketSet, SetError>
    requires least { IsSet diagrams.old least }
    requires most { IsSet diagrams.old most }
    ensures keeps { Keeps diagrams.old diagrams.new }
    ensures value { IfOk result (λ set. Means diagrams.new set (λ packet.
        is_past bound (holds diagrams.old least packet) (holds diagrams.old most packet))) }
    ensures too_large { IfErr result (λ e. e ≡ TooLarge
        → diagrams.new.limit ≤ length diagrams.new.nodes) }
{
    match bound {
        Bound::Least => diagrams.without(least, most),
        Bound::Most => diagrams.without(most, least),
    }
}

/// The packets with a number, and those with one beyond it on the side of a bound.
#[derive(Clone, Copy)]
struct Parted {
    equal: PacketSet,
    beyond: PacketSet,
}

/// The packets for which the selector has this number, and one beyond it.
fn split(
    reader: Reader<'_>,
    diagrams: &mut Diagrams,
    selector: Selector,
    bound: Bound,
    number: u128,
) -> Result<Parted, SetError>
    ensures keeps { Keeps diagrams.old diagrams.new }
    ensures equal { IfOk result (λ sets. Means diagrams.new sets.equal
        (λ packet. tests (value selector (seen reader.entry packet)) (λ n. n == number))) }
    ensures beyond { IfOk result (λ sets. Means diagrams.new sets.beyond
        (λ packet. tests (value selector (seen reader.entry packet))
        (is_beyond bound number))) }
    ensures too_large { IfErr result (λ e. e ≡ TooLarge
        → diagrams.new.limit ≤ length diagrams.new.nodes) }
{
    let least = reader.passing(diagrams, selector, Test::AtLeast(number))?;
    let most = reader.passing(diagrams, selector, Test::AtMost(number))?;
    let equal = diagrams.and(least, most)?;
    let beyond = beyond(diagrams, bound, least, most)?;
    Ok(Parted { equal, beyond })
}

/// The packets for which each selector has a value, and their concatenation is within the
/// bound.
pub(crate) fn bounded(
    reader: Reader<'_>,
    diagrams: &mut Diagrams,
    selectors: &[Selector],
    bound: Bound,
    number: u128,
) -> Result<PacketSet, SetError>
    ensures keeps { Keeps diagrams.old diagrams.new }
    ensures value { IfOk result (λ set. Means diagrams.new set
        (λ packet. tests (joined_value selectors.now (seen reader.entry packet))
        (bound_passes bound number))) }
    ensures too_large { IfErr result (λ e. e ≡ TooLarge
        → diagrams.new.limit ≤ length diagrams.new.nodes) }
{
    reader.values_fit();
    let [first, rest @ ..] = selectors else {
        return Ok(empty(diagrams, bound, number));
    };
    let bits = joined_width(rest);
    let sets = split(reader, diagrams, *first, bound, front(number, bits))?;
    let within = bounded(reader, diagrams, rest, bound, back(number, bits))?;
    let any = bounded(reader, diagrams, rest, Bound::Least, 0)?;
    let at = diagrams.and(sets.equal, within)?;
    let past = diagrams.and(sets.beyond, any)?;
    diagrams.or(past, at)
}
