//! Tests of numbers, and the packets whose field passes one.
ghost use Rattle.std.specs.Prelude.{◌≡◌, ◌<◌, ◌≤◌, ◌==◌, ◌&&◌, ◌^◌, ℕ, Bool, true, false, length, nat_le, IfOk, IfErr};
ghost use Rattle.packet_sets.specs.Sets.{Keeps, Means};
ghost use Rattle.packet_sets.specs.declared.fault.SetError.TheVariants.{TooLarge};
ghost use Rattle.fact_sets.specs.Facts.{number_in};
ghost use Rattle.fact_sets.specs.Tests.{test_passes};
ghost use Rattle.fact_sets.specs.steps.Readings.{IsField, meant};

use crate::numbers::Numbers;
use packet_sets::{Diagrams, Field, PacketSet, SetError};

/// A test of a number.
#[derive(Clone, Copy)]
pub enum Test {
    /// At least this.
    AtLeast(u128),
    /// At most this.
    AtMost(u128),
    /// From the first to the second, both included.
    Within(u128, u128),
    /// The bits of the mask are exactly these.
    Bits(u128, u128),
}

impl Test {
    fn passes(self, number: u128) -> bool
        ensures { result ≡ test_passes self number }
    {
        match self {
            Test::AtLeast(low) => low <= number,
            Test::AtMost(high) => number <= high,
            Test::Within(low, high) => low <= number && number <= high,
            Test::Bits(mask, wanted) => number & mask == wanted,
        }
    }
}

/// Whether the number has at most so many bits.
fn fits(number: u128, width: u32) -> bool
    requires { width ≤ 32 }
    ensures { (result ≡ true → number < 2 ^ width) × (result ≡ false → 2 ^ width ≤ number) }
{
    number < 2u128.pow(width)
}

/// All packets or none.
pub fn fixed(diagrams: &Diagrams, all: bool) -> PacketSet
    ensures { Means diagrams.now result (λ packet. all) }
{
    diagrams.ends();
    if all { PacketSet::ALL } else { PacketSet::NONE }
}

/// The packets whose field has at least this number.
fn at_least(diagrams: &mut Diagrams, field: Field, number: u128) -> Result<PacketSet, SetError>
    requires { IsField field }
    ensures keeps { Keeps diagrams.old diagrams.new }
    ensures value { IfOk result (λ set. Means diagrams.new set
        (λ packet. nat_le number (number_in field packet))) }
    ensures too_large { IfErr result (λ e. e ≡ TooLarge
        → diagrams.new.limit ≤ length diagrams.new.nodes) }
{
    if fits(number, field.width) {
        diagrams.at_least(field, number as u64)
    } else {
        Ok(fixed(diagrams, false))
    }
}

/// The packets whose field has at most this number.
fn at_most(diagrams: &mut Diagrams, field: Field, number: u128) -> Result<PacketSet, SetError>
    requires { IsField field }
    ensures keeps { Keeps diagrams.old diagrams.new }
    ensures value { IfOk result (λ set. Means diagrams.new set
        (λ packet. nat_le (number_in field packet) number)) }
    ensures too_large { IfErr result (λ e. e ≡ TooLarge
        → diagrams.new.limit ≤ length diagrams.new.nodes) }
{
    if fits(number, field.width) {
        diagrams.at_most(field, number as u64)
    } else {
        Ok(fixed(diagrams, true))
    }
}

/// The packets whose field has this number.
fn equal(diagrams: &mut Diagrams, field: Field, number: u128) -> Result<PacketSet, SetError>
    requires { IsField field }
    ensures keeps { Keeps diagrams.old diagrams.new }
    ensures value { IfOk result (λ set. Means diagrams.new set
        (λ packet. number_in field packet == number)) }
    ensures too_large { IfErr result (λ e. e ≡ TooLarge
        → diagrams.new.limit ≤ length diagrams.new.nodes) }
{
    if fits(number, field.width) {
        diagrams.equal(field, number as u64)
    } else {
        Ok(fixed(diagrams, false))
    }
}

/// The packets whose field has a number from `low` to `high`, both included.
fn within(
    diagrams: &mut Diagrams,
    field: Field,
    low: u128,
    high: u128,
) -> Result<PacketSet, SetError>
    requires { IsField field }
    ensures keeps { Keeps diagrams.old diagrams.new }
    ensures value { IfOk result (λ set. Means diagrams.new set (λ packet.
        nat_le low (number_in field packet) && nat_le (number_in field packet) high)) }
    ensures too_large { IfErr result (λ e. e ≡ TooLarge
        → diagrams.new.limit ≤ length diagrams.new.nodes) }
{
    // One number takes fewer nodes so.
    if low == high {
        return equal(diagrams, field, low);
    }
    let least = at_least(diagrams, field, low)?;
    let most = at_most(diagrams, field, high)?;
    diagrams.and(least, most)
}

/// The packets whose field's number stands for one that passes the test, number by number.
fn listed(
    diagrams: &mut Diagrams,
    field: Field,
    numbers: Numbers<'_>,
    test: Test,
) -> Result<PacketSet, SetError>
    requires { IsField field }
    ensures keeps { Keeps diagrams.old diagrams.new }
    ensures value { IfOk result (λ set. Means diagrams.new set
        (λ packet. test_passes test (meant numbers.entry (number_in field packet)))) }
    ensures too_large { IfErr result (λ e. e ≡ TooLarge
        → diagrams.new.limit ≤ length diagrams.new.nodes) }
{
    let mut set = fixed(diagrams, false);
    for number in 0..2u64.pow(field.width) {
        if test.passes(numbers.of(number)) {
            let one = diagrams.equal(field, number)?;
            set = diagrams.or(set, one)?;
        }
    }
    Ok(set)
}

/// The packets whose field has a number that passes the test.
fn plain(diagrams: &mut Diagrams, field: Field, test: Test) -> Result<PacketSet, SetError>
    requires { IsField field }
    ensures keeps { Keeps diagrams.old diagrams.new }
    ensures value { IfOk result (λ set. Means diagrams.new set
        (λ packet. test_passes test (number_in field packet))) }
    ensures too_large { IfErr result (λ e. e ≡ TooLarge
        → diagrams.new.limit ≤ length diagrams.new.nodes) }
{
    match test {
        Test::AtLeast(low) => at_least(diagrams, field, low),
        Test::AtMost(high) => at_most(diagrams, field, high),
        Test::Within(low, high) => within(diagrams, field, low, high),
        Test::Bits(0, wanted) => Ok(fixed(diagrams, wanted == 0)),
        Test::Bits(mask, wanted) => {
            listed(diagrams, field, Numbers::Plain, Test::Bits(mask, wanted))
        }
    }
}

/// The packets whose field's number stands for one that passes the test.
pub(crate) fn passing(
    diagrams: &mut Diagrams,
    field: Field,
    numbers: Numbers<'_>,
    test: Test,
) -> Result<PacketSet, SetError>
    requires { IsField field }
    ensures keeps { Keeps diagrams.old diagrams.new }
    ensures value { IfOk result (λ set. Means diagrams.new set
        (λ packet. test_passes test (meant numbers.entry (number_in field packet)))) }
    ensures too_large { IfErr result (λ e. e ≡ TooLarge
        → diagrams.new.limit ≤ length diagrams.new.nodes) }
{
    match numbers {
        Numbers::Plain => plain(diagrams, field, test),
        _ => listed(diagrams, field, numbers, test),
    }
}
