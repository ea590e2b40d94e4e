//! Lowers matches.
ghost use Rattle.std.specs.Prelude.{◌≡◌, ◌==◌, false, map, IfOk, OnOk};
ghost use Rattle.nft_tree.specs.TreeViews.{flag_tree, match_tree, range_tree};
ghost use Rattle.nft_tree.specs.ComparedTypes.{selector_compared_type};
ghost use Rattle.nft_values.specs.Values.{numbers_of};
ghost use Rattle.rule_types.specs.Types.{match_mismatches};
ghost use Rattle.rule_meaning.specs.Selectors.{value};
ghost use Rattle.rule_meaning.specs.Matches.{bit_selector, bit_type, bits_of, bits_pass, compares_with, flag_number};
ghost use Rattle.rule_meaning.specs.Matches.{flags_of, holds, tests, union, word_number};
ghost use Rattle.rule_meaning.specs.Statements.{passes_if};
ghost use Rattle.lowering.specs.Lowered.{AddsFewTables, Extends, HasDeclared, scope_of};
ghost use Rattle.lowering.specs.steps.Actions.{AlwaysHasEffect, HasEffect};

use crate::lookup_tables::set_index;
use box_file::Plant;
use nft_tree::{BitField, BitTest, Flag, Match, Operator, Selector, ValueRange, ValueType};
use nft_values::numbers_of;
use rule_code::{Action, Lookups};
use rule_names::TableNames;
use set_intervals::Range as Interval;
use std::alloc::{AllocError, Global};

/// An action that fails on every packet: `selector & 0 != 0`.
fn never(selector: Selector) -> Action
    ensures { AlwaysHasEffect (λ f. passes_if false) result }
{
    Action::BitsUnequal(selector, 0, 0)
}

/// A selector against a value, a range or a prefix.
fn compare(network: &Plant, selector: Selector, operator: Operator, range: &ValueRange) -> Action
    ensures { AlwaysHasEffect (λ f. passes_if (tests (value selector f)
        (compares_with operator (numbers_of network.now (selector_compared_type selector)
        (range_tree range.now))))) result }
{
    match numbers_of(network, selector.kind(), range) {
        Some(numbers) => Action::Compare(selector, operator, numbers),
        None => never(selector),
    }
}

/// A selector against one number.
fn equals(selector: Selector, number: u128) -> Action
    ensures { AlwaysHasEffect (λ f.
        passes_if (tests (value selector f) (λ n. n == number))) result }
{
    match Interval::new(number, number) {
        Some(numbers) => Action::Compare(selector, Operator::Equal, numbers),
        None => never(selector),
    }
}

/// The number of a word of the type, or 0.
fn word_number(value_type: ValueType, word: &[u8]) -> u128
    ensures { result ≡ word_number value_type word.now }
{
    match value_type.number_of(word) {
        Some(number) => u128::from(number),
        None => 0,
    }
}

/// The selector and the type of `ct state` or `ct status`.
pub(crate) fn bit_source(field: BitField) -> (Selector, ValueType)
    ensures selector { result.0 ≡ bit_selector field }
    ensures named { result.1 ≡ bit_type field }
{
    match field {
        BitField::State => (Selector::CtState, ValueType::CtState),
        BitField::Status => (Selector::CtStatus, ValueType::CtStatus),
    }
}

/// The bits of the words, together.
pub(crate) fn bits_of(value_type: ValueType, words: &[Vec<u8>]) -> u128
    ensures { result ≡ union (map (word_number value_type) (map (λ w. w.items) words.now)) }
{
    let mut bits = 0;
    for word in words {
        bits |= word_number(value_type, word);
    }
    bits
}

/// `ct state` or `ct status` against bits.
fn test_bits(field: BitField, test: BitTest, words: &[Vec<u8>]) -> Action
    ensures { AlwaysHasEffect (λ f. passes_if (tests (value (bit_selector field) f)
        (bits_pass test (bits_of field (map (λ w. w.items) words.now))))) result }
{
    let (selector, value_type) = bit_source(field);
    let bits = bits_of(value_type, words);
    match test {
        BitTest::Any => Action::BitsUnequal(selector, bits, 0),
        BitTest::Exactly => equals(selector, bits),
        BitTest::None => Action::BitsEqual(selector, bits, 0),
    }
}

/// The bit of a TCP flag.
fn flag_number(flag: &Flag) -> u128
    ensures { result ≡ flag_number (flag_tree flag.now) }
{
    match flag {
        Flag::Word(word) => word_number(ValueType::TcpFlag, word),
        Flag::Number(number) => u128::from(*number),
    }
}

/// The bits of TCP flags, together.
pub(crate) fn flags_of(flags: &[Flag]) -> u128
    ensures { result ≡ flags_of (map flag_tree flags.now) }
{
    let mut bits = 0;
    for flag in flags {
        bits |= flag_number(flag);
    }
    bits
}

/// The action of a match. The table of an anonymous set is added.
pub(crate) fn lower_match(
    alloc: Global,
    network: &Plant,
    names: &TableNames,
    test: &Match,
    lookups: &mut Lookups,
) -> Result<Action, AllocError>
    requires declared { HasDeclared network.now names.now lookups.old }
    requires types { match_mismatches names.now (match_tree test.now) ≡ false }
    ensures extends { OnOk result (Extends lookups.old lookups.new) }
    ensures few { OnOk result (AddsFewTables lookups.old lookups.new) }
    ensures effect { IfOk result (HasEffect lookups.new
        (λ f. passes_if (holds (scope_of network.now names.now) (match_tree test.now) f))) }
{
    const FLAGS: Selector = Selector::TcpFlags;
    match test {
        Match::Compare(selector, operator, range) => {
            Ok(compare(network, *selector, *operator, range))
        }
        Match::In(selectors, set) => Ok(Action::InSet(
            selectors.clone()?,
            set_index(alloc, network, names, selectors, set, lookups)?,
        )),
        Match::NotIn(selectors, set) => Ok(Action::NotInSet(
            selectors.clone()?,
            set_index(alloc, network, names, selectors, set, lookups)?,
        )),
        Match::Bits(field, how, words) => Ok(test_bits(*field, *how, words)),
        Match::AnyFlag(flags) => Ok(Action::BitsUnequal(FLAGS, flags_of(flags), 0)),
        Match::ExactFlags(flags) => Ok(equals(FLAGS, flags_of(flags))),
        Match::MaskedFlags(masked) => {
            let (mask, wanted) = (flags_of(&masked.mask), flags_of(&masked.wanted));
            Ok(Action::BitsEqual(FLAGS, mask, wanted))
        }
        Match::MaskedFlagsUnequal(masked) => {
            let (mask, wanted) = (flags_of(&masked.mask), flags_of(&masked.wanted));
            Ok(Action::BitsUnequal(FLAGS, mask, wanted))
        }
    }
}
