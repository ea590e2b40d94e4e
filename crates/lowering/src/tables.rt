//! Tables of intervals for sets and maps.
ghost use Rattle.std.specs.Prelude.{◌≡◌, ℕ, false, map, is_some, IfOk, OnOk};
ghost use Rattle.std.specs.Option.{option_map, option_or};
ghost use Rattle.set_intervals.specs.Pairs.{first_value};
ghost use Rattle.nft_tree.specs.TreeViews.{data_tree, element_tree, pair_tree, verdict_tree};
ghost use Rattle.nft_tree.specs.declared.compared_types.ComparedType.TheVariants.{Named};
ghost use Rattle.rule_types.specs.Types.{is_too_wide};
ghost use Rattle.rule_meaning.specs.Sets.{data_number, data_verdict, key_numbers, pair_gives, spans};
ghost use Rattle.rule_meaning.specs.Statements.{chain_number, rule_verdict_of};
ghost use Rattle.lowering.specs.steps.Tables.{IsNumberTable, IsNumberType, IsSetTable, IsVerdictTable, entry_gives};

use crate::keys::key_numbers;
use box_file::Plant;
use nft_tree::{ComparedType, Data, Element, Pair, ValueType, Verdict};
use nft_values::{numbers_of, value_numbers};
use rule_meaning::RuleVerdict;
use rule_names::TableNames;
use set_intervals::{Intervals, Range};
use std::alloc::{AllocError, Global};

/// The number of a chain by its name; the number of chains where there is none.
fn chain_number(names: &TableNames, name: &[u8]) -> Result<u32, AllocError>
    ensures { IfOk result (λ n. n ≡ chain_number names.now name.now) }
{
    let place = match names.chain_index(name) {
        Some(place) => place,
        None => names.chains().len(),
    };
    // No memory holds a ruleset with 2^32 chains.
    match u32::try_from(place) {
        Ok(number) => Ok(number),
        Err(_) => Err(AllocError),
    }
}

/// A verdict, with its chain by number.
pub(crate) fn rule_verdict(names: &TableNames, verdict: &Verdict) -> Result<RuleVerdict, AllocError>
    ensures { IfOk result (λ d. d ≡ rule_verdict_of names.now (verdict_tree verdict.now)) }
{
    Ok(match verdict {
        Verdict::Accept => RuleVerdict::Accept,
        Verdict::Drop => RuleVerdict::Drop,
        Verdict::Continue => RuleVerdict::Continue,
        Verdict::Return => RuleVerdict::Return,
        Verdict::Jump(name) => RuleVerdict::Jump(chain_number(names, name)?),
        Verdict::Goto(name) => RuleVerdict::Goto(chain_number(names, name)?),
    })
}

/// Appends an entry, if there is one. It counts for the numbers that no earlier entry has.
fn push_entry<V: Drop>(
    entries: &mut Vec<(Range, V)>,
    entry: Option<(Range, V)>,
) -> Result<(), AllocError>
    ensures { OnOk result ((n : ℕ) → first_value entries.new.items n
        ≡ option_or (first_value entries.old.items n) (entry_gives entry n)) }
{
    if let Some(entry) = entry {
        entries.push(entry)?;
    }
    Ok(())
}

/// The interval of an element's key; `None` where it has no number of these types.
fn element_entry(network: &Plant, kinds: &[ComparedType], element: &Element) -> Option<(Range, ())>
    requires { is_too_wide kinds.now ≡ false }
    ensures { (n : ℕ) → is_some (entry_gives result n)
        ≡ spans (key_numbers network.now kinds.now (element_tree element.now).key) n }
{
    let range = key_numbers(network, kinds, &element.key)?;
    Some((range, ()))
}

/// The intervals of elements of these types. An element that has none is left out.
fn element_pairs(
    alloc: Global,
    network: &Plant,
    kinds: &[ComparedType],
    elements: &[Element],
) -> Result<Vec<(Range, ())>, AllocError>
    requires { is_too_wide kinds.now ≡ false }
    ensures { IfOk result (λ pairs.
        IsSetTable network.now kinds.now (map element_tree elements.now) pairs.items) }
{
    let mut pairs = Vec::new(alloc);
    for element in elements {
        push_entry(&mut pairs, element_entry(network, kinds, element))?;
    }
    Ok(pairs)
}

/// The table of a set with these elements, of these types. Where elements overlap, the first one
/// counts.
pub(crate) fn set_table(
    alloc: Global,
    network: &Plant,
    kinds: &[ComparedType],
    elements: &[Element],
) -> Result<Intervals<()>, AllocError>
    requires { is_too_wide kinds.now ≡ false }
    ensures { IfOk result (IsSetTable network.now kinds.now (map element_tree elements.now)) }
{
    let pairs = element_pairs(alloc, network, kinds, elements)?;
    Intervals::first_wins(alloc, &pairs)
}

/// The verdict of a map's element; `None` where it has a value.
fn element_verdict(names: &TableNames, datum: &Data) -> Result<Option<RuleVerdict>, AllocError>
    ensures { IfOk result (λ d.
        d ≡ option_map (rule_verdict_of names.now) (data_verdict (data_tree datum.now))) }
{
    match datum {
        Data::Verdict(verdict) => Ok(Some(rule_verdict(names, verdict)?)),
        Data::Value(_) => Ok(None),
    }
}

/// The interval of an element's key and its verdict; `None` where the key has no number of the
/// type, or the element has a value.
fn verdict_entry(
    network: &Plant,
    names: &TableNames,
    kind: ComparedType,
    pair: &Pair,
) -> Result<Option<(Range, RuleVerdict)>, AllocError>
    ensures { IfOk result (λ entry. (n : ℕ) → entry_gives entry n
        ≡ option_map (rule_verdict_of names.now) (pair_gives data_verdict network.now kind n
        (pair_tree pair.now))) }
{
    let Some(range) = numbers_of(network, kind, &pair.key) else {
        return Ok(None);
    };
    let Some(rule_verdict) = element_verdict(names, &pair.value)? else {
        return Ok(None);
    };
    Ok(Some((range, rule_verdict)))
}

/// The intervals and verdicts of a verdict map's elements.
fn verdict_pairs(
    alloc: Global,
    network: &Plant,
    names: &TableNames,
    kind: ComparedType,
    pairs: &[Pair],
) -> Result<Vec<(Range, RuleVerdict)>, AllocError>
    ensures { IfOk result (λ entries.
        IsVerdictTable network.now names.now kind (map pair_tree pairs.now) entries.items) }
{
    let mut entries = Vec::new(alloc);
    for pair in pairs {
        push_entry(&mut entries, verdict_entry(network, names, kind, pair)?)?;
    }
    Ok(entries)
}

/// The table of a verdict map with these elements, whose keys are of the type. The first one
/// counts.
pub(crate) fn verdict_table(
    alloc: Global,
    network: &Plant,
    names: &TableNames,
    kind: ComparedType,
    pairs: &[Pair],
) -> Result<Intervals<RuleVerdict>, AllocError>
    ensures { IfOk result (IsVerdictTable network.now names.now kind (map pair_tree pairs.now)) }
{
    let entries = verdict_pairs(alloc, network, names, kind, pairs)?;
    Intervals::first_wins(alloc, &entries)
}

/// The mark or address of an element; `None` where it has none.
fn data_number(network: &Plant, given: ValueType, datum: &Data) -> Option<u32>
    requires { IsNumberType given }
    ensures { result ≡ data_number network.now (Named given) (data_tree datum.now) }
{
    match datum {
        Data::Verdict(_) => None,
        Data::Value(value) => {
            let number = value_numbers(network, ComparedType::Named(given), value)?.low();
            Some(number as u32)
        }
    }
}

/// The interval of an element's key, and its mark or address; `None` where one of them has no
/// number.
fn number_entry(
    network: &Plant,
    kind: ComparedType,
    given: ValueType,
    pair: &Pair,
) -> Option<(Range, u32)>
    requires { IsNumberType given }
    ensures { (n : ℕ) → entry_gives result n ≡ pair_gives (data_number network.now (Named given))
        network.now kind n (pair_tree pair.now) }
{
    let range = numbers_of(network, kind, &pair.key)?;
    let number = data_number(network, given, &pair.value)?;
    Some((range, number))
}

/// The intervals and numbers of the elements of a map of marks or addresses.
fn number_pairs(
    alloc: Global,
    network: &Plant,
    kind: ComparedType,
    given: ValueType,
    pairs: &[Pair],
) -> Result<Vec<(Range, u32)>, AllocError>
    requires { IsNumberType given }
    ensures { IfOk result (λ entries.
        IsNumberTable network.now kind given (map pair_tree pairs.now) entries.items) }
{
    let mut entries = Vec::new(alloc);
    for pair in pairs {
        push_entry(&mut entries, number_entry(network, kind, given, pair))?;
    }
    Ok(entries)
}

/// The table of a map of marks or addresses (`given`) with these elements, whose keys are of type
/// `kind`. The first one counts.
pub(crate) fn number_table(
    alloc: Global,
    network: &Plant,
    kind: ComparedType,
    given: ValueType,
    pairs: &[Pair],
) -> Result<Intervals<u32>, AllocError>
    requires { IsNumberType given }
    ensures { IfOk result (IsNumberTable network.now kind given (map pair_tree pairs.now)) }
{
    let entries = number_pairs(alloc, network, kind, given, pairs)?;
    Intervals::first_wins(alloc, &entries)
}
