//! Map data in a form that `==` compares.
ghost use Rattle.std.specs.Prelude.{IfOk, OnOk};
ghost use Rattle.nft_tree.specs.TreeViews.{data_tree, verdict_tree};
ghost use Rattle.rule_values.specs.Faults.{a_verdict, element_data};
ghost use Rattle.rule_values.specs.steps.MapEntries.{RepresentsOptionalData, RepresentsData, IsNameIndex, KeepsIndices};

use box_file::Plant;
use indexmap::IndexSet;
use nft_tree::{ComparedType, Data, Verdict};
use nft_values::value_numbers;
use std::alloc::AllocError;

/// The data of a map element. Two are equal exactly if the elements map to the same.
#[derive(Clone, Copy, PartialEq, Eq)]
pub(crate) enum ComparableData {
    Accept,
    Drop,
    Continue,
    Return,
    /// By the index of the chain's name.
    Jump(usize),
    /// By the index of the chain's name.
    Goto(usize),
    /// The lowest and the highest number that a value denotes.
    Numbers(u128, u128),
}

/// The index of the name, which is added at the end if it is new.
fn name_index<'t>(names: &mut IndexSet<&'t [u8]>, name: &'t [u8]) -> Result<usize, AllocError>
    ensures keeps { OnOk result (KeepsIndices names.old.keys names.new.keys) }
    ensures name_index { IfOk result (λ i. IsNameIndex names.new.keys name.now i) }
{
    let (name_index, _is_new) = names.insert_full(name)?;
    Ok(name_index)
}

fn comparable_verdict<'t>(
    names: &mut IndexSet<&'t [u8]>,
    verdict: &'t Verdict,
) -> Result<ComparableData, AllocError>
    ensures keeps { OnOk result (KeepsIndices names.old.keys names.new.keys) }
    ensures comparable_data { IfOk result
        (λ o. RepresentsData names.new.keys (a_verdict (verdict_tree verdict.now)) o) }
{
    Ok(match verdict {
        Verdict::Accept => ComparableData::Accept,
        Verdict::Drop => ComparableData::Drop,
        Verdict::Continue => ComparableData::Continue,
        Verdict::Return => ComparableData::Return,
        Verdict::Jump(name) => ComparableData::Jump(name_index(names, name)?),
        Verdict::Goto(name) => ComparableData::Goto(name_index(names, name)?),
    })
}

/// The comparable form of a datum; `None` if a value isn't wanted or denotes no number.
pub(crate) fn comparable_form_of<'t>(
    names: &mut IndexSet<&'t [u8]>,
    network: &Plant,
    wanted: Option<ComparedType>,
    datum: &'t Data,
) -> Result<Option<ComparableData>, AllocError>
    ensures keeps { OnOk result (KeepsIndices names.old.keys names.new.keys) }
    ensures comparable_data { IfOk result
        (λ o. RepresentsOptionalData names.new.keys
        (element_data network.now wanted (data_tree datum.now)) o) }
{
    match (datum, wanted) {
        (Data::Verdict(verdict), _) => Ok(Some(comparable_verdict(names, verdict)?)),
        (Data::Value(value), Some(kind)) => match value_numbers(network, kind, value) {
            None => Ok(None),
            Some(range) => Ok(Some(ComparableData::Numbers(range.low(), range.high()))),
        },
        (Data::Value(_), None) => Ok(None),
    }
}
