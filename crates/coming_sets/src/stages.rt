//! The packets that can come to a stage of a hook.
ghost use Rattle.std.specs.Prelude.{◌≡◌, ◌≤◌, ◌&&◌, length, IfOk, IfErr};
ghost use Rattle.packet_sets.specs.Sets.{Keeps, Means};
ghost use Rattle.packet_sets.specs.declared.fault.SetError.TheVariants.{TooLarge};
ghost use Rattle.fact_sets.specs.Cases.{seen};
ghost use Rattle.coming_sets.specs.Coming.{can_come_to, has_output, has_state_in, hook_of};

use crate::can_come::{NEW, matching, output, packets, valueless};
use fact_sets::Reader;
use nft_tree::{Hook, Operator, Selector};
use packet_sets::{Diagrams, PacketSet, SetError};
use rule_meaning::HookStage;
use std::alloc::Global;

/// The hook of the stage.
fn hook(stage: HookStage) -> Hook
    ensures { result ≡ hook_of stage }
{
    match stage {
        HookStage::PreroutingRaw
        | HookStage::PreroutingBeforeNat
        | HookStage::PreroutingNat
        | HookStage::PreroutingAfterNat => Hook::Prerouting,
        HookStage::Input => Hook::Input,
        HookStage::Forward => Hook::Forward,
        HookStage::PostroutingBeforeNat
        | HookStage::PostroutingNat
        | HookStage::PostroutingAfterNat => Hook::Postrouting,
    }
}

/// The packets with a `ct state` that the chains of the stage see.
fn state(
    alloc: Global,
    diagrams: &mut Diagrams,
    reader: Reader<'_>,
    stage: HookStage,
) -> Result<PacketSet, SetError>
    ensures keeps { Keeps diagrams.old diagrams.new }
    ensures value { IfOk result (λ set. Means diagrams.new set
        (λ packet. has_state_in stage (seen reader.entry packet))) }
    ensures too_large { IfErr result (λ e. e ≡ TooLarge
        → diagrams.new.limit ≤ length diagrams.new.nodes) }
{
    let selector = Selector::CtState;
    match stage {
        HookStage::PreroutingRaw => valueless(alloc, diagrams, reader, selector),
        HookStage::PreroutingNat | HookStage::PostroutingNat => {
            matching(alloc, diagrams, reader, selector, Operator::Equal, NEW)
        }
        HookStage::PreroutingBeforeNat
        | HookStage::PreroutingAfterNat
        | HookStage::Input
        | HookStage::Forward
        | HookStage::PostroutingBeforeNat
        | HookStage::PostroutingAfterNat => {
            matching(alloc, diagrams, reader, selector, Operator::AtLeast, 0)
        }
    }
}

/// The packets that are where the chains of the stage run.
fn places(
    alloc: Global,
    diagrams: &mut Diagrams,
    reader: Reader<'_>,
    stage: HookStage,
) -> Result<PacketSet, SetError>
    ensures keeps { Keeps diagrams.old diagrams.new }
    ensures value { IfOk result (λ set. Means diagrams.new set (λ packet.
        has_output (hook_of stage) (seen reader.entry packet)
        && has_state_in stage (seen reader.entry packet))) }
    ensures too_large { IfErr result (λ e. e ≡ TooLarge
        → diagrams.new.limit ≤ length diagrams.new.nodes) }
{
    let output = output(alloc, diagrams, reader, hook(stage))?;
    let state = state(alloc, diagrams, reader, stage)?;
    diagrams.and(output, state)
}

/// The packets that can come to the stage.
///
/// # Errors
///
/// `TooLarge` where more nodes are needed than the limit allows, `Memory` where an allocation
/// failed.
pub fn coming_to(
    alloc: Global,
    diagrams: &mut Diagrams,
    reader: Reader<'_>,
    stage: HookStage,
) -> Result<PacketSet, SetError>
    ensures keeps { Keeps diagrams.old diagrams.new }
    ensures value { IfOk result (λ set. Means diagrams.new set
        (λ packet. can_come_to stage (seen reader.entry packet))) }
    ensures too_large { IfErr result (λ e. e ≡ TooLarge
        → diagrams.new.limit ≤ length diagrams.new.nodes) }
{
    let packets = packets(alloc, diagrams, reader)?;
    let places = places(alloc, diagrams, reader, stage)?;
    diagrams.and(packets, places)
}
