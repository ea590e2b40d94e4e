//! The packets that can come to a base chain.
ghost use Rattle.std.specs.Prelude.{◌≡◌, ◌≤◌, ◌&&◌, cond, length, not, IfOk, IfErr};
ghost use Rattle.packet_sets.specs.Sets.{IsSet, Keeps, Means, holds};
ghost use Rattle.packet_sets.specs.declared.fault.SetError.TheVariants.{TooLarge};
ghost use Rattle.fact_sets.specs.Cases.{seen};
ghost use Rattle.coming_sets.specs.Coming.{can_come, has_headers, has_length, has_output, has_state, has_value, is_at, is_field_of, is_packet, matches};
ghost use Rattle.coming_sets.specs.Bases.{base_chain};

use crate::base::Base;
use action_cases::action_cases;
use fact_sets::Reader;
use nft_tree::{ChainKind, Hook, Operator, Selector};
use packet_sets::{Diagrams, PacketSet, SetError};
use rule_code::{Action, Lookups};
use rule_sets::sorted;
use set_intervals::Range;
use std::alloc::Global;

/// The bit of `ct state new`.
pub(crate) const NEW: u128 = 8;

/// The octets of a header without options (RFC 791, section 3.1).
const HEADER: u128 = 20;

/// The packets whose selector compares so with the number.
pub(crate) fn matching(
    alloc: Global,
    diagrams: &mut Diagrams,
    reader: Reader<'_>,
    selector: Selector,
    operator: Operator,
    number: u128,
) -> Result<PacketSet, SetError>
    ensures keeps { Keeps diagrams.old diagrams.new }
    ensures value { IfOk result (λ set. Means diagrams.new set
        (λ packet. matches selector operator number (seen reader.entry packet))) }
    ensures too_large { IfErr result (λ e. e ≡ TooLarge
        → diagrams.new.limit ≤ length diagrams.new.nodes) }
{
    let range = Range::new(number, number).unwrap();
    let lookups = Lookups {
        sets: Vec::new(alloc),
        verdicts: Vec::new(alloc),
        numbers: Vec::new(alloc),
    };
    let action = Action::Compare(selector, operator, range);
    let cases = action_cases(reader, alloc, diagrams, &lookups, &action)?;
    diagrams.ends();
    let parts = sorted(alloc, diagrams, PacketSet::ALL, &cases)?;
    diagrams.not(parts.rest)
}

/// The packets whose selector has no value.
pub(crate) fn valueless(
    alloc: Global,
    diagrams: &mut Diagrams,
    reader: Reader<'_>,
    selector: Selector,
) -> Result<PacketSet, SetError>
    ensures keeps { Keeps diagrams.old diagrams.new }
    ensures value { IfOk result (λ set. Means diagrams.new set
        (λ packet. not (has_value selector (seen reader.entry packet)))) }
    ensures too_large { IfErr result (λ e. e ≡ TooLarge
        → diagrams.new.limit ≤ length diagrams.new.nodes) }
{
    let valued = matching(alloc, diagrams, reader, selector, Operator::AtLeast, 0)?;
    diagrams.not(valued)
}

/// The packets that are in both sets or in neither.
fn alike(diagrams: &mut Diagrams, left: PacketSet, right: PacketSet) -> Result<PacketSet, SetError>
    requires left { IsSet diagrams.old left }
    requires right { IsSet diagrams.old right }
    ensures keeps { Keeps diagrams.old diagrams.new }
    ensures value { IfOk result (λ set. Means diagrams.new set (λ packet.
        cond (holds diagrams.old right packet) (holds diagrams.old left packet)
        (not (holds diagrams.old left packet)))) }
    ensures too_large { IfErr result (λ e. e ≡ TooLarge
        → diagrams.new.limit ≤ length diagrams.new.nodes) }
{
    let in_left_alone = diagrams.without(left, right)?;
    let in_right_alone = diagrams.without(right, left)?;
    let in_one = diagrams.or(in_left_alone, in_right_alone)?;
    diagrams.not(in_one)
}

/// The packets that have the selector's field exactly if they are of the protocol.
fn field_of(
    alloc: Global,
    diagrams: &mut Diagrams,
    reader: Reader<'_>,
    protocol: u128,
    selector: Selector,
) -> Result<PacketSet, SetError>
    ensures keeps { Keeps diagrams.old diagrams.new }
    ensures value { IfOk result (λ set. Means diagrams.new set
        (λ packet. is_field_of protocol selector (seen reader.entry packet))) }
    ensures too_large { IfErr result (λ e. e ≡ TooLarge
        → diagrams.new.limit ≤ length diagrams.new.nodes) }
{
    let valued = matching(alloc, diagrams, reader, selector, Operator::AtLeast, 0)?;
    let of = matching(
        alloc,
        diagrams,
        reader,
        Selector::IpProtocol,
        Operator::Equal,
        protocol,
    )?;
    alike(diagrams, valued, of)
}

/// The packets with the header of their protocol, and no other.
fn headers(
    alloc: Global,
    diagrams: &mut Diagrams,
    reader: Reader<'_>,
) -> Result<PacketSet, SetError>
    ensures keeps { Keeps diagrams.old diagrams.new }
    ensures value { IfOk result (λ set. Means diagrams.new set
        (λ packet. has_headers (seen reader.entry packet))) }
    ensures too_large { IfErr result (λ e. e ≡ TooLarge
        → diagrams.new.limit ≤ length diagrams.new.nodes) }
{
    let tcp = field_of(alloc, diagrams, reader, 6, Selector::TcpSource)?;
    let udp = field_of(alloc, diagrams, reader, 17, Selector::UdpSource)?;
    let ports = diagrams.and(tcp, udp)?;
    let icmp = field_of(alloc, diagrams, reader, 1, Selector::IcmpType)?;
    diagrams.and(ports, icmp)
}

/// The packets with whole headers.
fn whole(alloc: Global, diagrams: &mut Diagrams, reader: Reader<'_>) -> Result<PacketSet, SetError>
    ensures keeps { Keeps diagrams.old diagrams.new }
    ensures value { IfOk result (λ set. Means diagrams.new set
        (λ packet. has_length (seen reader.entry packet) && has_headers (seen reader.entry packet))) }
    ensures too_large { IfErr result (λ e. e ≡ TooLarge
        → diagrams.new.limit ≤ length diagrams.new.nodes) }
{
    let long = matching(
        alloc,
        diagrams,
        reader,
        Selector::IpLength,
        Operator::AtLeast,
        HEADER,
    )?;
    let headers = headers(alloc, diagrams, reader)?;
    diagrams.and(long, headers)
}

/// The packets that came in by an interface, with whole headers.
pub(crate) fn packets(
    alloc: Global,
    diagrams: &mut Diagrams,
    reader: Reader<'_>,
) -> Result<PacketSet, SetError>
    ensures keeps { Keeps diagrams.old diagrams.new }
    ensures value { IfOk result (λ set. Means diagrams.new set
        (λ packet. is_packet (seen reader.entry packet))) }
    ensures too_large { IfErr result (λ e. e ≡ TooLarge
        → diagrams.new.limit ≤ length diagrams.new.nodes) }
{
    let input = matching(
        alloc,
        diagrams,
        reader,
        Selector::InputIndex,
        Operator::Unequal,
        0,
    )?;
    let whole = whole(alloc, diagrams, reader)?;
    diagrams.and(input, whole)
}

/// The packets with the hook's output interface.
pub(crate) fn output(
    alloc: Global,
    diagrams: &mut Diagrams,
    reader: Reader<'_>,
    hook: Hook,
) -> Result<PacketSet, SetError>
    ensures keeps { Keeps diagrams.old diagrams.new }
    ensures value { IfOk result (λ set. Means diagrams.new set
        (λ packet. has_output hook (seen reader.entry packet))) }
    ensures too_large { IfErr result (λ e. e ≡ TooLarge
        → diagrams.new.limit ≤ length diagrams.new.nodes) }
{
    let selector = Selector::OutputIndex;
    match hook {
        Hook::Prerouting | Hook::Input => valueless(alloc, diagrams, reader, selector),
        Hook::Forward | Hook::Postrouting => {
            matching(alloc, diagrams, reader, selector, Operator::Unequal, 0)
        }
        Hook::Output => {
            diagrams.ends();
            Ok(PacketSet::NONE)
        }
    }
}

/// The packets with a `ct state` that the base chain sees.
fn state(
    alloc: Global,
    diagrams: &mut Diagrams,
    reader: Reader<'_>,
    base: Base<'_>,
) -> Result<PacketSet, SetError>
    ensures keeps { Keeps diagrams.old diagrams.new }
    ensures value { IfOk result (λ set. Means diagrams.new set (λ packet.
        has_state base.entry.head.now.kind (base_chain base.entry) (seen reader.entry packet))) }
    ensures too_large { IfErr result (λ e. e ≡ TooLarge
        → diagrams.new.limit ≤ length diagrams.new.nodes) }
{
    let selector = Selector::CtState;
    match base.head.kind {
        ChainKind::Filter if base.is_before_lookup() => {
            valueless(alloc, diagrams, reader, selector)
        }
        ChainKind::Filter => matching(alloc, diagrams, reader, selector, Operator::AtLeast, 0),
        ChainKind::Nat => matching(alloc, diagrams, reader, selector, Operator::Equal, NEW),
    }
}

/// The packets that are where the base chain runs.
fn places(
    alloc: Global,
    diagrams: &mut Diagrams,
    reader: Reader<'_>,
    base: Base<'_>,
) -> Result<PacketSet, SetError>
    ensures keeps { Keeps diagrams.old diagrams.new }
    ensures value { IfOk result (λ set. Means diagrams.new set
        (λ packet. is_at (base_chain base.entry) (seen reader.entry packet))) }
    ensures too_large { IfErr result (λ e. e ≡ TooLarge
        → diagrams.new.limit ≤ length diagrams.new.nodes) }
{
    let output = output(alloc, diagrams, reader, base.head.hook)?;
    let state = state(alloc, diagrams, reader, base)?;
    diagrams.and(output, state)
}

/// The packets that can come to the base chain.
///
/// # Errors
///
/// `TooLarge` where more nodes are needed than the limit allows, `Memory` where an allocation
/// failed.
pub fn coming(
    alloc: Global,
    diagrams: &mut Diagrams,
    reader: Reader<'_>,
    base: Base<'_>,
) -> Result<PacketSet, SetError>
    ensures keeps { Keeps diagrams.old diagrams.new }
    ensures value { IfOk result (λ set. Means diagrams.new set
        (λ packet. can_come (base_chain base.entry) (seen reader.entry packet))) }
    ensures too_large { IfErr result (λ e. e ≡ TooLarge
        → diagrams.new.limit ≤ length diagrams.new.nodes) }
{
    let packets = packets(alloc, diagrams, reader)?;
    let places = places(alloc, diagrams, reader, base)?;
    diagrams.and(packets, places)
}
