//! How a selector reads a packet's bits.
ghost use Rattle.std.specs.Prelude.{◌≡◌, ◌<◌, ◌≤◌, ◌^◌, ℕ, Bool, length, IfOk, IfErr, IfSome};
ghost use Rattle.packet_sets.specs.Sets.{Keeps, Means};
ghost use Rattle.packet_sets.specs.declared.fault.SetError.TheVariants.{TooLarge};
ghost use Rattle.nft_tree.specs.ValueTypes.{selector_width};
ghost use Rattle.nft_tree.specs.declared.selector.Selector.{Selector};
ghost use Rattle.rule_meaning.specs.Matches.{tests};
ghost use Rattle.rule_meaning.specs.Selectors.{value};
ghost use Rattle.fact_sets.specs.Cases.{seen};
ghost use Rattle.fact_sets.specs.Tests.{test_passes};
ghost use Rattle.fact_sets.specs.steps.Readings.{IsNarrow, field_of, is_present, mark_field, mark_meant, meant, value_meant};

use crate::interfaces::Interfaces;
use crate::layout;
use crate::numbers::Numbers;
use crate::ranges::{Test, fixed, passing};
use crate::written::{MarkSource, Written};
use nft_tree::Selector;
use packet_sets::{Diagrams, Field, PacketSet, SetError};

/// How facts are read from a packet's bits: the interfaces of the box, and what rules have written.
#[derive(Clone, Copy)]
pub struct Reader<'a> {
    pub interfaces: &'a Interfaces,
    pub written: Written,
}

/// The field that has a mark.
fn mark_field(source: MarkSource) -> Field
    ensures { result ≡ mark_field source }
{
    match source {
        MarkSource::Packet => layout::MARK,
        MarkSource::Connection => layout::CT_MARK,
        MarkSource::Number(_) => layout::DIRECTION,
    }
}

/// What the numbers of a mark's field stand for.
fn mark_numbers<'a>(source: MarkSource) -> Numbers<'a>
    ensures { (n : ℕ) → meant result n ≡ mark_meant source n }
{
    match source {
        MarkSource::Packet | MarkSource::Connection => Numbers::Plain,
        MarkSource::Number(number) => Numbers::Constant(number),
    }
}

/// A mark fits its type. It does nothing.
fn narrow_mark(mark: MarkSource)
    ensures { (n : ℕ) → n < 2 ^ 32 → mark_meant mark n < 2 ^ 32 }
{
    if let MarkSource::Number(number) = mark {
        let _ = number;
    }
}

/// The packets for which the selector has a value.
fn present(diagrams: &mut Diagrams, selector: Selector) -> Result<PacketSet, SetError>
    ensures keeps { Keeps diagrams.old diagrams.new }
    ensures value { IfOk result (λ set. Means diagrams.new set (is_present selector)) }
    ensures too_large { IfErr result (λ e. e ≡ TooLarge
        → diagrams.new.limit ≤ length diagrams.new.nodes) }
{
    match selector {
        Selector::TcpSource | Selector::TcpDestination | Selector::TcpFlags => {
            diagrams.equal(layout::TRANSPORT, 1)
        }
        Selector::UdpSource | Selector::UdpDestination => diagrams.equal(layout::TRANSPORT, 2),
        Selector::TransportSource | Selector::TransportDestination => {
            diagrams.within(layout::TRANSPORT, 1, 2)
        }
        Selector::IcmpType => diagrams.equal(layout::TRANSPORT, 3),
        Selector::OutputName | Selector::OutputIndex => diagrams.bit(layout::HAS_OUTPUT),
        Selector::CtState => diagrams.at_least(layout::TRACKING, 2),
        Selector::CtDirection | Selector::CtStatus | Selector::CtMark => {
            diagrams.at_least(layout::TRACKING, 4)
        }
        _ => Ok(fixed(diagrams, true)),
    }
}

impl<'a> Reader<'a> {
    /// The field that the selector reads.
    fn field(self, selector: Selector) -> Field
        ensures { result ≡ field_of self.entry.written selector }
    {
        match selector {
            Selector::IpSource => layout::SOURCE,
            Selector::IpDestination => layout::DESTINATION,
            Selector::IpProtocol | Selector::MetaProtocol => layout::PROTOCOL,
            Selector::IpTtl => layout::TTL,
            Selector::IpLength | Selector::MetaLength => layout::LENGTH,
            Selector::TcpSource | Selector::UdpSource => layout::SOURCE_PORT,
            Selector::TcpDestination | Selector::UdpDestination => layout::DESTINATION_PORT,
            Selector::TransportSource => layout::SOURCE_PORT,
            Selector::TransportDestination => layout::DESTINATION_PORT,
            Selector::TcpFlags => layout::FLAGS,
            Selector::IcmpType => layout::ICMP_TYPE,
            Selector::InputName | Selector::InputIndex => layout::INPUT,
            Selector::OutputName | Selector::OutputIndex => layout::OUTPUT,
            Selector::MetaMark => mark_field(self.written.packet),
            Selector::CtMark => mark_field(self.written.connection),
            Selector::CtState => layout::TRACKING,
            Selector::CtDirection | Selector::MetaFamily => layout::DIRECTION,
            Selector::CtStatus => layout::STATUS,
        }
    }

    /// What the numbers of its field stand for.
    fn numbers(self, selector: Selector) -> Numbers<'a>
        ensures { (n : ℕ) → meant result n ≡ value_meant self.entry selector n }
    {
        match selector {
            Selector::InputName | Selector::OutputName => Numbers::Names(self.interfaces),
            Selector::InputIndex | Selector::OutputIndex => Numbers::Indexes(self.interfaces),
            Selector::MetaMark => mark_numbers(self.written.packet),
            Selector::CtMark => mark_numbers(self.written.connection),
            Selector::MetaFamily => Numbers::Constant(2),
            Selector::CtState => Numbers::States,
            Selector::CtStatus => Numbers::Statuses,
            _ => Numbers::Plain,
        }
    }

    /// What selectors read fits their types. It does nothing.
    fn narrow(self)
        ensures { IsNarrow self.entry }
    {
        self.interfaces.narrow();
        narrow_mark(self.written.packet);
        narrow_mark(self.written.connection);
    }

    /// The value of each selector has no more bits than its type. It does nothing.
    pub fn values_fit(self)
        ensures { (selector : Selector) (packet : ℕ → Bool)
            → IfSome (value selector (seen self.entry packet)) (λ n. n < 2 ^ selector_width selector) }
    {
        self.narrow();
    }

    /// The packets for which the selector has a value that passes the test.
    ///
    /// # Errors
    ///
    /// `TooLarge` where more nodes are needed than the limit allows, `Memory` where an allocation
    /// failed.
    pub fn passing(
        self,
        diagrams: &mut Diagrams,
        selector: Selector,
        test: Test,
    ) -> Result<PacketSet, SetError>
        ensures keeps { Keeps diagrams.old diagrams.new }
        ensures value { IfOk result (λ set. Means diagrams.new set
            (λ packet. tests (value selector (seen self.entry packet)) (test_passes test))) }
        ensures too_large { IfErr result (λ e. e ≡ TooLarge
            → diagrams.new.limit ≤ length diagrams.new.nodes) }
    {
        let there = present(diagrams, selector)?;
        let among = passing(diagrams, self.field(selector), self.numbers(selector), test)?;
        diagrams.and(there, among)
    }
}
