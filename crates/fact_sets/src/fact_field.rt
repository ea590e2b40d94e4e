//! The fields of facts one by one, for those who tell a set of packets field by field.
ghost use Rattle.std.specs.Prelude.{◌≡◌, ◌+◌, ◌<◌, ◌^◌};
ghost use Rattle.fact_sets.specs.Facts.{place_of};

use crate::layout::{
    CT_MARK, DESTINATION, DESTINATION_PORT, DIRECTION, FLAGS, HAS_OUTPUT, ICMP_TYPE, INPUT, LENGTH,
    MARK, OUTPUT, PROTOCOL, SOURCE, SOURCE_PORT, STATUS, TRACKING, TRANSPORT, TTL,
};
use packet_sets::Field;

/// A field of facts.
#[derive(Clone, Copy, PartialEq, Eq)]
pub enum FactField {
    /// Four times the protocol, and 1 where TCP's header follows, 2 for UDP's, 3 for ICMP's.
    Protocol,
    /// The number of the input interface among those of the box.
    Input,
    /// 64 and the number of the output interface; less than 64 where there is none.
    Output,
    /// 0 before the lookup, 1 where there will be none, 2 for untracked, 3 for invalid, 4 for
    /// established, 5 for related, 6 and 7 for new.
    Tracking,
    /// 1 for a packet in reply direction.
    Direction,
    /// 1 where the destination is translated.
    DestinationTranslated,
    /// 1 where the source is translated.
    SourceTranslated,
    /// 1 where a reply was seen.
    ReplySeen,
    Destination,
    Source,
    DestinationPort,
    SourcePort,
    Cwr,
    Ecn,
    Urg,
    Ack,
    Psh,
    Rst,
    Syn,
    Fin,
    IcmpType,
    Length,
    Ttl,
    Mark,
    CtMark,
}

impl FactField {
    /// All of them, in the order of their bits.
    pub const ALL: [FactField; 25] = [
        FactField::Protocol,
        FactField::Input,
        FactField::Output,
        FactField::Tracking,
        FactField::Direction,
        FactField::DestinationTranslated,
        FactField::SourceTranslated,
        FactField::ReplySeen,
        FactField::Destination,
        FactField::Source,
        FactField::DestinationPort,
        FactField::SourcePort,
        FactField::Cwr,
        FactField::Ecn,
        FactField::Urg,
        FactField::Ack,
        FactField::Psh,
        FactField::Rst,
        FactField::Syn,
        FactField::Fin,
        FactField::IcmpType,
        FactField::Length,
        FactField::Ttl,
        FactField::Mark,
        FactField::CtMark,
    ];

    /// Where the field stands among the bits of a packet.
    pub fn place(self) -> Field
        ensures { result ≡ place_of self }
    {
        match self {
            FactField::Protocol => joined(PROTOCOL, TRANSPORT.width),
            FactField::Input => INPUT,
            FactField::Output => Field {
                first: HAS_OUTPUT,
                width: 1 + OUTPUT.width,
            },
            FactField::Tracking => TRACKING,
            FactField::Direction => DIRECTION,
            FactField::DestinationTranslated => bit_of(STATUS, 0),
            FactField::SourceTranslated => bit_of(STATUS, 1),
            FactField::ReplySeen => bit_of(STATUS, 2),
            FactField::Destination => DESTINATION,
            FactField::Source => SOURCE,
            FactField::DestinationPort => DESTINATION_PORT,
            FactField::SourcePort => SOURCE_PORT,
            FactField::Cwr => bit_of(FLAGS, 0),
            FactField::Ecn => bit_of(FLAGS, 1),
            FactField::Urg => bit_of(FLAGS, 2),
            FactField::Ack => bit_of(FLAGS, 3),
            FactField::Psh => bit_of(FLAGS, 4),
            FactField::Rst => bit_of(FLAGS, 5),
            FactField::Syn => bit_of(FLAGS, 6),
            FactField::Fin => bit_of(FLAGS, 7),
            FactField::IcmpType => ICMP_TYPE,
            FactField::Length => LENGTH,
            FactField::Ttl => TTL,
            FactField::Mark => MARK,
            FactField::CtMark => CT_MARK,
        }
    }
}

/// The field and so many bits behind it.
fn joined(field: Field, more: u32) -> Field
    requires { field.width + more < 2 ^ 32 }
    ensures first { result.first ≡ field.first }
    ensures width { result.width ≡ field.width + more }
{
    Field {
        first: field.first,
        width: field.width + more,
    }
}

/// The bit at this place of a field, the highest at 0.
fn bit_of(field: Field, place: u32) -> Field
    requires { field.first + place < 2 ^ 32 }
    ensures first { result.first ≡ field.first + place }
    ensures width { result.width ≡ 1 }
{
    Field {
        first: field.first + place,
        width: 1,
    }
}
