//! The words of each field.

use fact_sets::FactField;

/// The octets of an IPv4 header, which no packet is shorter than (RFC 791, "Total Length").
const HEADER_LENGTH: u32 = 20;

/// How the numbers of a field are written.
#[derive(Clone, Copy, PartialEq, Eq)]
pub(crate) enum Notation {
    Number,
    Address,
    Protocol,
    IcmpType,
}

/// What is written for a field.
#[derive(Clone, Copy)]
pub(crate) enum Form {
    /// The names of interfaces, of which the first of the box has this number.
    Interfaces(&'static [u8], u32),
    State,
    /// This word where the bit is 0, that where it is 1.
    Either(&'static [u8], &'static [u8]),
    /// Numbers behind the name of the protocol's header.
    Port(&'static [u8]),
    Protocol,
    /// A selector and its numbers; the least and the greatest that packets can have there.
    Numbers(&'static [u8], Notation, u32, u32),
}

/// The matches before that of TCP's flags, in the order in which they are written.
pub(crate) static FIRST: [(FactField, Form); 12] = [
    (FactField::Input, Form::Interfaces(b"iifname", 0)),
    (FactField::Output, Form::Interfaces(b"oifname", 64)),
    (FactField::Tracking, Form::State),
    (
        FactField::Direction,
        Form::Either(b"ct direction original", b"ct direction reply"),
    ),
    (
        FactField::ReplySeen,
        Form::Either(b"ct status != seen-reply", b"ct status seen-reply"),
    ),
    (
        FactField::SourceTranslated,
        Form::Either(b"ct status != snat", b"ct status snat"),
    ),
    (
        FactField::DestinationTranslated,
        Form::Either(b"ct status != dnat", b"ct status dnat"),
    ),
    (
        FactField::Source,
        Form::Numbers(b"ip saddr", Notation::Address, 0, u32::MAX),
    ),
    (
        FactField::Destination,
        Form::Numbers(b"ip daddr", Notation::Address, 0, u32::MAX),
    ),
    (FactField::Protocol, Form::Protocol),
    (FactField::SourcePort, Form::Port(b"sport")),
    (FactField::DestinationPort, Form::Port(b"dport")),
];

/// The flags of TCP.
pub(crate) static FLAGS: [(FactField, &[u8]); 8] = [
    (FactField::Fin, b"fin"),
    (FactField::Syn, b"syn"),
    (FactField::Rst, b"rst"),
    (FactField::Psh, b"psh"),
    (FactField::Ack, b"ack"),
    (FactField::Urg, b"urg"),
    (FactField::Ecn, b"ecn"),
    (FactField::Cwr, b"cwr"),
];

/// The matches behind it.
pub(crate) static LAST: [(FactField, Form); 5] = [
    (
        FactField::IcmpType,
        Form::Numbers(b"icmp type", Notation::IcmpType, 0, 255),
    ),
    (
        FactField::Length,
        Form::Numbers(b"ip length", Notation::Number, HEADER_LENGTH, 65_535),
    ),
    (
        FactField::Ttl,
        Form::Numbers(b"ip ttl", Notation::Number, 0, 255),
    ),
    (
        FactField::Mark,
        Form::Numbers(b"meta mark", Notation::Number, 0, u32::MAX),
    ),
    (
        FactField::CtMark,
        Form::Numbers(b"ct mark", Notation::Number, 0, u32::MAX),
    ),
];

/// A state of connection tracking, by its codes.
#[derive(Clone, Copy)]
pub(crate) struct State {
    pub(crate) word: &'static [u8],
    pub(crate) from: u32,
    pub(crate) to: u32,
}

/// The states that packets can have, in the order in which they are written.
pub(crate) static STATES: [State; 5] = [
    State {
        word: b"established",
        from: 4,
        to: 4,
    },
    State {
        word: b"related",
        from: 5,
        to: 5,
    },
    State {
        word: b"new",
        from: 6,
        to: 7,
    },
    State {
        word: b"invalid",
        from: 3,
        to: 3,
    },
    State {
        word: b"untracked",
        from: 2,
        to: 2,
    },
];

/// The words of protocols.
pub(crate) static PROTOCOLS: [&[u8]; 9] = [
    b"icmp",
    b"igmp",
    b"tcp",
    b"udp",
    b"gre",
    b"esp",
    b"ah",
    b"ipv6-icmp",
    b"sctp",
];

/// The words of ICMP's types.
pub(crate) static ICMP_TYPES: [&[u8]; 15] = [
    b"echo-reply",
    b"destination-unreachable",
    b"source-quench",
    b"redirect",
    b"echo-request",
    b"router-advertisement",
    b"router-solicitation",
    b"time-exceeded",
    b"parameter-problem",
    b"timestamp-request",
    b"timestamp-reply",
    b"info-request",
    b"info-reply",
    b"address-mask-request",
    b"address-mask-reply",
];
