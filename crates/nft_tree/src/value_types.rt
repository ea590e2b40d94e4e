//! Data types: which one a selector reads, its width, and its symbolic constants, as `nft describe`
//! lists them (nft(8), "Data types").
ghost use Rattle.nft_tree.specs.ValueTypes.{entry_in, entry_of, type_named, type_width, selector_type, selector_width, words_of, named_types, number_in};
ghost use Rattle.std.specs.Prelude.{◌≡◌, map, IfSome};

use crate::selector::{Selector, ValueType};

static TYPES: [(&[u8], ValueType); 12] = [
    (b"ipv4_addr", ValueType::Address),
    (b"inet_proto", ValueType::Protocol),
    (b"inet_service", ValueType::Service),
    (b"tcp_flag", ValueType::TcpFlag),
    (b"icmp_type", ValueType::IcmpType),
    (b"ifname", ValueType::InterfaceName),
    (b"iface_index", ValueType::InterfaceIndex),
    (b"mark", ValueType::Mark),
    (b"nf_proto", ValueType::Family),
    (b"ct_state", ValueType::CtState),
    (b"ct_dir", ValueType::CtDirection),
    (b"ct_status", ValueType::CtStatus),
];

static PROTOCOLS: [(&[u8], u32); 9] = [
    (b"icmp", 1),
    (b"igmp", 2),
    (b"tcp", 6),
    (b"udp", 17),
    (b"gre", 47),
    (b"esp", 50),
    (b"ah", 51),
    (b"ipv6-icmp", 58),
    (b"sctp", 132),
];

static SERVICES: [(&[u8], u32); 6] = [
    (b"ssh", 22),
    (b"smtp", 25),
    (b"domain", 53),
    (b"http", 80),
    (b"ntp", 123),
    (b"https", 443),
];

static TCP_FLAGS: [(&[u8], u32); 8] = [
    (b"fin", 1),
    (b"syn", 2),
    (b"rst", 4),
    (b"psh", 8),
    (b"ack", 16),
    (b"urg", 32),
    (b"ecn", 64),
    (b"cwr", 128),
];

static ICMP_TYPES: [(&[u8], u32); 15] = [
    (b"echo-reply", 0),
    (b"destination-unreachable", 3),
    (b"source-quench", 4),
    (b"redirect", 5),
    (b"echo-request", 8),
    (b"router-advertisement", 9),
    (b"router-solicitation", 10),
    (b"time-exceeded", 11),
    (b"parameter-problem", 12),
    (b"timestamp-request", 13),
    (b"timestamp-reply", 14),
    (b"info-request", 15),
    (b"info-reply", 16),
    (b"address-mask-request", 17),
    (b"address-mask-reply", 18),
];

static FAMILIES: [(&[u8], u32); 2] = [(b"ipv4", 2), (b"ipv6", 10)];

static CT_STATES: [(&[u8], u32); 5] = [
    (b"invalid", 1),
    (b"established", 2),
    (b"related", 4),
    (b"new", 8),
    (b"untracked", 64),
];

static CT_DIRECTIONS: [(&[u8], u32); 2] = [(b"original", 0), (b"reply", 1)];

static CT_STATUSES: [(&[u8], u32); 3] = [(b"seen-reply", 2), (b"snat", 16), (b"dnat", 32)];

impl Selector {
    /// The data type of what the selector reads; `None` where it is a plain integer (`ip ttl`, `ip
    /// length`, `meta length`).
    pub fn value_type(self) -> Option<ValueType>
        ensures { result ≡ selector_type self }
    {
        match self {
            Selector::IpSource | Selector::IpDestination => Some(ValueType::Address),
            Selector::IpProtocol | Selector::MetaProtocol => Some(ValueType::Protocol),
            Selector::IpTtl | Selector::IpLength | Selector::MetaLength => None,
            Selector::TcpSource
            | Selector::TcpDestination
            | Selector::UdpSource
            | Selector::UdpDestination
            | Selector::TransportSource
            | Selector::TransportDestination => Some(ValueType::Service),
            Selector::TcpFlags => Some(ValueType::TcpFlag),
            Selector::IcmpType => Some(ValueType::IcmpType),
            Selector::InputName | Selector::OutputName => Some(ValueType::InterfaceName),
            Selector::InputIndex | Selector::OutputIndex => Some(ValueType::InterfaceIndex),
            Selector::MetaMark | Selector::CtMark => Some(ValueType::Mark),
            Selector::MetaFamily => Some(ValueType::Family),
            Selector::CtState => Some(ValueType::CtState),
            Selector::CtDirection => Some(ValueType::CtDirection),
            Selector::CtStatus => Some(ValueType::CtStatus),
        }
    }

    /// The width in bits of what the selector reads: that of its data type, if it has one.
    pub fn width(self) -> u32
        ensures table { result ≡ selector_width self }
        ensures by_type { IfSome (selector_type self) (λ value_type. result ≡ type_width value_type) }
    {
        match self {
            Selector::IpProtocol
            | Selector::MetaProtocol
            | Selector::IpTtl
            | Selector::TcpFlags
            | Selector::IcmpType
            | Selector::MetaFamily
            | Selector::CtDirection => 8,
            Selector::IpLength
            | Selector::TcpSource
            | Selector::TcpDestination
            | Selector::UdpSource
            | Selector::UdpDestination
            | Selector::TransportSource
            | Selector::TransportDestination => 16,
            Selector::IpSource
            | Selector::IpDestination
            | Selector::MetaLength
            | Selector::InputIndex
            | Selector::OutputIndex
            | Selector::MetaMark
            | Selector::CtMark
            | Selector::CtState
            | Selector::CtStatus => 32,
            Selector::InputName | Selector::OutputName => 128,
        }
    }
}

impl ValueType {
    /// The data types with their names.
    pub fn with_names() -> &'static [(&'static [u8], ValueType)]
        ensures { map entry_of result.now ≡ named_types }
    {
        &TYPES
    }

    /// The data type of this name, as in `type ipv4_addr`.
    pub fn named(name: &[u8]) -> Option<ValueType>
        ensures { result ≡ type_named name.now }
    {
        find(&TYPES, name)
    }

    /// The width of the type's values in bits.
    pub fn width(self) -> u32
        ensures { result ≡ type_width self }
    {
        match self {
            ValueType::Protocol
            | ValueType::TcpFlag
            | ValueType::IcmpType
            | ValueType::Family
            | ValueType::CtDirection => 8,
            ValueType::Service => 16,
            ValueType::Address
            | ValueType::InterfaceIndex
            | ValueType::Mark
            | ValueType::CtState
            | ValueType::CtStatus => 32,
            ValueType::InterfaceName => 128,
        }
    }

    /// The number of a symbolic constant: `ssh` is 22 as an `inet_service`. `None` if the type has
    /// no such constant.
    pub fn number_of(self, word: &[u8]) -> Option<u32>
        ensures { result ≡ number_in (words_of self) word.now }
    {
        find(self.words(), word)
    }

    /// The symbolic constants of the type, each with its number; none of addresses, interfaces and
    /// marks.
    pub fn words(self) -> &'static [(&'static [u8], u32)]
        ensures { map entry_of result.now ≡ words_of self }
    {
        match self {
            ValueType::Protocol => &PROTOCOLS,
            ValueType::Service => &SERVICES,
            ValueType::TcpFlag => &TCP_FLAGS,
            ValueType::IcmpType => &ICMP_TYPES,
            ValueType::Family => &FAMILIES,
            ValueType::CtState => &CT_STATES,
            ValueType::CtDirection => &CT_DIRECTIONS,
            ValueType::CtStatus => &CT_STATUSES,
            ValueType::Address
            | ValueType::InterfaceName
            | ValueType::InterfaceIndex
            | ValueType::Mark => &[],
        }
    }
}

/// The value of the first entry with this name.
fn find<T: Copy>(entries: &[(&'static [u8], T)], name: &[u8]) -> Option<T>
    ensures { result ≡ entry_in (map entry_of entries.now) name.now }
{
    for entry in entries {
        if entry.0 == name {
            return Some(entry.1);
        }
    }
    None
}
