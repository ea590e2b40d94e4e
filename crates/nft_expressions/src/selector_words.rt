//! The keywords of selectors.
ghost use Rattle.std.specs.Prelude.{◌≡◌, map};
ghost use Rattle.nft_tree.specs.ValueTypes.{entry_of};
ghost use Rattle.nft_expressions.specs.Selectors.{keywords_after, named_headers, without_meta};

use nft_tree::Selector;

/// Keywords, each with its selector.
pub type Keywords = &'static [(&'static [u8], Selector)];

/// Keywords, each with its selector.
pub(crate) type Named<const N: usize> = [(&'static [u8], Selector); N];

pub(crate) static IN_IP: Named<5> = [
    (b"saddr", Selector::IpSource),
    (b"daddr", Selector::IpDestination),
    (b"protocol", Selector::IpProtocol),
    (b"ttl", Selector::IpTtl),
    (b"length", Selector::IpLength),
];

pub(crate) static IN_META: Named<8> = [
    (b"l4proto", Selector::MetaProtocol),
    (b"length", Selector::MetaLength),
    (b"mark", Selector::MetaMark),
    (b"nfproto", Selector::MetaFamily),
    (b"iifname", Selector::InputName),
    (b"oifname", Selector::OutputName),
    (b"iif", Selector::InputIndex),
    (b"oif", Selector::OutputIndex),
];

pub(crate) static IN_TCP: Named<3> = [
    (b"sport", Selector::TcpSource),
    (b"dport", Selector::TcpDestination),
    (b"flags", Selector::TcpFlags),
];

pub(crate) static IN_UDP: Named<2> = [
    (b"sport", Selector::UdpSource),
    (b"dport", Selector::UdpDestination),
];

pub(crate) static IN_TH: Named<2> = [
    (b"sport", Selector::TransportSource),
    (b"dport", Selector::TransportDestination),
];

pub(crate) static IN_ICMP: Named<1> = [(b"type", Selector::IcmpType)];

pub(crate) static IN_CT: Named<4> = [
    (b"mark", Selector::CtMark),
    (b"state", Selector::CtState),
    (b"direction", Selector::CtDirection),
    (b"status", Selector::CtStatus),
];

/// The selectors that may be written without `meta`.
pub(crate) static WITHOUT_META: Named<4> = [
    (b"iifname", Selector::InputName),
    (b"oifname", Selector::OutputName),
    (b"iif", Selector::InputIndex),
    (b"oif", Selector::OutputIndex),
];

/// What a selector of two words begins with.
#[derive(Clone, Copy)]
pub enum Header {
    /// `ip`
    Ip,
    /// `meta`
    Meta,
    /// `tcp`
    Tcp,
    /// `udp`
    Udp,
    /// `th`
    Transport,
    /// `icmp`
    Icmp,
    /// `ct`
    Ct,
}

static HEADERS: [(&[u8], Header); 7] = [
    (b"ip", Header::Ip),
    (b"meta", Header::Meta),
    (b"tcp", Header::Tcp),
    (b"udp", Header::Udp),
    (b"th", Header::Transport),
    (b"icmp", Header::Icmp),
    (b"ct", Header::Ct),
];

impl Header {
    /// What selectors of two words begin with, each by its word.
    pub fn with_names() -> &'static [(&'static [u8], Header)]
        ensures { map entry_of result.now ≡ named_headers }
    {
        &HEADERS
    }

    /// The keywords after it, each with the selector that both are.
    pub fn keywords(self) -> Keywords
        ensures { map entry_of result.now ≡ keywords_after self }
    {
        match self {
            Header::Ip => &IN_IP,
            Header::Meta => &IN_META,
            Header::Tcp => &IN_TCP,
            Header::Udp => &IN_UDP,
            Header::Transport => &IN_TH,
            Header::Icmp => &IN_ICMP,
            Header::Ct => &IN_CT,
        }
    }
}

/// The keywords that are selectors by themselves.
pub fn without_header() -> Keywords
    ensures { map entry_of result.now ≡ without_meta }
{
    &WITHOUT_META
}
