//! What nft(8) knows of a rule's packets from left to right: their family and transport protocol.
use crate::findings::Warning;
use crate::intervals::number_of;
use nft_tree::{Family, Selector, Value};

const ICMP: u128 = 1;

pub(crate) const TCP: u128 = 6;

pub(crate) const UDP: u128 = 17;

/// The protocols that nft 1.0.6 knows behind an IPv4 header: ICMP, IGMP, TCP, UDP, DCCP, ESP, AH,
/// ICMPv6, IPComp, SCTP, UDP-Lite.
static KNOWN: [u128; 11] = [ICMP, 2, TCP, UDP, 33, 50, 51, 58, 108, 132, 136];

/// The numbers of families (linux/netfilter.h).
const NFPROTO_IPV4: u128 = 2;

const NFPROTO_IPV6: u128 = 10;

/// The family of a rule's packets.
#[derive(Clone, Copy)]
enum Network {
    /// None was named: both of a table of family inet.
    Any,
    Ipv4,
    Ipv6,
    /// A family that a table of family inet has no packets of.
    Other,
}

/// The transport protocols that a rule has named.
#[derive(Clone, Copy)]
enum Transport {
    None,
    One(u128),
    Several,
}

/// What a rule has named so far.
#[derive(Clone, Copy)]
pub(crate) struct Protocols {
    is_inet: bool,
    network: Network,
    transport: Transport,
}

/// The transport protocol that alone has what a selector reads.
pub(crate) fn transport_of(selector: Selector) -> Option<u128> {
    match selector {
        Selector::TcpSource | Selector::TcpDestination | Selector::TcpFlags => Some(TCP),
        Selector::UdpSource | Selector::UdpDestination => Some(UDP),
        Selector::IcmpType => Some(ICMP),
        _ => None,
    }
}

impl Protocols {
    pub(crate) fn new(family: Family) -> Protocols {
        let is_inet = matches!(family, Family::Inet);
        Protocols {
            is_inet,
            network: if is_inet { Network::Any } else { Network::Ipv4 },
            transport: Transport::None,
        }
    }

    /// Reads a selector, and returns what nft refuses of it.
    pub(crate) fn read(&mut self, selector: Selector) -> Option<Warning> {
        match selector {
            Selector::IpSource
            | Selector::IpDestination
            | Selector::IpProtocol
            | Selector::IpTtl
            | Selector::IpLength => match self.network {
                Network::Ipv6 | Network::Other => return Some(
                    "nft refuses IPv4 in a rule for another family",
                ),
                Network::Any | Network::Ipv4 => self.network = Network::Ipv4,
            },
            Selector::IcmpType if matches!(self.network, Network::Any) && !self.has_transport() => {
                self.network = Network::Ipv4;
            }
            Selector::MetaFamily if !self.is_inet => return Some(
                "nft refuses `meta nfproto` in a table of family ip",
            ),
            _ => {}
        }
        self.add_transport(transport_of(selector)?)
    }

    /// Adds a transport protocol, and returns what nft refuses of a selector that asks for it.
    fn add_transport(&mut self, protocol: u128) -> Option<Warning> {
        match self.transport {
            Transport::None => self.transport = Transport::One(protocol),
            Transport::One(known) if known == protocol => {}
            Transport::One(_) | Transport::Several => {
                self.transport = Transport::Several;
                return Some("nft refuses a rule that speaks of two protocols");
            }
        }
        None
    }

    /// Learns what a match with a value says. Of a value nft refuses nothing.
    pub(crate) fn learn(&mut self, selector: Selector, value: &Value) {
        let Some(number) = number_of(value, selector.kind()) else {
            return;
        };
        match selector {
            Selector::IpProtocol if !KNOWN.contains(&number) => {}
            Selector::IpProtocol | Selector::MetaProtocol => _ = self.add_transport(number),
            Selector::MetaFamily if self.is_inet => {
                self.network = match number {
                    NFPROTO_IPV4 => Network::Ipv4,
                    NFPROTO_IPV6 => Network::Ipv6,
                    _ => Network::Other,
                };
            }
            _ => {}
        }
    }

    /// Whether a match of the transport protocol was met.
    pub(crate) fn has_transport(self) -> bool {
        !matches!(self.transport, Transport::None)
    }

    /// What nft refuses of `snat` or `dnat`; `named` says whether `ip` is before its `to`.
    pub(crate) fn judge_nat(self, named: bool) -> Option<Warning> {
        match self.network {
            Network::Ipv6 => Some("nft refuses an IPv4 address in a rule for another family"),
            Network::Any | Network::Other if !named => Some(
                "nft wants `ip` before `to` in a table of family inet",
            ),
            _ => None,
        }
    }
}
