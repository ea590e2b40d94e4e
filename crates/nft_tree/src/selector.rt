//! Selectors, and the data types of what they read (nft(8), "Expressions", "Data types").

/// The field of a packet, of its metadata or of its connection that a match reads.
#[derive(Clone, Copy)]
pub enum Selector {
    /// `ip saddr`
    IpSource,
    /// `ip daddr`
    IpDestination,
    /// `ip protocol`
    IpProtocol,
    /// `meta l4proto`
    MetaProtocol,
    /// `ip ttl`
    IpTtl,
    /// `ip length`
    IpLength,
    /// `meta length`
    MetaLength,
    /// `tcp sport`
    TcpSource,
    /// `tcp dport`
    TcpDestination,
    /// `udp sport`
    UdpSource,
    /// `udp dport`
    UdpDestination,
    /// `th sport`
    TransportSource,
    /// `th dport`
    TransportDestination,
    /// `tcp flags`
    TcpFlags,
    /// `icmp type`
    IcmpType,
    /// `iifname`, `meta iifname`
    InputName,
    /// `oifname`, `meta oifname`
    OutputName,
    /// `iif`, `meta iif`
    InputIndex,
    /// `oif`, `meta oif`
    OutputIndex,
    /// `meta mark`
    MetaMark,
    /// `ct mark`
    CtMark,
    /// `meta nfproto`
    MetaFamily,
    /// `ct state`
    CtState,
    /// `ct direction`
    CtDirection,
    /// `ct status`
    CtStatus,
}

/// A data type by its name (nft(8), "Data types").
#[derive(Clone, Copy, PartialEq, Eq)]
pub enum ValueType {
    /// `ipv4_addr`
    Address,
    /// `inet_proto`
    Protocol,
    /// `inet_service`
    Service,
    /// `tcp_flag`
    TcpFlag,
    /// `icmp_type`
    IcmpType,
    /// `ifname`
    InterfaceName,
    /// `iface_index`
    InterfaceIndex,
    /// `mark`
    Mark,
    /// `nf_proto`
    Family,
    /// `ct_state`
    CtState,
    /// `ct_dir`
    CtDirection,
    /// `ct_status`
    CtStatus,
}
