//! Words of nft(8) that aren't read, and what to do about them.

use crate::vocabulary::lists;
use nft_rulesets::{ONLY_IPV4, instead_of};

/// Where a word stands.
#[derive(Clone, Copy)]
pub struct Place<'a> {
    /// The word before it.
    pub before: &'a str,
    pub is_in_rule: bool,
    /// Whether `log` stands somewhere before it.
    pub is_behind_log: bool,
}

/// What becomes of what others than nft write.
pub const OF_IPTABLES: &str =
    "This is of iptables: `iptables-restore-translate -f FILE` prints what `iptables-save` wrote as \
     commands of nft, and `nftrun fit` makes a ruleset of them.";

pub const OF_JSON: &str =
    "This is JSON, as of `nft -j list ruleset`: take what `nft list ruleset` prints, without `-j`.";

pub const COMMENT_MARK: &str = "A comment begins with `#`.";

/// What to do about a word at a place, where it isn't read there.
pub fn left_out(word: &str, place: Place<'_>) -> Option<&'static str> {
    behind(place.before, word)
        .or(field_of(place.before, word))
        .or(there(word, place))
        .or(instead_of(word.as_bytes()))
}

/// What to do about a word behind another one, whatever it means elsewhere.
fn behind(before: &str, word: &str) -> Option<&'static str> {
    Some(match (before, word) {
        ("table", "ip6") => {
            "Only IPv4 is run: without this table nothing of that changes, but what the table does to IPv6 isn't shown. `nftrun fit` leaves it out."
        }
        ("table", "arp") => "Tables of the families ip and inet are read: take this one out.",
        ("policy", "reject") => "Write `drop`.",
        ("l4proto" | "protocol" | "{" | ",", "icmpv6") => "Write `ipv6-icmp`.",
        ("type", "ipv6_addr") => "Only IPv4 is run: take it out, and the rules that use it.",
        ("type", "ether_addr") =>
            "Link headers aren't read: take it out, and the rules that use it.",
        ("type", "route") => "Chains of type route aren't run: write `filter`.",
        ("type", _) if lists(UNREAD_TYPES, word) => {
            "No selector that is read has this type: take it out."
        }
        ("hook", "ingress" | "egress") => {
            "Chains stand at prerouting, input, forward, output or postrouting: take this one out."
        }
        ("tcp", "option") => "Options of TCP are neither read nor set: take the rule out.",
        ("ct", "timeout") => "Timeouts stand in the box file, as `idle udp 120`: take it out.",
        ("ct", "count") => {
            "Take `ct count ..` out, with `over` the whole rule, or let `nftrun fit` rewrite it."
        }
        ("counter", "name") => "Counters have no names: write `counter` alone.",
        _ => return None,
    })
}

/// Names of types that no selector has.
const UNREAD_TYPES: &str =
    "ct_id ct_zone ct_label ether_type arp_op realm classid pkt_type uid gid time day hour";

/// What to do about a field behind its header that isn't one of those that are read.
fn field_of(header: &str, word: &str) -> Option<&'static str> {
    let (fields, sentence) = match header {
        "ct" => (
            "zone id bytes packets avgpkt label expiration l3proto protocol proto-src proto-dst saddr daddr original reply event",
            "Of `ct`, state, status, direction and mark are read: take the match out, or the rule.",
        ),
        "meta" => (
            "skuid skgid pkttype priority protocol cpu cgroup iifgroup oifgroup iiftype oiftype rtclassid nftrace secmark ibrname obrname iifkind oifkind hour day time broute",
            "Of `meta`, l4proto, nfproto, mark, length and the interfaces are read: take the match out, or the rule.",
        ),
        "ip" => (
            "version hdrlength id frag-off checksum ecn option",
            "Of `ip`, saddr, daddr, protocol, ttl and length are read: take the match out, or the rule.",
        ),
        "tcp" => (
            "window sequence ackseq doff urgptr checksum",
            "Of `tcp`, sport, dport and flags are read: take the match out, or the rule.",
        ),
        "udp" => (
            "length checksum",
            "Of `udp`, sport and dport are read: take the match out, or the rule.",
        ),
        "icmp" => (
            "code id sequence mtu gateway checksum",
            "Of `icmp`, type is read: take the match out, or the rule.",
        ),
        _ => return None,
    };
    lists(fields, word).then_some(sentence)
}

/// What to do about a word that isn't read in a rule, or outside of rules.
fn there(word: &str, place: Place<'_>) -> Option<&'static str> {
    Some(match place.is_in_rule {
        false if lists("device devices", word) => "Chains stand at no device: take it out.",
        false if lists("counter secmark", word) => {
            "There are no named objects: take it out, and write `counter` in the rules."
        }
        false if lists("last ipsec tunnel", word) => "It isn't read: take it out.",
        // A command, as `list`.
        false if word == "flush" => return instead_of(b"list"),
        true if place.is_behind_log && lists("level group snaplen queue-threshold flags", word) => {
            "Of `log`, `prefix` alone is read: take the option out."
        }
        true if lists("add update delete", word) => {
            "Rules don't change sets: take the statement out, and list what is in the set as `elements`."
        }
        true if word == "meter" => "Meters aren't read: take it out up to its `}`, or the rule.",
        true if lists("sctp dccp udplite esp ah comp igmp gre", word) => {
            "This header isn't read: compare `ip protocol`."
        }
        true if word == "xt" => "Matches of iptables aren't read: write them as nft's.",
        true if lists("ctstate conntrack", word) => "Write `ct state`.",
        true if lists("frag exthdr hbh dst mh srh", word) => ONLY_IPV4,
        true if lists(UNREAD_MATCHES, word) => "It isn't read: take the match out, or the rule.",
        _ => return None,
    })
}

/// What begins matches in rules that aren't read, and `last`.
const UNREAD_MATCHES: &str =
    "skuid skgid pkttype cpu cgroup iifgroup oifgroup iiftype oiftype rtclassid last ipsec tunnel exists missing";
