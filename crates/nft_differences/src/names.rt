//! Words of nft's grammar that can't be names in a text for its version 1.0.6.
use crate::findings::Warning;

/// Words that can't be a name anywhere, as one text: a table of so many texts takes the prover long.
const WORDS: &str = "
accept add all and auto-merge bridge cgroup chain comment constant continue counter cpu
create ct day define delete describe device devices drop dst dup dynamic element
elements eq expires export exthdr fib flags flow flowtable flush frag fwd gc-interval ge
get goto gt handle hbh hook hour ibriport iif iifgroup iifname iiftype import include
index inet insert interval ipsec jhash jump le limit list log lshift lt map mark
masquerade meta meter mh monitor ne netdev nftrace not notrack numgen obriport offload
oif oifgroup oifname oiftype or osf pkttype policy position priority queue quota random
redefine reject rename replace return rshift rt rt0 rt2 rtclassid rule ruleset secmark
set size skgid skuid socket srh symhash synproxy table th time timeout tproxy type
typeof undefine update vmap xor xt
";

/// Words that can be the name of an interface in a list alone.
const PROTOCOL_WORDS: &str =
    "ah comp dccp esp exists icmp icmpv6 igmp missing redirect sctp tcp udp udplite";

/// Words that can be the name of an interface alone.
const FAMILY_WORDS: &str = "arp dnat ecn ether ip ip6 reset snat vlan";

pub(crate) const RESERVED_NAME: Warning = "nft refuses this name: it is a word of its grammar";

/// Whether a table, a chain, a set or a map can't have this name.
pub(crate) fn is_reserved(name: &[u8]) -> bool {
    is_reserved_interface(name, false) || has_word(FAMILY_WORDS, name)
}

/// Whether an interface can't be named by this word without quotes, in a list or in a match.
pub(crate) fn is_reserved_interface(name: &[u8], in_list: bool) -> bool {
    has_word(WORDS, name) || (!in_list && has_word(PROTOCOL_WORDS, name))
}

/// Whether a name is one of some words.
fn has_word(words: &str, name: &[u8]) -> bool {
    words.split_whitespace().any(|word| word.as_bytes() == name)
}
