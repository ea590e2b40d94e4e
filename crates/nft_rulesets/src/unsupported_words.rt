//! Words of nft(8) that this profile doesn't support, and what to do about each.
ghost use Rattle.std.specs.Prelude.{◌≡◌, is_some, map};
ghost use Rattle.std.specs.List.{list_any};
ghost use Rattle.std.specs.Str.{bytes_eq};
ghost use Rattle.nft_lexer.specs.TokenViews.{terminal_of, terminals};
ghost use Rattle.nft_rulesets.specs.UnsupportedWords.{has_unsupported, is_unsupported, unsupported, word_in};

use nft_lexer::{Token, TokenKind};

pub const NO_VARIABLES: &str =
    "Variables aren't read: `nftrun fit` puts their values in, as `nft list ruleset` prints them.";

pub const ONLY_IPV4: &str =
    "Only IPv4 is run, so no packet meets this rule: take it out. What it does to IPv6 isn't shown.";

const COMMANDS: &str =
    "Commands aren't read: `nftrun fit` makes a ruleset of them, as `nft list ruleset` prints it.";

const FAMILIES: &str = "Tables of the families ip and inet are read: take this one out.";

const LINK_HEADERS: &str = "Link headers aren't read: take the match out, or the rule.";

const MATCHES: &str = "It isn't read: take the match out, or the rule.";

const PROXIES: &str = "There is no proxy: take the rule out.";

const FLOWTABLES: &str =
    "Flowtables make forwarding faster and decide nothing: take it out, and the rules with `flow`.";

const HELPERS: &str = "Helpers aren't run: take it out, and the rules with `ct helper`.";

const EXPIRY: &str = "Elements don't expire: take it out.";

const HASHES: &str = "Nothing is drawn by chance or by a hash: write one value.";

const CHANCE: &str = "Ports aren't drawn by chance: take it out.";

static UNSUPPORTED: [(&[u8], &str); 48] = [
    (b"define", NO_VARIABLES),
    (b"undefine", NO_VARIABLES),
    (b"redefine", NO_VARIABLES),
    (
        b"include",
        "Other files aren't read: `nftrun fit` puts them in, as `nft list ruleset` prints them.",
    ),
    (b"add", COMMANDS),
    (b"create", COMMANDS),
    (b"insert", COMMANDS),
    (b"replace", COMMANDS),
    (b"delete", COMMANDS),
    (b"destroy", COMMANDS),
    (b"list", COMMANDS),
    (b"reset", COMMANDS),
    (b"rename", COMMANDS),
    (b"monitor", COMMANDS),
    (b"ip6", ONLY_IPV4),
    (b"icmpv6", ONLY_IPV4),
    (b"arp", LINK_HEADERS),
    (b"bridge", FAMILIES),
    (b"netdev", FAMILIES),
    (b"ether", LINK_HEADERS),
    (b"vlan", LINK_HEADERS),
    (
        b"reject",
        "Write `drop`, without `with ..`: the same for the packet, no answer is shown. `nftrun fit` rewrites it.",
    ),
    (
        b"limit",
        "Take `limit ..` out, with `over` the whole rule, or let `nftrun fit` rewrite it.",
    ),
    (
        b"quota",
        "Take `quota ..` out, with `over` the whole rule, or let `nftrun fit` rewrite it.",
    ),
    (
        b"queue",
        "Packets aren't handed to programs: write `accept` or `drop`, without `num ..` or `to ..`.",
    ),
    (
        b"dup",
        "Packets aren't copied: take it out with what belongs to it.",
    ),
    (
        b"fwd",
        "Routes alone say where a packet leaves: take the rule out.",
    ),
    (b"tproxy", PROXIES),
    (b"synproxy", PROXIES),
    (b"flowtable", FLOWTABLES),
    (b"flow", FLOWTABLES),
    (b"helper", HELPERS),
    (b"expectation", HELPERS),
    (b"timeout", EXPIRY),
    (b"expires", EXPIRY),
    (
        b"dynamic",
        "Rules don't change sets: take the flag out, and list what is in the set as `elements`.",
    ),
    (b"gc-interval", EXPIRY),
    (b"numgen", HASHES),
    (b"jhash", HASHES),
    (b"symhash", HASHES),
    (
        b"fib",
        "Routes aren't asked: for `fib daddr type local` write the box's addresses, as `ip daddr { 192.168.1.1, 203.0.113.1 }`.",
    ),
    (b"rt", MATCHES),
    (b"socket", MATCHES),
    (b"osf", MATCHES),
    (b"random", CHANCE),
    (b"fully-random", CHANCE),
    (
        b"persistent",
        "There is one address to translate to: take it out.",
    ),
    (b"dscp", MATCHES),
];

/// What to do about a word that isn't supported; `None` where it's none of those.
pub fn instead_of(word: &[u8]) -> Option<&'static str>
    ensures { is_some result ≡ list_any (bytes_eq word.now) unsupported }
{
    find(&UNSUPPORTED, word)
}

/// What stands beside a word.
fn find(rows: &[(&'static [u8], &'static str)], word: &[u8]) -> Option<&'static str>
    ensures { is_some result ≡ list_any (bytes_eq word.now) (map word_in rows.now) }
{
    for row in rows {
        if row.0 == word {
            return Some(row.1);
        }
    }
    None
}

/// Whether the token is an unsupported word.
fn is_unsupported(token: &Token) -> bool
    ensures { result ≡ is_unsupported (terminal_of token.now.kind token.now.text.now) }
{
    match token.kind {
        TokenKind::Word => instead_of(&token.text).is_some(),
        _ => false,
    }
}

/// Whether some token is an unsupported word.
pub fn has_unsupported(tokens: &[Token]) -> bool
    ensures { result ≡ has_unsupported (terminals tokens.now) }
{
    for token in tokens {
        if is_unsupported(token) {
            return true;
        }
    }
    false
}
