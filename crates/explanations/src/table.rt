//! What each code means. `scripts/codes` writes docs/CHECK.md from these tables.

use crate::explanation::Explanation;

/// The codes of the text of the ruleset.
pub const TEXT: [Explanation; 6] = [
    Explanation {
        code: "E01",
        sentence: "A character begins nothing that a ruleset may have.",
        paragraph: "The line holds a character that begins no word, number, string or mark of a
ruleset, such as `!` alone in `tcp flags ! syn`.

Write `!=` for \"is not\". `*` is allowed within quotes, as in `iifname \"ppp*\"`;
the catch-all element `*` isn't supported.",
    },
    Explanation {
        code: "E02",
        sentence: "A string has no closing quote on its line.",
        paragraph: "A string begins and ends on one line: close it. It can't hold a quote.",
    },
    Explanation {
        code: "E03",
        sentence: "A number or an address is none.",
        paragraph: "A number is below 2^64, a decimal number and a group of an address have no
leading zero, and a group is at most 255: `192.168.1.256` and `010` are E03.",
    },
    Explanation {
        code: "E04",
        sentence: "The text of the ruleset is over 1,048,576 bytes.",
        paragraph: "Split it, or move long lists of addresses out.",
    },
    Explanation {
        code: "E05",
        sentence: "The grammar doesn't allow the text.",
        paragraph: "The text doesn't follow the syntax, as `tcp dport accept`, where a port is
wanted. A word after a selector is one that its type lists, so `tcp dport
telnet` is E05, and `tcp dport 23` isn't. docs/SPEC.md has the grammar.",
    },
    Explanation {
        code: "E06",
        sentence: "The grammar doesn't allow the text, and it has a word of nft(8) that isn't supported.",
        paragraph: "One of the words is one of nft(8) that is left out, such as `reject`:
docs/SPEC.md, section 1.4, lists them. The word counts wherever it
stands, as a chain's name too, so the fault that keeps the text from being
read may stand elsewhere.",
    },
];

/// The codes of the box file.
pub const PLANT: [Explanation; 5] = [
    Explanation {
        code: "B1",
        sentence: "A line of the box file is none of the known ones, or there isn't exactly one `default` line.",
        paragraph: "The lines are `interface INDEX NAME ADDRESS/LENGTH`, `route PREFIX/LENGTH
NAME`, `default NAME` and `idle KIND SECONDS`, as in `interface 3 wan
203.0.113.1/24`.

Numbers have no leading zero, a route's host bits are zero, and names have at
most 15 letters, digits, `_`, `-`, `.`. docs/BOX.md has the format.",
    },
    Explanation {
        code: "B2",
        sentence: "The box file says one thing twice.",
        paragraph: "An index has one name and a name one index, an address stands once, a `route`
prefix once, and there is at most one `idle` line for a kind.",
    },
    Explanation {
        code: "B3",
        sentence: "A line of the box file names no interface.",
        paragraph: "A `route` or the `default` line has the name of an `interface` line, which may
stand before or after it.",
    },
    Explanation {
        code: "B4",
        sentence: "The box file is too large.",
        paragraph: "It has at most 1,048,576 bytes, 64 `interface` lines and 1,024 `route` lines.",
    },
    Explanation {
        code: "B5",
        sentence: "An idle limit is out of its range.",
        paragraph: "At least what the RFCs ask: `udp` 120 seconds (RFC 4787, REQ-5), `established`
7440 and `transitory` 240 (RFC 5382, REQ-5), `ask` and `other` 1; at most
604,800 seconds, a week.",
    },
];

/// The codes of the ruleset as a whole.
pub const RULESET: [Explanation; 15] = [
    Explanation {
        code: "N01",
        sentence: "A name stands twice.",
        paragraph: "Two tables of one family and name; two chains of a table with one name; two
sets or maps of a table with one name. A set and a map clash, a chain and a
set don't. `table t` is of family ip.

Give the second a name of its own.",
    },
    Explanation {
        code: "N02",
        sentence: "A jump or goto leads to no chain of its table.",
        paragraph: "Every jump and goto counts: in rules, and in the data of every map, also of
one that no rule uses.

Write that chain, or the name of one that stands. A chain of another table
can't be called.",
    },
    Explanation {
        code: "N03",
        sentence: "A name behind `@` is no set or map of its table.",
        paragraph: "Declare it in this table, as `set lan { type ipv4_addr; }`.",
    },
    Explanation {
        code: "N04",
        sentence: "Chains call each other in a cycle.",
        paragraph: "A statement leads to the chain of its verdict, or, with `vmap`, to the chains
of its map's verdicts, also behind a verdict in its rule. `map` statements and
maps that no rule uses lead nowhere. A cycle is a path from a chain to itself.

End one of the chains with `return`, which goes back to the caller.",
    },
    Explanation {
        code: "N05",
        sentence: "A path from a chain has more than 16 jumps.",
        paragraph: "Depth counts the jumps of a path that begins in a chain; gotos are free. Every
chain counts, also one that nothing leads to, and a map's jumps on the paths
of the rules that look it up.

Use `goto` where nothing follows in the caller: it stores no place.",
    },
    Explanation {
        code: "N06",
        sentence: "The ruleset costs too much.",
        paragraph: "A chain costs, for each statement, 1 and what it leads to (for a verdict map
the dearest of its targets); a ruleset costs the sum over its base chains of 1
and the chain, output chains too. The greatest cost is 65,536.

Call a chain once, or look the verdict up in a map.",
    },
    Explanation {
        code: "N07",
        sentence: "A jump or goto leads to a base chain.",
        paragraph: "Packets come to a base chain from its hook alone. Every jump and goto counts:
in rules, and in the data of every map, also of one that no rule uses.

Put the common rules into a chain without a `type` line, and jump to that from
both.",
    },
    Explanation {
        code: "N08",
        sentence: "Types don't fit.",
        paragraph: "A type counts as its name, one without a name (`ip ttl`, `ip length`, `meta
length`) as its width. Refused are: a set or map with keys of another type
than the selector's; a map where a set is wanted, or the reverse; a verdict
where a value is wanted, or the reverse, in maps with and without a name; a
map's data that isn't mark (`meta mark set`, `ct mark set`) or ipv4_addr
(`snat`, `dnat`); `<`, `>`, `<=`, `>=` against a range or a prefix; an order
or a range of another type than ipv4_addr, inet_service, mark or one without a
name (ranges also of inet_proto and icmp_type); values joined over 128 bits,
or of another number of parts than their set.

Compare `tcp dport @ports`, or declare the set with `type ipv4_addr`.",
    },
    Explanation {
        code: "N09",
        sentence: "A value isn't of its type, or is out of its bounds.",
        paragraph: "A value that isn't of its type: too wide, a word that the type doesn't list,
an address or a string elsewhere than its types have them, an interface's name
that isn't 1 to 15 bytes without a backslash (with a last `*`: before it), a
prefix over 32 or of another type than ipv4_addr, a range whose ends are
reversed. Numbers out of bounds: a mark of 2^32 or more, flags of TCP over
255, ports of NAT outside 1 to 65535 or reversed, a priority (name and number
together) outside 32 bits with a sign, a log's prefix over 127 bytes.",
    },
    Explanation {
        code: "N10",
        sentence: "A NAT statement has no place in its chain.",
        paragraph: "`snat` and `masquerade` in a chain that is, or is reached from, a base chain
other than type nat on postrouting; `dnat` and `redirect` likewise for type
nat on prerouting or output. Chains that nothing reaches may have them.

Move the rule into a chain `type nat hook postrouting`; destinations are
translated at prerouting and output.",
    },
    Explanation {
        code: "N11",
        sentence: "A chain of type nat has no place at its hook, or a priority that it can't have.",
        paragraph: "Type nat on input or forward, or with a priority of at most -200.

Hook it at prerouting, output or postrouting, with a priority above -200.",
    },
    Explanation {
        code: "N12",
        sentence: "Elements of a map contradict each other.",
        paragraph: "Two elements of a map share a number and give different verdicts or numbers.
Numbers are compared, not texts: `ssh` is 22, and an interface's name on the
box is its index.

Leave one of them out. Elements that overlap may stand where they give the
same.",
    },
    Explanation {
        code: "N13",
        sentence: "A rule names an interface that isn't on the box.",
        paragraph: "A value of iface_index (`iif`, `oif`), in a match, an element or a map's data,
whose number or name no interface of the box has. 0 and names of any form are
N13; a number of 2^32 or more is N09.

Write a name of the box file, or `iifname \"eth9\"`, which compares names and
asks for no interface.",
    },
    Explanation {
        code: "N14",
        sentence: "A statement stands behind the end of its rule.",
        paragraph: "A statement behind a verdict, a `vmap` or a NAT statement of its rule: nothing
comes by it. A `vmap` that is the last is fine.

Write `counter accept`, not `accept counter`.",
    },
    Explanation {
        code: "N15",
        sentence: "The ruleset is too large.",
        paragraph: "More than 16,384 rules; more than 65,536 elements in all sets and maps, those
without a name in rules included; a counter that starts with more than 2^62
packets or bytes.",
    },
];

/// The codes of the capture.
pub const CAPTURE: [Explanation; 6] = [
    Explanation {
        code: "P1",
        sentence: "The file is no classic libpcap file.",
        paragraph: "pcapng (Wireshark, dumpcap): `editcap -F pcap in.pcapng out.pcap`, or `tcpdump
-r in.pcapng -w out.pcap`; with Ethernet this loses the interface that each
packet entered by. Compressed: `gunzip` it, or pipe it: `zcat in.pcap.gz |
nftrun run RULES BOX /dev/stdin OUT`. docs/CAPTURES.md says more.",
    },
    Explanation {
        code: "P2",
        sentence: "The capture has another version than 2.4.",
        paragraph: "No current program writes one: let tcpdump rewrite it.",
    },
    Explanation {
        code: "P3",
        sentence: "The capture has a link type that isn't read.",
        paragraph: "Ethernet (1), raw IP (101) and LINUX_SLL2 (276) are read. 113, LINUX_SLL
(`tcpdump -i any` of earlier versions), doesn't tell the interface: capture
anew with `-y LINUX_SLL2`. `capinfos -E in.pcap` tells a file's type.
docs/CAPTURES.md says more.",
    },
    Explanation {
        code: "P4",
        sentence: "A record of the capture is damaged.",
        paragraph: "A record claims more than 262,144 bytes, or a fraction of a second of a whole
second or more: the file is damaged from that record on. OUT and the report
have what came before.",
    },
    Explanation {
        code: "P5",
        sentence: "The capture ends within its header of 24 bytes.",
        paragraph: "It is empty or no capture. An end inside a later record is no error but status
7.",
    },
    Explanation {
        code: "P7",
        sentence: "The capture has more than 4,294,967,296 records.",
        paragraph: "`editcap -c 1000000000 in.pcap part.pcap` splits it.",
    },
];
