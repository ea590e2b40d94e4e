//! Rulesets as code: how many steps are left of their rules, how many rules are merged, into how many
//! tables, and dropped, how many indexes there are on them, and whose verdict a packet has.
ghost use Rattle.std.specs.Prelude.{◌+◌, ◌≤◌, IfSome, length};

use crate::support::{check_row, code_of, repeated};
use filter_vm::{Code, Events, Start, run};
use ip_headers::Transport;
use nft_tree::Hook;
use rule_meaning::{CtFacts, Event, Facts, HookVerdict, Interface, Packet};
use std::process::Abort;

/// An interface, and a route to all.
const BOX: &[u8] = b"interface 2 lan 192.168.1.1/24
route 0.0.0.0/0 lan
default lan
";

/// A source address, the rule of the base chain whose verdict a packet from there has, if one has,
/// and whether the packet is dropped.
type ExpectedVerdict = (u32, Option<u32>, bool);

/// A ruleset whose last chain is a base chain; its steps, tables, merged and dropped rules, and last its
/// indexes; and the verdicts of packets.
type Row = (&'static [u8], [usize; 5], &'static [ExpectedVerdict]);

const TEN_ONE: u32 = 0x0a01_0203;

const ELEVEN: u32 = 0x0b00_0001;

/// Nested matches with verdicts; a rule whose values two earlier ones list together, and one with a
/// value more; a counter and another selector between rules of one selector; a rule that writes the
/// mark that the next one matches; a rule after one that always gives a verdict; counters, logs and
/// a jump end no chain, and what comes after `return` and `goto` is dropped in each chain; a match, a
/// mark and a jump before the verdict don't end it either. Of named sets, one that an earlier set
/// contains, and an empty one among others; a counter, another match and a jump between rules that
/// would be merged. A named set three times, with one between that has a value more, and a prefix
/// within it; concatenations of the same selectors, and of the same in another order; a value with
/// `==`, a range and a prefix. A rule alone is in no run, even with an empty set; where all sets of a
/// run are empty, none of its rules is left; one of a run that no packet gets to is dropped. Two runs
/// that another rule parts; one of concatenations beside one of others; one whose first rule has an
/// empty set, and one of which a set leaves the first rule alone; runs of two chains.
static MERGED: [Row; 21] = [
    (
        b"table ip t { chain fwd { type filter hook forward priority 0;
ip saddr 10.0.0.0/8 accept; ip saddr 10.1.0.0/16 drop; ip saddr 11.0.0.0/8 drop } }",
        [5, 1, 2, 1, 1],
        &[
            (TEN_ONE, Some(1), false),
            (ELEVEN, Some(3), true),
            (0x0c00_0001, None, false),
        ],
    ),
    (
        b"table ip t { chain fwd { type filter hook forward priority 0;
ip saddr { 10.0.0.0/9, 11.0.0.0/8 } accept; ip saddr 10.128.0.0/9 drop
ip saddr 10.0.0.0/8 drop; ip saddr 10.0.0.0-12.0.0.0 return } }",
        [7, 1, 3, 1, 1],
        &[
            (TEN_ONE, Some(1), false),
            (ELEVEN, Some(1), false),
            (0x0ac0_0000, Some(2), true),
            (0x0c00_0000, Some(4), false),
            (0x0c00_0001, None, false),
        ],
    ),
    (
        b"table ip t { chain fwd { type filter hook forward priority 0;
ip saddr 10.0.0.0/8 return; counter; ip saddr 10.1.0.0/16 drop
ip daddr 0.0.0.1 continue; ip saddr 10.1.0.0/16 drop } }",
        [10, 0, 0, 0, 0],
        &[(TEN_ONE, Some(1), false)],
    ),
    (
        b"table ip t { chain fwd { type filter hook forward priority 0;
ip saddr 10.1.2.3 meta mark set 1; meta mark 1 drop } }",
        [5, 0, 0, 0, 0],
        &[(TEN_ONE, Some(2), true), (ELEVEN, None, false)],
    ),
    (
        b"table ip t { chain fwd { type filter hook forward priority 0;
accept; counter drop } }",
        [2, 0, 0, 1, 0],
        &[(TEN_ONE, Some(1), false)],
    ),
    (
        b"table ip t { chain out { counter log goto end; accept; drop }
chain end { return; counter }
chain fwd { type filter hook forward priority 0; policy drop;
counter; jump end; log; continue; counter log return; ip saddr 10.0.0.0/8 accept; accept } }",
        [14, 0, 0, 5, 0],
        &[(TEN_ONE, Some(2), true)],
    ),
    (
        b"table ip t { chain end { counter }
chain fwd { type filter hook forward priority 0;
ip saddr 10.0.0.0/8 drop; meta mark set 1 drop; jump end; accept; drop } }",
        [9, 0, 0, 1, 0],
        &[(TEN_ONE, Some(1), true), (ELEVEN, Some(2), true)],
    ),
    (
        b"table ip t { set ten { type ipv4_addr; elements = { 10.0.0.0/8 } }
set ten_one { type ipv4_addr; elements = { 10.1.0.0/16 } }
chain fwd { type filter hook forward priority 0;
ip saddr @ten accept; ip saddr @ten_one drop; ip saddr 11.0.0.0/8 drop } }",
        [5, 1, 2, 1, 1],
        &[
            (TEN_ONE, Some(1), false),
            (ELEVEN, Some(3), true),
            (0x0c00_0001, None, false),
        ],
    ),
    (
        b"table ip t { set none { type ipv4_addr }
chain fwd { type filter hook forward priority 0;
ip saddr 10.0.0.0/16 drop; ip saddr @none accept; ip saddr 10.1.0.0/16 drop } }",
        [5, 1, 2, 1, 1],
        &[(TEN_ONE, Some(3), true)],
    ),
    (
        b"table ip t { chain end { }
chain fwd { type filter hook forward priority 0;
ip saddr 10.0.0.0/16 drop; ip saddr 10.1.0.0/16 counter drop; ip saddr 10.2.0.0/16 drop
ip saddr != 0.0.0.7 drop; ip saddr 10.3.0.0/16 drop; ip saddr 10.4.0.0/16 jump end
ip saddr 10.5.0.0/16 drop } }",
        [17, 0, 0, 0, 0],
        &[(0x0a02_0000, Some(3), true), (7, None, false)],
    ),
    (
        b"table ip t { set s { type ipv4_addr; elements = { 10.1.2.3, 11.0.0.1 } }
set more { type ipv4_addr; elements = { 10.1.2.3, 11.0.0.1, 12.0.0.0 } }
chain fwd { type filter hook forward priority 0;
ip saddr @s accept; ip saddr @s drop; ip saddr @more drop; ip saddr 11.0.0.1/32 accept
ip saddr @more accept } }",
        [5, 1, 2, 3, 1],
        &[
            (TEN_ONE, Some(1), false),
            (0x0c00_0000, Some(3), true),
            (0x0c00_0001, None, false),
        ],
    ),
    (
        b"table ip t { set pairs { type ipv4_addr . inet_service; elements = { 10.1.2.3 . 2 } }
chain fwd { type filter hook forward priority 0;
ip saddr . udp dport { 10.1.2.3 . 2, 11.0.0.1 . 3 } accept; ip saddr . udp dport @pairs drop
ip saddr . udp dport { 11.0.0.1 . 2 } drop; udp dport . ip saddr { 2 . 11.0.0.1 } accept } }",
        [7, 1, 2, 1, 1],
        &[(TEN_ONE, Some(1), false), (ELEVEN, Some(3), true)],
    ),
    (
        b"table ip t { chain fwd { type filter hook forward priority 0;
ip saddr == 10.1.2.3 accept; ip saddr 10.1.2.3 drop; ip saddr 10.1.2.2-10.1.2.4 drop
ip saddr 10.1.2.0/29 return } }",
        [7, 1, 3, 1, 1],
        &[
            (TEN_ONE, Some(1), false),
            (0x0a01_0204, Some(3), true),
            (0x0a01_0205, Some(4), false),
        ],
    ),
    (
        b"table ip t { set none { type ipv4_addr }
chain fwd { type filter hook forward priority 0;
ip saddr @none accept; counter; ip saddr @none drop } }",
        [6, 0, 0, 0, 0],
        &[(TEN_ONE, None, false)],
    ),
    (
        b"table ip t { set none { type ipv4_addr }
chain fwd { type filter hook forward priority 0;
ip saddr @none accept; ip saddr @none drop; counter } }",
        [2, 0, 0, 2, 0],
        &[(TEN_ONE, None, false)],
    ),
    (
        b"table ip t { chain fwd { type filter hook forward priority 0;
accept; ip saddr 10.0.0.0/8 drop; ip saddr 11.0.0.0/8 drop } }",
        [2, 0, 0, 2, 0],
        &[(TEN_ONE, Some(1), false)],
    ),
    (
        b"table ip t { chain fwd { type filter hook forward priority 0;
ip saddr 10.0.0.0/16 drop; ip saddr 10.1.0.0/16 accept; counter
ip saddr 10.1.0.0/16 drop; ip saddr 11.0.0.0/8 drop } }",
        [10, 2, 4, 0, 2],
        &[(TEN_ONE, Some(2), false), (ELEVEN, Some(5), true)],
    ),
    (
        b"table ip t { chain fwd { type filter hook forward priority 0;
ip saddr . udp dport { 10.1.2.3 . 1 } drop; ip saddr . udp dport { 10.1.2.3 . 2 } accept
ip saddr . udp sport { 11.0.0.1 . 2 } drop; ip saddr . udp sport { 11.0.0.1 . 1 } drop } }",
        [9, 2, 4, 0, 2],
        &[(TEN_ONE, Some(2), false), (ELEVEN, Some(4), true)],
    ),
    (
        b"table ip t { set none { type ipv4_addr }
chain fwd { type filter hook forward priority 0;
ip saddr @none accept; ip saddr 10.0.0.0/8 drop; ip saddr 11.0.0.0/8 drop } }",
        [5, 1, 2, 1, 1],
        &[(TEN_ONE, Some(2), true), (0x0c00_0000, None, false)],
    ),
    (
        b"table ip t { chain fwd { type filter hook forward priority 0;
ip saddr { 10.1.2.3, 11.0.0.1 } drop; ip saddr 11.0.0.1 accept; ip saddr 10.1.2.3 accept } }",
        [3, 1, 1, 2, 0],
        &[(TEN_ONE, Some(1), true), (ELEVEN, Some(1), true)],
    ),
    (
        b"table ip t { chain out { ip saddr 10.1.2.3 drop; ip saddr 11.0.0.1 drop }
chain fwd { type filter hook forward priority 0;
ip saddr 10.1.2.3 goto out; ip saddr 10.1.2.3 accept } }",
        [8, 2, 3, 1, 1],
        &[(TEN_ONE, Some(1), true), (ELEVEN, None, false)],
    ),
];

/// Rules that compare bits under one mask have one index; names, and concatenations of two selectors,
/// one each, however many sets these are looked up in. Of sixteen rules and more, those that are merged
/// share indexes with the rules beside them: with one of another selector, and with a run of another.
static INDEXED: [Row; 4] = [
    (
        b"table ip t { chain fwd { type filter hook forward priority 0;
tcp flags & 63 == 0 drop; tcp flags & 63 == 1 drop; tcp flags & 63 == 2 drop
tcp flags & 63 == 3 drop; tcp flags & 63 == 4 drop; tcp flags & 63 == 5 drop
tcp flags & 63 == 6 drop; tcp flags & 63 == 7 drop; tcp flags & 63 == 8 drop
tcp flags & 63 == 9 drop; tcp flags & 63 == 10 drop; tcp flags & 63 == 11 drop
tcp flags & 63 == 12 drop; tcp flags & 63 == 13 drop; tcp flags & 63 == 14 drop
tcp flags & 63 == 15 drop; tcp flags & 63 == 16 drop; tcp flags & 63 == 17 drop } }",
        [37, 0, 0, 0, 1],
        &[(TEN_ONE, None, false)],
    ),
    (
        b"table ip t { chain fwd { type filter hook forward priority 0;
iifname a drop; ip saddr . meta mark { 0.0.0.0 . 0 } drop
iifname b drop; ip saddr . meta mark { 0.0.0.1 . 0 } drop
iifname c drop; ip saddr . meta mark { 0.0.0.2 . 0 } drop
iifname d drop; ip saddr . meta mark { 0.0.0.3 . 0 } drop
iifname e drop; ip saddr . meta mark { 0.0.0.4 . 0 } drop
iifname f drop; ip saddr . meta mark { 0.0.0.5 . 0 } drop
iifname g drop; ip saddr . meta mark { 0.0.0.6 . 0 } drop
iifname h drop; ip saddr . meta mark { 0.0.0.7 . 0 } drop
iifname i drop; ip saddr . meta mark { 0.0.0.8 . 0 } drop } }",
        [37, 0, 0, 0, 2],
        &[(5, Some(12), true), (9, None, false)],
    ),
    (
        b"table ip t { chain fwd { type filter hook forward priority 0;
ip saddr 0.0.1.1 drop; ip saddr 0.0.1.2 drop; ip saddr 0.0.1.3 drop; ip saddr 0.0.1.4 drop
ip saddr 0.0.1.5 drop; ip saddr 0.0.1.6 drop; ip saddr 0.0.1.7 drop; ip saddr 0.0.1.8 drop
ip saddr 0.0.1.9 drop; ip saddr 0.0.1.10 drop; ip saddr 0.0.1.11 drop; ip saddr 0.0.1.12 drop
ip saddr 0.0.1.13 drop; ip saddr 0.0.1.14 drop; ip saddr 0.0.1.15 drop
ip daddr 0.0.0.1 counter } }",
        [33, 1, 15, 0, 2],
        &[(0x0000_010f, Some(15), true), (9, None, false)],
    ),
    (
        b"table ip t { chain fwd { type filter hook forward priority 0;
ip saddr 0.0.1.1 drop; ip saddr 0.0.1.2 drop; ip saddr 0.0.1.3 drop; ip saddr 0.0.1.4 drop
ip saddr 0.0.1.5 drop; ip saddr 0.0.1.6 drop; ip saddr 0.0.1.7 drop; ip saddr 0.0.1.8 drop
ip saddr 0.0.1.9 drop; ip saddr 0.0.1.10 drop
ip daddr 0.0.0.10 drop; ip daddr 0.0.0.9 drop; ip daddr 0.0.0.8 drop; ip daddr 0.0.0.7 drop
ip daddr 0.0.0.6 drop; ip daddr 0.0.0.5 drop; ip daddr 0.0.0.4 drop; ip daddr 0.0.0.3 drop
ip daddr 0.0.0.2 drop; ip daddr 0.0.0.1 drop } }",
        [41, 2, 20, 0, 2],
        &[(0x0000_010a, Some(10), true), (9, Some(20), true)],
    ),
];

/// Rules in turn of eight selectors, each of which has an index, and of a set that all others share,
/// which has one more.
const EIGHT_SELECTORS: &[u8] = b"
ip saddr 0.0.0.5 drop; iifname @none drop; ip daddr 0.0.0.6 drop; iifname @none drop
ip ttl 7 drop; iifname @none drop; ip length 8 drop; iifname @none drop
tcp sport 9 drop; iifname @none drop; tcp dport 10 drop; iifname @none drop
udp sport 11 drop; iifname @none drop; udp dport 12 drop; iifname @none drop";

/// A packet from the address, as the base chains on forward see it.
fn from(source: u32) -> Facts {
    let interface = Interface { index: 2, name: 2 };
    Facts {
        packet: Packet {
            source,
            destination: 1,
            protocol: 17,
            ttl: 64,
            length: 40,
            transport: Transport::Udp {
                source: 1,
                destination: 2,
            },
        },
        input: interface,
        output: None,
        mark: 0,
        ct: CtFacts::NotLookedUp,
    }
}

/// The first rule whose verdict a packet took.
fn first_rule(events: &[Event]) -> Option<u32> {
    for event in events {
        if let Event::TookVerdict(number, _) = event {
            return Some(number.rule);
        }
    }
    None
}

/// The only base chain on forward, if it is a short one.
fn forward(code: &Code) -> Option<Start>
    ensures { IfSome result (λ start. start.cost ≤ 1000) }
{
    match code.starts(Hook::Forward) {
        [start] if start.cost <= 1000 => Some(*start),
        _ => None,
    }
}

/// Whether a packet from the address takes this rule's verdict first, and is dropped or not.
fn takes_verdict(code: &Code, start: Start, wanted: &ExpectedVerdict, events: &mut Events) -> bool
    requires { length events.old.events + start.cost ≤ 65536 }
{
    let (source, rule, is_dropped) = *wanted;
    let end = run(code, start, &from(source), events);
    first_rule(events.list()) == rule && matches!(end.verdict, HookVerdict::Dropped) == is_dropped
}

/// Whether a packet from each address has the verdict.
fn has_verdicts<R: Abort + AllocGlobal>(
    rt: &R,
    code: &Code,
    start: Start,
    wanted: &[ExpectedVerdict],
) -> bool
    requires { start.cost ≤ 1000 }
{
    let mut are_right = true;
    for verdict in wanted {
        let mut events = Events::new(rt.alloc(), code).expect(rt, "memory");
        are_right &= takes_verdict(code, start, verdict, &mut events);
    }
    are_right
}

/// Whether the code has these steps, tables, merged and dropped rules, and indexes.
fn has_size(code: &Code, wanted: [usize; 5]) -> bool {
    let size = code.size();
    [
        size.steps,
        size.tables,
        size.merged,
        size.dropped,
        size.indexes,
    ] == wanted
}

/// Whether the code and the packets' verdicts are as the row says.
fn is_right<R: Abort + AllocGlobal>(rt: &R, code: &Code, row: &Row) -> bool {
    match forward(code) {
        Some(start) => has_size(code, row.1) && has_verdicts(rt, code, start, row.2),
        None => false,
    }
}

/// The row of a ruleset whose code has no indexes: nothing else of its size is another.
fn without_indexes(row: &Row) -> Row {
    let [steps, tables, merged, dropped, _] = row.1;
    (row.0, [steps, tables, merged, dropped, 0], row.2)
}

/// Whether the ruleset's code and verdicts are as the row says, and but for the indexes also where
/// rules are tried one by one.
fn is_compiled<R: Abort + AllocGlobal>(rt: &R, row: &Row) -> bool {
    let Some(mut code) = code_of(rt.alloc(), row.0, BOX) else {
        return false;
    };
    let is_indexed = is_right(rt, &code, row);
    if let Some(table) = code.tables.first_mut() {
        table.drop_indexes();
    }
    is_indexed && is_right(rt, &code, &without_indexes(row))
}

/// Checks all rows.
fn are_compiled<R: Abort + AllocGlobal>(rt: &R, rows: &[Row]) {
    for row in 0..rows.len() {
        check_row(rt, row, is_compiled(rt, &rows[row]));
    }
}

/// What the report has of the nested matches, the written mark and the rule after `accept`, rows of
/// `tests/rows` have.
#[test]
fn rules_are_merged_and_dropped(rt: HostRuntime) {
    are_compiled(&rt, &MERGED);
}

/// How many indexes there are on the eight selectors' rules, which a packet meets eight times.
fn indexes_of_eight<R: Abort + AllocGlobal>(rt: &R) -> Option<usize> {
    let head = b"table ip t { set none { type ifname }
chain fwd { type filter hook forward priority 0;";
    let rules = repeated(rt, head, EIGHT_SELECTORS, 8, b"} }");
    Some(code_of(rt.alloc(), &rules, BOX)?.size().indexes)
}

#[test]
fn a_run_has_an_index_for_each_selector_and_mask(rt: HostRuntime) {
    are_compiled(&rt, &INDEXED);
    assert!(&rt; indexes_of_eight(&rt) == Some(9), "eight selectors");
}
