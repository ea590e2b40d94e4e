//! Rulesets as code: what a base chain costs, and the numbers of elements and names.
use crate::support::{check_row, code_of, repeated};
use filter_vm::Code;
use nft_tree::{Hook, Operator, Selector};
use rule_code::{Action, Step};
use std::process::Abort;

/// Two interfaces and a default route.
const BOX: &[u8] = b"interface 2 lan 192.168.1.1/24
interface 3 wan 203.0.113.1/24
route 0.0.0.0/0 wan
default lan
";

/// What the tests ask of code, so that one function alone holds it.
#[derive(Clone, Copy)]
struct CodeFacts {
    forward_cost: Option<u32>,
    element: Option<u128>,
    names: Option<(u128, u128)>,
}

/// What is asked of the ruleset's code on this box; `None` if it is refused.
fn facts_of<R: Abort + AllocGlobal>(rt: &R, rules: &[u8]) -> Option<CodeFacts> {
    let code = code_of(rt.alloc(), rules, BOX)?;
    Some(CodeFacts {
        forward_cost: forward_cost(&code),
        element: only_element(&code),
        names: names_compared(&code),
    })
}

/// The cost of the base chain on forward, if there is one of them.
fn forward_cost(code: &Code) -> Option<u32> {
    match code.starts(Hook::Forward) {
        [start] => Some(start.cost),
        _ => None,
    }
}

/// The number of the only set, if it has one.
fn only_element(code: &Code) -> Option<u128> {
    let [table] = code.tables.as_slice() else {
        return None;
    };
    let [set] = table.code().lookups.sets.as_slice() else {
        return None;
    };
    match set.pieces() {
        [(range, ())] if range.low() == range.high() => Some(range.low()),
        _ => None,
    }
}

/// The numbers that the first match compares input names with.
fn names_compared(code: &Code) -> Option<(u128, u128)> {
    let table = code.tables.first()?;
    match table.code().steps.list().first()? {
        Step::Statement(statement) => match &statement.action {
            Action::Compare(Selector::InputName, Operator::Equal, range) => {
                Some((range.low(), range.high()))
            }
            _ => None,
        },
        Step::EndOfChain => None,
    }
}

/// The cost of a base chain of one rule with this many statements; `None` if it is refused.
fn cost_of<R: Abort + AllocGlobal>(rt: &R, statements: usize) -> Option<u32> {
    let head = b"table ip t { chain fwd { type filter hook forward priority 0; ";
    let rules = repeated(rt, head, b"counter ", statements, b"} }");
    facts_of(rt, &rules)?.forward_cost
}

/// As many statements as a ruleset may have, and one more.
#[test]
fn a_chain_costs_one_more_than_its_statements(rt: HostRuntime) {
    check_row(&rt, 0, cost_of(&rt, 65_535) == Some(65_536));
    check_row(&rt, 1, cost_of(&rt, 65_536).is_none());
}

/// A ruleset, the number of its only element, and those that a match compares names with. A
/// concatenation's number has its parts' bits, the first part highest: here an address and a port. A
/// name stands for its bytes, filled up to 16.
static NUMBERS: [(&[u8], Option<u128>, Option<(u128, u128)>); 4] = [
    (
        b"table ip t { chain fwd { type filter hook forward priority 0;
ip daddr . udp dport { 198.51.100.7 . 53 } accept } }",
        Some(0xc633_6407_0035),
        None,
    ),
    (
        b"table ip t { chain fwd { type filter hook forward priority 0; iifname \"la*\" accept } }",
        None,
        Some((
            0x6c61_0000_0000_0000_0000_0000_0000_0000,
            0x6c61_ffff_ffff_ffff_ffff_ffff_ffff_ffff,
        )),
    ),
    (
        b"table ip t { chain fwd { type filter hook forward priority 0; iifname \"la\" accept } }",
        None,
        Some((
            0x6c61_0000_0000_0000_0000_0000_0000_0000,
            0x6c61_0000_0000_0000_0000_0000_0000_0000,
        )),
    ),
    (
        b"table ip t { chain fwd { type filter hook forward priority 0; iifname \"lan\" accept } }",
        None,
        Some((
            0x6c61_6e00_0000_0000_0000_0000_0000_0000,
            0x6c61_6e00_0000_0000_0000_0000_0000_0000,
        )),
    ),
];

/// Whether the ruleset's code has these numbers.
fn has_numbers<R: Abort + AllocGlobal>(
    rt: &R,
    rules: &[u8],
    element: Option<u128>,
    names: Option<(u128, u128)>,
) -> bool {
    match facts_of(rt, rules) {
        Some(facts) => facts.element == element && facts.names == names,
        None => false,
    }
}

#[test]
fn elements_and_names_are_numbers(rt: HostRuntime) {
    for row in 0..NUMBERS.len() {
        let (rules, element, names) = NUMBERS[row];
        check_row(&rt, row, has_numbers(&rt, rules, element, names));
    }
}
