//! Matches that leave packets of TCP and UDP alone, whose ports `th` reads here. Linux reads the
//! bytes of any protocol there.
use crate::intervals::number_of;
use crate::protocols::{TCP, UDP, transport_of};
use nft_tree::{
    BitField, ComparedType, Element, Item, Key, Match, Operator, Selector, SetRef, Stmt, Table,
    Value, ValueRange, ValueType,
};
use std::slice;

/// The selectors that a match reads.
pub(crate) fn selectors_of(test: &Match) -> &[Selector] {
    match test {
        Match::Compare(selector, _, _) => slice::from_ref(selector),
        Match::In(selectors, _) | Match::NotIn(selectors, _) => selectors,
        Match::Bits(BitField::State, _, _) => &[Selector::CtState],
        Match::Bits(BitField::Status, _, _) => &[Selector::CtStatus],
        _ => &[Selector::TcpFlags],
    }
}

/// Whether only packets of TCP or UDP have what a selector reads.
pub(crate) fn is_of_ports(selector: Selector) -> bool {
    matches!(transport_of(selector), Some(TCP | UDP))
}

/// The number of the statement from which on all packets have ports: of the matches that stand
/// beside one that leaves only packets of TCP and UDP, the first.
pub(crate) fn ports_start(table: &Table, statements: &[Stmt]) -> usize {
    let mut start = 0;
    for (number, statement) in statements.iter().enumerate() {
        match statement {
            Stmt::Match(test) if leaves_ports(table, test) => return start,
            Stmt::Match(_) => {}
            _ => start = number.saturating_add(1),
        }
    }
    statements.len()
}

fn leaves_ports(table: &Table, test: &Match) -> bool {
    for (part, selector) in selectors_of(test).iter().enumerate() {
        let is_protocol = matches!(selector, Selector::IpProtocol | Selector::MetaProtocol);
        let is_left = match test {
            Match::Compare(_, Operator::Equal, ValueRange::One(value)) if is_protocol => {
                is_ported(value)
            }
            Match::In(_, set) if is_protocol => are_ported(elements_of(table, set), part),
            _ => is_of_ports(*selector),
        };
        if is_left {
            return true;
        }
    }
    false
}

/// Whether the protocol in this part of each element's key is TCP or UDP.
fn are_ported(elements: &[Element], part: usize) -> bool {
    for element in elements {
        let values = match &element.key {
            Key::Single(ValueRange::One(value)) => slice::from_ref(value),
            Key::Single(_) => &[],
            Key::Joined(values) => values.as_slice(),
        };
        match values.get(part) {
            Some(value) if is_ported(value) => {}
            _ => return false,
        }
    }
    true
}

/// Whether a protocol is TCP or UDP.
fn is_ported(value: &Value) -> bool {
    let number = number_of(value, ComparedType::Named(ValueType::Protocol));
    matches!(number, Some(TCP | UDP))
}

/// The elements of a set in a rule of a table.
fn elements_of<'a>(table: &'a Table, set: &'a SetRef) -> &'a [Element] {
    let name = match set {
        SetRef::Anonymous(elements) => return elements,
        SetRef::Named(name) => name.as_slice(),
    };
    for item in &table.items {
        if let Item::Set(set) = item
            && set.name.as_slice() == name
        {
            return set.elements.as_deref().unwrap_or(&[]);
        }
    }
    &[]
}
