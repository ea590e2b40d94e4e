//! The types of what is compared, of keys and of data.
use crate::around::Around;
use nft_expressions::selectors;
use nft_lexer::Token;
use nft_tree::{ComparedType, Item, SetType, Value, ValueType};
use nft_values::is_value;
use std::alloc::{AllocError, Global};

pub const ADDRESS: ComparedType = ComparedType::Named(ValueType::Address);

pub const SERVICE: ComparedType = ComparedType::Named(ValueType::Service);

pub const MARK: ComparedType = ComparedType::Named(ValueType::Mark);

/// What the values of a type are, as `a number`, and with what they are compared.
pub fn values_of(of: ComparedType) -> (&'static str, &'static str) {
    let of = match of {
        ComparedType::Named(of) => of,
        // A number, too.
        ComparedType::Unnamed(_) => ValueType::Mark,
    };
    match of {
        ValueType::Address => ("an address, as `192.0.2.1`", "`ip saddr` or `ip daddr`"),
        ValueType::Service => ("a port from 0 to 65535", "`tcp dport` or `udp dport`"),
        ValueType::Protocol => ("a protocol, as `tcp`", "`meta l4proto`"),
        ValueType::InterfaceName => ("an interface's name", "`iifname` or `oifname`"),
        ValueType::InterfaceIndex => ("an interface of the box", "`iif` or `oif`"),
        ValueType::Mark => ("a number", "`meta mark` or `ct mark`"),
        ValueType::TcpFlag => ("a flag, as `syn`", "`tcp flags`"),
        ValueType::IcmpType => ("a type of ICMP, as `echo-request`", "`icmp type`"),
        ValueType::Family => ("`ipv4` or `ipv6`", "`meta nfproto`"),
        ValueType::CtState => ("a state, as `new`", "`ct state`"),
        ValueType::CtDirection => ("`original` or `reply`", "`ct direction`"),
        ValueType::CtStatus => ("a status, as `dnat`", "`ct status`"),
    }
}

/// The greatest number of a type; none where numbers aren't its values.
pub fn greatest(of: ComparedType) -> Option<u64> {
    if !is_value(of, &Value::Number(0)) {
        return None;
    }
    1u64.checked_shl(of.width())?.checked_sub(1)
}

/// The types at a place.
#[derive(Drop)]
pub struct Types {
    /// Of the selectors that were read last before it, joined by dots.
    pub compared: Vec<ComparedType>,
    /// Of the parts of the key of the set or the map there; none where there is neither.
    pub keys: Vec<ComparedType>,
    /// Of the map's data there, if they are no verdicts.
    pub data: Option<ComparedType>,
}

impl Types {
    /// The types at a place.
    ///
    /// # Errors
    /// `AllocError` for want of memory.
    pub fn at(alloc: Global, around: &Around<'_>) -> Result<Types, AllocError> {
        let mut types = Types {
            compared: compared_types(alloc, around.words.start(around.at))?,
            keys: Vec::new(alloc),
            data: None,
        };
        match around.set() {
            Some(Item::Set(set)) => types.keys = types_of(alloc, &set.key)?,
            Some(Item::Map(map)) => {
                types.keys.push(map.types.key())?;
                types.data = map.types.data();
            }
            _ => {}
        }
        Ok(types)
    }
}

/// The types of the last selectors of a rule's start, joined by dots.
fn compared_types(alloc: Global, start: &[Token<'_>]) -> Result<Vec<ComparedType>, AllocError> {
    let mut last = SetType::Types(Vec::new(alloc));
    let mut end = 0;
    for at in 0..start.len() {
        if at >= end
            && let Some((found, after)) = selectors(alloc, start, at)?
        {
            (last, end) = (SetType::Selectors(found), after);
        }
    }
    types_of(alloc, &last)
}

/// The type of each part of a key.
fn types_of(alloc: Global, key: &SetType) -> Result<Vec<ComparedType>, AllocError> {
    let mut types = Vec::new(alloc);
    for part in 0..key.parts() {
        types.extend(key.kind(part))?;
    }
    Ok(types)
}
