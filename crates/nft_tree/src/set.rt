//! Sets, maps and their elements (nft(8), "Sets", "Maps", "Elements").
use crate::selector::{Selector, ValueType};
use crate::statement::Verdict;
use crate::values::{Value, ValueRange};

/// A named set: `set NAME { .. }`. Its fields may be in any order.
#[derive(Drop)]
pub struct SetDecl {
    pub name: Vec<u8>,
    pub key: SetType,
    pub flags: Option<Vec<SetFlag>>,
    pub size: Option<u64>,
    pub auto_merge: bool,
    pub comment: Option<Vec<u8>>,
    pub elements: Option<Vec<Element>>,
}

/// A named map: `map NAME { .. }`. Its fields may be in any order.
#[derive(Drop)]
pub struct MapDecl {
    pub name: Vec<u8>,
    pub types: MapType,
    pub flags: Option<Vec<SetFlag>>,
    pub size: Option<u64>,
    pub auto_merge: bool,
    pub comment: Option<Vec<u8>>,
    pub elements: Option<Vec<Pair>>,
}

/// The type of a set's key: data types, or those of selectors. More than one is a concatenation.
pub enum SetType {
    /// `type TYPE . TYPE`
    Types(Vec<ValueType>),
    /// `typeof SELECTOR . SELECTOR`
    Selectors(Vec<Selector>),
}

impl Drop for SetType {
    fn drop(self) {
        match self {
            SetType::Types(_) => {}
            SetType::Selectors(_) => {}
        }
    }
}

/// The types of a map's key and data.
#[derive(Clone, Copy)]
pub enum MapType {
    /// `type TYPE : TYPE`
    Types(ValueType, TypeOrVerdict),
    /// `typeof SELECTOR : SELECTOR`
    Selectors(Selector, SelectorOrVerdict),
}

/// The type of a map's data, after `type`.
#[derive(Clone, Copy)]
pub enum TypeOrVerdict {
    Type(ValueType),
    Verdict,
}

/// The type of a map's data, after `typeof`.
#[derive(Clone, Copy)]
pub enum SelectorOrVerdict {
    Selector(Selector),
    Verdict,
}

/// A flag of a set or a map.
#[derive(Clone, Copy)]
pub enum SetFlag {
    Constant,
    Interval,
}

/// An element of a set, with its comment.
pub struct Element {
    pub key: Key,
    pub comment: Option<Vec<u8>>,
}

impl Drop for Element {
    fn drop(self) {
        let Element { key: _, comment: _ } = self;
    }
}

/// The key of an element: a value, a range, a prefix or a concatenation of values.
#[derive(Drop)]
pub enum Key {
    Single(ValueRange),
    /// `VALUE . VALUE`, two or more.
    Joined(Vec<Value>),
}

/// An element of a map: key, comment and data.
pub struct Pair {
    pub key: ValueRange,
    pub comment: Option<Vec<u8>>,
    pub value: Data,
}

impl Drop for Pair {
    fn drop(self) {
        let Pair {
            key: _,
            comment: _,
            value: _,
        } = self;
    }
}

/// The data of a map's element.
#[derive(Drop)]
pub enum Data {
    Verdict(Verdict),
    Value(Value),
}
