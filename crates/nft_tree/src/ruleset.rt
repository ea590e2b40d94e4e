//! Rulesets and tables (nft(8), "Ruleset", "Tables").
use crate::chain::Chain;
use crate::set::{MapDecl, SetDecl};

/// A ruleset: its tables, in text order.
#[derive(Drop)]
pub struct Ruleset {
    pub tables: Vec<Table>,
}

/// A table: `table FAMILY NAME { .. }`.
#[derive(Drop)]
pub struct Table {
    pub family: Family,
    pub name: Vec<u8>,
    /// In text order.
    pub items: Vec<Item>,
}

/// The address family of a table. A table that names none has family `ip`.
#[derive(Clone, Copy, PartialEq, Eq)]
pub enum Family {
    Ip,
    Inet,
}

/// An item of a table.
pub enum Item {
    /// `comment "TEXT"`
    Comment(Vec<u8>),
    Chain(Chain),
    Set(SetDecl),
    Map(MapDecl),
}

impl Drop for Item {
    fn drop(self) {
        match self {
            Item::Comment(_) => {}
            Item::Chain(_) => {}
            Item::Set(_) => {}
            Item::Map(_) => {}
        }
    }
}

/// The number of a rule: its table and its chain within the table, both counted from 0 in text
/// order, and the rule within its chain, counted from 1.
#[derive(Clone, Copy)]
pub struct RuleNo {
    pub table: u32,
    pub chain: u32,
    pub rule: u32,
}
