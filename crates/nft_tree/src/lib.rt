//! The abstract syntax tree of a ruleset (nft(8)).
//!
//! It holds what the text means and nothing of its spelling: no blanks, newlines or equivalent
//! separators. Contracts compare trees by their models in `specs/Tree.antt`, which leave out
//! addresses and capacities.
#![tactic(auto)]

mod chain;
mod cloning;
mod compared_types;
mod folds;
mod nat;
mod priority;
mod ruleset;
mod selector;
mod set;
mod statement;
mod table_items;
mod tree_nodes;
mod value_types;
mod values;

pub use chain::{Chain, ChainKind, Head, Hook, OffsetSign, Policy, Priority, PriorityName, Rule};
pub use compared_types::ComparedType;
pub use folds::{any, sum};
pub use nat::{DestinationTarget, Nat, PortRange, SourceTarget};
pub use ruleset::{Family, Item, RuleNo, Ruleset, Table};
pub use selector::{Selector, ValueType};
pub use set::{
    Data, Element, Key, MapDecl, MapType, Pair, SelectorOrVerdict, SetDecl, SetFlag, SetType,
    TypeOrVerdict,
};
pub use statement::{
    BitField, BitTest, CounterStart, Flag, MapLookup, MapRef, MarkField, Masked, Match, Operand,
    Operator, SetRef, Stmt, Verdict,
};
pub use std::alloc::AllocError as Memory;
pub use tree_nodes::TreeNode;
pub use values::{Value, ValueRange};
