//! Chains and rules (nft(8), "Chains", "Rules").
use crate::statement::Stmt;

/// A chain: `chain NAME { .. }`. It is a base chain if it has a head.
#[derive(Drop)]
pub struct Chain {
    pub name: Vec<u8>,
    /// The comments before the head, or before the rules of a regular chain.
    pub notes: Vec<Vec<u8>>,
    pub head: Option<Head>,
    /// In text order.
    pub rules: Vec<Rule>,
}

/// A base chain's hook specification: `type TYPE hook HOOK priority PRIORITY; policy POLICY;`.
#[derive(Drop)]
pub struct Head {
    pub kind: ChainKind,
    pub hook: Hook,
    pub priority: Priority,
    pub policy: Option<Policy>,
    /// The comments after the policy.
    pub notes: Vec<Vec<u8>>,
}

/// The type of a base chain.
#[derive(Clone, Copy)]
pub enum ChainKind {
    Filter,
    Nat,
}

/// The netfilter hook that a base chain is attached to.
#[derive(Clone, Copy)]
pub enum Hook {
    Prerouting,
    Input,
    Forward,
    Output,
    Postrouting,
}

/// The priority of a base chain: on one hook, lower ones run first.
#[derive(Clone, Copy)]
pub enum Priority {
    /// A number with its sign.
    Number(OffsetSign, u64),
    /// A standard name, such as `filter`.
    Named(PriorityName),
    /// A standard name with an offset, such as `filter + 10`.
    Offset(PriorityName, OffsetSign, u64),
}

/// The sign of a number or an offset.
#[derive(Clone, Copy)]
pub enum OffsetSign {
    Plus,
    Minus,
}

/// The standard priority names, each with its number (nft(8), "Chains").
#[derive(Clone, Copy)]
pub enum PriorityName {
    /// -300
    Raw,
    /// -150
    Mangle,
    /// -100
    DstNat,
    /// 0
    Filter,
    /// 50
    Security,
    /// 100
    SrcNat,
}

/// The verdict of a base chain on a packet that reaches its end.
#[derive(Clone, Copy)]
pub enum Policy {
    Accept,
    Drop,
}

/// A rule: its statements from left to right, and its comment.
pub struct Rule {
    pub statements: Vec<Stmt>,
    pub comment: Option<Vec<u8>>,
}

impl Drop for Rule {
    fn drop(self) {
        let Rule {
            statements: _,
            comment: _,
        } = self;
    }
}
