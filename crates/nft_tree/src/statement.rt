//! Statements (nft(8), "Statements", "Expressions").
use crate::nat::Nat;
use crate::selector::Selector;
use crate::set::{Element, Pair};
use crate::values::ValueRange;

/// A statement of a rule.
pub enum Stmt {
    Match(Match),
    /// `counter`, with its initial value
    Counter(Option<CounterStart>),
    /// `log`, with its prefix
    Log(Option<Vec<u8>>),
    /// `notrack`
    NoTrack,
    /// `meta mark set`, `ct mark set`
    SetMark(MarkField, Operand),
    /// `SELECTOR vmap MAP`
    VerdictMap(Selector, MapRef),
    Verdict(Verdict),
    Nat(Nat),
}

/// Written out, as for rules, items, elements and pairs, values, ranges and the types of sets: a
/// crate that drops a list of them, or one of them where it gives up, then proves a call and not
/// each field's drop.
impl Drop for Stmt {
    fn drop(self) {
        match self {
            Stmt::Match(_) => {}
            Stmt::Counter(_) => {}
            Stmt::Log(_) => {}
            Stmt::NoTrack => {}
            Stmt::SetMark(_, _) => {}
            Stmt::VerdictMap(_, _) => {}
            Stmt::Verdict(_) => {}
            Stmt::Nat(_) => {}
        }
    }
}

/// The initial value of a counter: `packets NUMBER bytes NUMBER`.
#[derive(Clone, Copy)]
pub struct CounterStart {
    pub packets: u64,
    pub bytes: u64,
}

/// The mark of the packet, or that of its connection.
#[derive(Clone, Copy)]
pub enum MarkField {
    Meta,
    Ct,
}

/// The new value of a mark.
#[derive(Drop)]
pub enum Operand {
    Number(u64),
    Mark(MarkField),
    MapLookup(MapLookup),
}

/// A map lookup: `SELECTOR map MAP`.
#[derive(Drop)]
pub struct MapLookup {
    pub selector: Selector,
    pub map: MapRef,
}

/// A named map, `@NAME`, or an anonymous one.
#[derive(Drop)]
pub enum MapRef {
    Named(Vec<u8>),
    Anonymous(Vec<Pair>),
}

/// A named set, `@NAME`, or an anonymous one.
#[derive(Drop)]
pub enum SetRef {
    Named(Vec<u8>),
    Anonymous(Vec<Element>),
}

/// A verdict (nft(8), "Verdict statement").
#[derive(Drop)]
pub enum Verdict {
    Accept,
    Drop,
    Continue,
    Return,
    Jump(Vec<u8>),
    Goto(Vec<u8>),
}

/// A comparison operator.
#[derive(Clone, Copy)]
pub enum Operator {
    /// `==`, or no operator
    Equal,
    /// `!=`
    Unequal,
    /// `<`
    Below,
    /// `>`
    Above,
    /// `<=`
    AtMost,
    /// `>=`
    AtLeast,
}

/// A match: the test of a packet.
#[derive(Drop)]
pub enum Match {
    /// A selector against a value, a range or a prefix.
    Compare(Selector, Operator, ValueRange),
    /// A selector, or a concatenation of them, that is in a set.
    In(Vec<Selector>, SetRef),
    /// A selector, or a concatenation of them, that is in no element of a set.
    NotIn(Vec<Selector>, SetRef),
    /// `ct state` or `ct status` against named bits.
    Bits(BitField, BitTest, Vec<Vec<u8>>),
    /// `tcp flags FLAGS`: at least one of them is set.
    AnyFlag(Vec<Flag>),
    /// `tcp flags == FLAGS`: exactly these are set.
    ExactFlags(Vec<Flag>),
    /// `tcp flags WANTED / MASK`: of the mask's flags, exactly the wanted ones are set.
    MaskedFlags(Masked),
    /// `tcp flags != WANTED / MASK`, the negation.
    MaskedFlagsUnequal(Masked),
}

/// The bit field that is tested.
#[derive(Clone, Copy)]
pub enum BitField {
    State,
    Status,
}

/// How bits are tested.
#[derive(Clone, Copy)]
pub enum BitTest {
    /// No operator: at least one of the named bits is set.
    Any,
    /// `==`: exactly the named bits are set.
    Exactly,
    /// `!=`: none of the named bits is set.
    None,
}

/// TCP flags under a mask.
#[derive(Drop)]
pub struct Masked {
    pub wanted: Vec<Flag>,
    pub mask: Vec<Flag>,
}

/// A TCP flag by its name, or flags as a number.
#[derive(Drop)]
pub enum Flag {
    Word(Vec<u8>),
    Number(u64),
}
