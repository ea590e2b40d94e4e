//! Literals.

/// A literal; what it denotes depends on the data type. Words and strings are boxed, since nearly
/// all literals are numbers and addresses and there are many of them.
pub enum Value {
    Number(u64),
    /// An IPv4 address in host byte order: the first octet is the most significant.
    Address(u32),
    Word(Box<Vec<u8>>),
    /// The bytes between the quotes.
    String(Box<Vec<u8>>),
}

impl Drop for Value {
    fn drop(self) {
        match self {
            Value::Number(_) => {}
            Value::Address(_) => {}
            Value::Word(_) => {}
            Value::String(_) => {}
        }
    }
}

/// A literal, a range or a prefix.
pub enum ValueRange {
    One(Value),
    /// `LOW-HIGH`
    Between(Value, Value),
    /// `ADDRESS/LENGTH`
    Prefix(u32, u64),
}

impl Drop for ValueRange {
    fn drop(self) {
        match self {
            ValueRange::One(_) => {}
            ValueRange::Between(_, _) => {}
            ValueRange::Prefix(_, _) => {}
        }
    }
}
