//! Priorities as numbers (nft(8), "Chains").
ghost use Rattle.std.specs.Prelude.{◌≡◌};
ghost use Rattle.nft_tree.specs.Priorities.{name_number, priority_number};

use crate::chain::{OffsetSign, Priority, PriorityName};

impl PriorityName {
    /// The number of the standard name.
    pub fn number(self) -> i128
        ensures { result ≡ name_number self }
    {
        match self {
            PriorityName::Raw => -300,
            PriorityName::Mangle => -150,
            PriorityName::DstNat => -100,
            PriorityName::Filter => 0,
            PriorityName::Security => 50,
            PriorityName::SrcNat => 100,
        }
    }
}

impl Priority {
    /// The number of the priority. It may exceed the 32 bits that the kernel has for it.
    pub fn number(self) -> i128
        ensures { result ≡ priority_number self }
    {
        match self {
            Priority::Number(OffsetSign::Plus, number) => i128::from(number),
            Priority::Number(OffsetSign::Minus, number) => -i128::from(number),
            Priority::Named(name) => name.number(),
            Priority::Offset(name, OffsetSign::Plus, offset) => name.number() + i128::from(offset),
            Priority::Offset(name, OffsetSign::Minus, offset) => name.number() - i128::from(offset),
        }
    }
}
