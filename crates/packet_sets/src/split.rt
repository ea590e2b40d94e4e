//! A set by its least bit.
ghost use Rattle.std.specs.Prelude.{◌≡◌, ◌⊎◌, IfSome, IfNone};
ghost use Rattle.packet_sets.specs.Sets.{IsSet, IsSplit};

use crate::diagrams::Diagrams;
use crate::packet_set::PacketSet;

/// A set by its least bit: those of its packets that haven't the bit are the ones of `low` that
/// haven't it, and those that have it are the ones of `high` that do.
#[derive(Clone, Copy)]
pub struct Split {
    pub bit: u32,
    pub low: PacketSet,
    pub high: PacketSet,
}

impl Diagrams {
    /// The set by its least bit; `None` where it is none or all.
    pub fn split(&self, set: PacketSet) -> Option<Split>
        requires { IsSet self.now set }
        ensures parts { IfSome result (λ split. IsSplit self.now set split) }
        ensures ends { IfNone result ((set ≡ PacketSet.NONE) ⊎ (set ≡ PacketSet.ALL)) }
    {
        self.sound();
        if set.node < 2 {
            return None;
        }
        let branch = self.branch(set.node);
        Some(Split {
            bit: branch.bit,
            low: PacketSet { node: branch.low },
            high: PacketSet { node: branch.high },
        })
    }
}
