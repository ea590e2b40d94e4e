//! An example of a set, and whether there is one.
ghost use Rattle.std.specs.Prelude.{◌≡◌, ℕ, Bool, true, false, IfOk, IfSome, IfNone};
ghost use Rattle.std.specs.Bool.{OnTrue, OnFalse};
ghost use Rattle.packet_sets.specs.Sets.{has_bit, holds, IsSet};

use crate::diagrams::Diagrams;
use crate::packet_set::PacketSet;
use std::alloc::{AllocError, Global};

impl Diagrams {
    /// Whether no packet is in the set.
    pub fn is_none(&self, set: PacketSet) -> bool
        requires { IsSet self.now set }
        ensures none { OnTrue result ((packet : ℕ → Bool) → holds self.now set packet ≡ false) }
        ensures some { OnFalse result ((packet : ℕ → Bool) × (holds self.now set packet ≡ true)) }
    {
        self.sound();
        set.node == 0
    }

    /// The bits of a packet of the set; it has no others. `None` where no packet is in it.
    ///
    /// # Errors
    ///
    /// If an allocation fails.
    pub fn example(&self, alloc: Global, set: PacketSet) -> Result<Option<Vec<u32>>, AllocError>
        requires { IsSet self.now set }
        ensures none { IfOk result (λ found. IfNone found
            ((packet : ℕ → Bool) → holds self.now set packet ≡ false)) }
        ensures some { IfOk result (λ found. IfSome found
            (λ bits. holds self.now set (has_bit bits.items) ≡ true)) }
    {
        self.sound();
        if set.node == 0 {
            return Ok(None);
        }
        let mut bits = Vec::new(alloc);
        let mut at = set.node;
        while at > 1 {
            let branch = self.branch(at);
            if branch.low == 0 {
                bits.push(branch.bit)?;
                at = branch.high;
            } else {
                at = branch.low;
            }
        }
        Ok(Some(bits))
    }
}
