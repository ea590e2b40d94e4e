//! The stack of return offsets.
ghost use Rattle.std.specs.Prelude.{◌≡◌, ◌≤◌, ◌<◌, ◌∷◌, [], ℕ, List, MatchOption, length, nat_lt, reverse, take};
ghost use Rattle.filter_vm.specs.Machine.{JUMP_STACK_SIZE};

use std::marker::Model;

/// The most return offsets (netfilter's `NFT_JUMP_STACK_SIZE`).
const SIZE: usize = 16;

/// The return offsets of open calls, at most 16, the last one first.
#[derive(Drop)]
pub(crate) struct Stack {
    return_offsets: [usize; SIZE],
    len: usize,
}

impl Model for Stack {
    ghost Value = { List ℕ };

    ghost view = { λ s. reverse (take s.len s.return_offsets) };

    ghost invariant = { λ s. s.len ≤ 16 };
}

impl Stack {
    /// No open call.
    pub(crate) fn new() -> Self
        ensures { result ≡ [] }
    {
        Stack {
            return_offsets: [0; SIZE],
            len: 0,
        }
    }

    /// Whether one more call can be opened.
    pub(crate) fn has_room(&self) -> bool
        ensures { result ≡ nat_lt (length self.now) JUMP_STACK_SIZE }
    {
        self.len < SIZE
    }

    /// Stores a return offset.
    pub(crate) fn push(&mut self, offset: usize)
        requires { length self.old < JUMP_STACK_SIZE }
        ensures { self.new ≡ offset ∷ self.old }
    {
        self.return_offsets[self.len] = offset;
        self.len += 1;
    }

    /// Removes the last return offset.
    pub(crate) fn pop(&mut self) -> Option<usize>
        ensures { MatchOption result
            ((self.old ≡ []) × (self.new ≡ []))
            (λ offset. self.old ≡ offset ∷ self.new) }
    {
        if self.len == 0 {
            return None;
        }
        self.len -= 1;
        Some(self.return_offsets[self.len])
    }
}
