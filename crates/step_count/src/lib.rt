//! A count of the slots that a tracker visits.
//!
//! A tracker is given a count and can only raise it: a crate that doesn't list this one names
//! neither `start`, which makes a count, nor `count_of`, which reads it. So no visit of such a
//! tracker is counted elsewhere, and none depends on how many there were.
#![tactic(auto)]

ghost use Rattle.std.specs.Prelude.{◌≡◌};
ghost use Rattle.step_count.specs.StepCounts.{Counts};

use std::marker::Model;

/// How many slots were visited, saturated at the greatest `u64`.
#[derive(Drop)]
pub struct Steps {
    count: u64,
}

impl Model for Steps {
    ghost use Rattle.std.specs.Prelude.{ℕ};

    ghost Value = { ℕ };

    ghost view = { λ s. s.count };
}

impl Steps {
    /// Counts one more slot; a tracker calls it at each slot that it visits.
    #[tactic(auto, unfolding(crate::specs::StepCounts::more))]
    pub fn tick(&mut self)
        ensures { Counts 1 self.old self.new }
    {
        self.count = self.count.saturating_add(1);
    }

    /// Counts so many more slots.
    #[tactic(auto, unfolding(crate::specs::StepCounts::more))]
    pub fn add(&mut self, slots: usize)
        ensures { Counts slots self.old self.new }
    {
        self.count = self.count.saturating_add(slots as u64);
    }
}

/// A count of 0.
pub fn start() -> Steps
    ensures { result ≡ 0 }
{
    Steps { count: 0 }
}

/// How many slots were counted.
pub fn count_of(steps: &Steps) -> u64
    ensures { result ≡ steps.now }
{
    steps.count
}
