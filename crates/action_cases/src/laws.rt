//! A property of effects, as the contract of a function that does nothing.
ghost use Rattle.std.specs.Prelude.{ℕ, Bool};
ghost use Rattle.fact_sets.specs.declared.readings.Reader.{Reader};
ghost use Rattle.fact_sets.specs.Cases.{seen};
ghost use Rattle.fact_sets.specs.Facts.{facts_of};
ghost use Rattle.action_cases.specs.declared.cases.Outcome.{Outcome};
ghost use Rattle.action_cases.specs.Effects.{Leaves, outcome_effect, written_after};

/// After an action, the same packet's bits write the facts with what the action has written.
pub fn bits_are_kept()
    ensures { (reader : Reader) (o : Outcome) (packet : ℕ → Bool)
        → Leaves (outcome_effect reader o packet) (seen reader packet)
        (facts_of reader.interfaces.now (written_after o reader.written) packet) }
{}
