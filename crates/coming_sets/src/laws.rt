//! A base chain and its stage see the same packets, as the contract of a function that does nothing.
ghost use Rattle.std.specs.Prelude.{◌≡◌, true};
ghost use Rattle.rule_meaning.specs.declared.facts.Facts.{Facts};
ghost use Rattle.rule_meaning.specs.declared.stage.HookStage.{HookStage};
ghost use Rattle.rule_meaning.specs.Hooks.{BaseChain, chains_in_stage};
ghost use Rattle.coming_sets.specs.Coming.{can_come, can_come_to};

/// The packets that can come to a base chain are exactly those that can come to its stage.
pub fn chains_see_their_stage()
    ensures { (stage : HookStage) (b : BaseChain) → chains_in_stage stage b ≡ true
        → (f : Facts) → can_come b f ≡ can_come_to stage f }
{}
