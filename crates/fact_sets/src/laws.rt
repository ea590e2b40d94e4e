//! Properties of facts as bits, each as the contract of a function that does nothing.
ghost use Rattle.std.specs.Prelude.{List};
ghost use Rattle.rule_meaning.specs.declared.facts.Facts.{Facts};
ghost use Rattle.rule_meaning.specs.declared.facts.Interface.{Interface};
ghost use Rattle.fact_sets.specs.Boxes.{HasBits, IsOfBox};

/// The bits of some packet write the facts of a box, whichever they are.
pub fn facts_have_bits()
    ensures { (interfaces : List Interface) (f : Facts) → IsOfBox interfaces f
        → HasBits interfaces f }
{}
