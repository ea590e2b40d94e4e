//! The packets of a set, sorted by what a statement does with them.
ghost use Rattle.std.specs.Prelude.{◌≡◌, ◌≤◌, length, IfOk, IfErr};
ghost use Rattle.packet_sets.specs.Sets.{IsSet, Keeps};
ghost use Rattle.packet_sets.specs.declared.fault.SetError.TheVariants.{TooLarge};
ghost use Rattle.fact_sets.specs.Cases.{AreCases};
ghost use Rattle.rule_sets.specs.Parts.{AreParts};

use action_cases::Outcome;
use fact_sets::Case;
use packet_sets::{Diagrams, PacketSet, SetError};
use std::alloc::Global;

/// The packets of a set, sorted by what a statement does with them.
#[derive(Drop)]
pub struct Parts {
    pub cases: Vec<Case<Outcome>>,
    /// Those with which it fails.
    pub rest: PacketSet,
}

/// The packets of the set, sorted by the cases of a statement.
///
/// # Errors
///
/// `TooLarge` where more nodes are needed than the limit allows, `Memory` where an allocation
/// failed.
pub fn sorted(
    alloc: Global,
    diagrams: &mut Diagrams,
    set: PacketSet,
    cases: &[Case<Outcome>],
) -> Result<Parts, SetError>
    requires set { IsSet diagrams.old set }
    requires cases { AreCases diagrams.old cases.now }
    ensures keeps { Keeps diagrams.old diagrams.new }
    ensures value { IfOk result (λ parts. AreParts diagrams.old diagrams.new set cases.now
        parts.cases.items parts.rest) }
    ensures too_large { IfErr result (λ e. e ≡ TooLarge
        → diagrams.new.limit ≤ length diagrams.new.nodes) }
{
    let mut parts = Vec::new(alloc);
    let mut rest = set;
    for case in cases {
        let part = diagrams.and(rest, case.set)?;
        rest = diagrams.without(rest, case.set)?;
        parts.push(Case {
            set: part,
            outcome: case.outcome,
        })?;
    }
    Ok(Parts { cases: parts, rest })
}
