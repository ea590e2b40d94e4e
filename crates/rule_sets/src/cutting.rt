//! Cases within a set of packets.
ghost use Rattle.std.specs.Prelude.{◌≡◌, ◌≤◌, [], ℕ, Bool, cond, length, IfOk, IfErr};
ghost use Rattle.packet_sets.specs.Sets.{IsSet, Keeps, holds};
ghost use Rattle.packet_sets.specs.declared.fault.SetError.TheVariants.{TooLarge};
ghost use Rattle.fact_sets.specs.Cases.{AreCases};
ghost use Rattle.rule_sets.specs.Ends.{outcomes_for};

use crate::ends::End;
use fact_sets::Case;
use packet_sets::{Diagrams, PacketSet, SetError};
use std::alloc::Global;

/// The packets of the set, each in the ends that have it.
pub(crate) fn cut_to(
    alloc: Global,
    diagrams: &mut Diagrams,
    set: PacketSet,
    ends: &[Case<End>],
) -> Result<Vec<Case<End>>, SetError>
    requires set { IsSet diagrams.old set }
    requires ends { AreCases diagrams.old ends.now }
    ensures keeps { Keeps diagrams.old diagrams.new }
    ensures are { IfOk result (λ parts. AreCases diagrams.new parts.items) }
    ensures same { IfOk result (λ parts. (packet : ℕ → Bool)
        → outcomes_for diagrams.new parts.items packet
        ≡ cond (holds diagrams.old set packet) (outcomes_for diagrams.old ends.now packet) []) }
    ensures too_large { IfErr result (λ e. e ≡ TooLarge
        → diagrams.new.limit ≤ length diagrams.new.nodes) }
{
    let mut parts = Vec::new(alloc);
    for end in ends {
        let part = diagrams.and(set, end.set)?;
        parts.push(Case {
            set: part,
            outcome: end.outcome,
        })?;
    }
    Ok(parts)
}
