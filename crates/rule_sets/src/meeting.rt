//! The packets that meet the last statement of a rule.
ghost use Rattle.std.specs.Prelude.{◌≡◌, ◌≤◌, length, IfOk, IfErr};
ghost use Rattle.std.specs.List.{list_any};
ghost use Rattle.packet_sets.specs.Sets.{Keeps, Means};
ghost use Rattle.packet_sets.specs.declared.fault.SetError.TheVariants.{TooLarge};
ghost use Rattle.fact_sets.specs.Cases.{AreCases};
ghost use Rattle.rule_sets.specs.Ends.{outcomes_for};

use crate::ends::End;
use fact_sets::Case;
use packet_sets::{Diagrams, PacketSet, SetError};

/// The packets of these ends of a rule that meet its last statement.
///
/// # Errors
///
/// `TooLarge` where more nodes are needed than the limit allows, `Memory` where an allocation
/// failed.
pub fn met(diagrams: &mut Diagrams, ends: &[Case<End>]) -> Result<PacketSet, SetError>
    requires ends { AreCases diagrams.old ends.now }
    ensures keeps { Keeps diagrams.old diagrams.new }
    ensures value { IfOk result (λ set. Means diagrams.new set
        (λ packet. list_any (λ e. e.met) (outcomes_for diagrams.old ends.now packet))) }
    ensures too_large { IfErr result (λ e. e ≡ TooLarge
        → diagrams.new.limit ≤ length diagrams.new.nodes) }
{
    diagrams.ends();
    let mut met = PacketSet::NONE;
    for end in ends {
        if end.outcome.met {
            met = diagrams.or(met, end.set)?;
        }
    }
    Ok(met)
}
