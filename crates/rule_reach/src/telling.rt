//! What packets of sets do at rules.
ghost use Rattle.std.specs.Prelude.{◌∷◌, [], IfOk};
ghost use Rattle.std.specs.List.{AllZip};
ghost use Rattle.packet_sets.specs.Sets.{IsSet};
ghost use Rattle.fact_sets.specs.Cases.{AreCases};
ghost use Rattle.chain_sets.specs.RuleSets.{sets_of};
ghost use Rattle.rule_reach.specs.steps.Telling.{AreRuleSets, HasPacket, IsAnswerBy, IsTold, SomeEnd};

use crate::answers::{Answer, RuleReach};
use chain_sets::{ChainEnd, RuleSets, Visits};
use fact_sets::Case;
use packet_sets::{Diagrams, PacketSet};
use std::alloc::{AllocError, Global};

/// Whether some packet is in the set.
pub(crate) fn has_packet(diagrams: &Diagrams, set: PacketSet) -> bool
    requires { IsSet diagrams.now set }
    ensures { HasPacket diagrams.now set result }
{
    !diagrams.is_none(set)
}

/// What packets do at a rule, by those that come to it, and those that meet its last statement.
fn answer(diagrams: &Diagrams, sets: RuleSets) -> Answer
    requires reached { IsSet diagrams.now sets.reached }
    requires met { IsSet diagrams.now sets.met }
    ensures { IsAnswerBy diagrams.now sets result }
{
    if !diagrams.is_none(sets.met) {
        Answer::Met
    } else if !diagrams.is_none(sets.reached) {
        Answer::NotMatched
    } else {
        Answer::NotReached
    }
}

/// The same of a rule with what packets of other base chains do there. Those of a base chain come to
/// rules of its own table only.
fn told(diagrams: &Diagrams, table: u32, visits: &Visits, reach: RuleReach) -> RuleReach
    requires { AreRuleSets diagrams.now (sets_of visits.now) }
    ensures { IsTold diagrams.now table (sets_of visits.now) reach result }
{
    let rule = reach.rule;
    if rule.table != table {
        return reach;
    }
    let here = answer(diagrams, visits.sets(rule.chain, rule.rule));
    RuleReach {
        rule,
        answer: reach.answer.or(here),
    }
}

/// The same of all rules.
pub(crate) fn all_told(
    alloc: Global,
    diagrams: &Diagrams,
    table: u32,
    visits: &Visits,
    rules: &[RuleReach],
) -> Result<Vec<RuleReach>, AllocError>
    requires { AreRuleSets diagrams.now (sets_of visits.now) }
    ensures { IfOk result (λ all.
        AllZip (IsTold diagrams.now table (sets_of visits.now)) rules.now all.items) }
{
    let mut all = Vec::new(alloc);
    for reach in rules {
        all.push(told(diagrams, table, visits, *reach))?;
    }
    Ok(all)
}

/// Whether some packet's way ends so, at the base chain's end.
fn is_end(diagrams: &Diagrams, end: Case<ChainEnd>) -> bool
    requires { IsSet diagrams.now end.set }
    ensures { SomeEnd diagrams.now (end ∷ []) result }
{
    match end.outcome.verdict {
        Some(_) => false,
        None => !diagrams.is_none(end.set),
    }
}

/// Whether some packet's way ends at the base chain's end.
pub(crate) fn some_end(diagrams: &Diagrams, ends: &[Case<ChainEnd>]) -> bool
    requires { AreCases diagrams.now ends.now }
    ensures { SomeEnd diagrams.now ends.now result }
{
    for end in ends {
        if is_end(diagrams, *end) {
            return true;
        }
    }
    false
}
