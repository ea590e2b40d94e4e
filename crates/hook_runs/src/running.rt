//! Runs base chains one after another.
ghost use Rattle.std.specs.Prelude.{◌≡◌, ◌≤◌, ◌+◌, ◌-◌, ◌^◌, length, min};
ghost use Rattle.hook_runs.specs.StageCode.{continues, started};
ghost use Rattle.hook_runs.specs.steps.Starts.{cost_of, in_order_result};
ghost use Rattle.filter_vm.specs.declared.events.TheConstants.{MOST_EVENTS};

use crate::events::Events;
use filter_vm::{Code, Start};
use rule_meaning::{Facts, HookVerdict};

/// Whether the next base chain runs after this verdict.
#[inline(always)]
fn continues(verdict: HookVerdict) -> bool
    ensures { result ≡ continues verdict }
{
    matches!(verdict, HookVerdict::Accepted)
}

/// Runs a packet through base chains, one after another, until one doesn't accept it. Marks and
/// `notrack` are written to `facts` in place.
#[inline(always)]
pub(crate) fn run_in_order(
    code: &Code,
    starts: &[Start],
    facts: &mut Facts,
    events: &mut Events,
) -> HookVerdict
    requires room { length events.old.events + cost_of starts.now ≤ MOST_EVENTS }
    ensures end { record { verdict = result; facts = facts.new; events = events.new.events }
        ≡ in_order_result code.now starts.now facts.old events.old.events }
    ensures events { length events.new.events ≤ length events.old.events + cost_of starts.now }
    ensures rise { events.old.ticks ≤ events.new.ticks }
    ensures ticks { events.new.ticks ≤ events.old.ticks + cost_of starts.now }
    ensures counted { events.new.ticks ≡ min (events.old.ticks
        + started code.now starts.now facts.old events.old.events) (2 ^ 64 - 1) }
    ensures few { started code.now starts.now facts.old events.old.events ≤ cost_of starts.now }
{
    // The type bounds the count, which the proof needs.
    let _ = events.ticks();
    for start in starts {
        let verdict = events.run_chain(code, *start, facts);
        if !continues(verdict) {
            return verdict;
        }
    }
    HookVerdict::Accepted
}
