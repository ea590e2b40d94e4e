//! Laws of entries, each the contract of a function that does nothing.
ghost use Rattle.std.specs.Prelude.{◌≡◌, ◌≤◌, ℕ, IsTrue, List, Some};
ghost use Rattle.conntrack.specs.declared.connection.ConntrackEntry.{ConntrackEntry};
ghost use Rattle.conntrack.specs.TableEntries.{SameExceptIds, has_distinct_ids, live_at};
ghost use Rattle.conntrack.specs.Histories.{live_list};
ghost use Rattle.filter_vm.specs.Machine.{EventsAndTicks};
ghost use Rattle.pcap_io.specs.Pcap.{Recorded};
ghost use Rattle.rule_check.specs.WellFormed.{WellFormed};
ghost use Rattle.history.specs.History.{Entry, live_in, moment_of, tracked_of};
ghost use Rattle.history.specs.Setup.{Setup, limits_of};
ghost use Rattle.stepping.specs.declared.process.RecordResult.{RecordResult as TheResult};
ghost use Rattle.stepping.specs.Carried.{carried};
ghost use Rattle.stepping.specs.Next.{Next, moment_after};
ghost use Rattle.stepping.specs.steps.Processing.{Extends, HasProcessed, newest_in};

use conntrack::laws::{independent_of_ids, one_more_entry};
use rule_laws::hooks_terminate;
use rule_meaning::hook_result_unique;
use translation::laws::independent_of_ids as mappings_aside;

/// After each history a record has at most one entry, and exactly one if the ruleset is
/// well-formed.
pub fn one_entry()
    ensures some { (setup : Setup) (history : List Entry) (r : Recorded)
        → WellFormed setup.rules setup.network → (e : Entry) × Next setup history r e }
    ensures one { (setup : Setup) (history : List Entry) (r : Recorded) (e other : Entry)
        → Next setup history r e → Next setup history r other → e ≡ other }
{
    hook_result_unique();
    hooks_terminate();
}

/// A record extends a history that holds these connections but for ids, and so do they after it.
pub(crate) fn extends_history()
    ensures aged { (setup : Setup) (history : List Entry) (held : List ConntrackEntry) (now : ℕ)
        → SameExceptIds held (live_in setup history) → moment_of history ≤ now
        → SameExceptIds (live_at (limits_of setup) now held)
        (live_list (limits_of setup) (tracked_of history) now) }
    ensures extended { (setup : Setup) (history : List Entry) (r : Recorded) (now : ℕ)
        (held new : List ConntrackEntry) (ended : TheResult) (events : EventsAndTicks)
        (packet : List ℕ) → now ≡ moment_after history r
        → SameExceptIds held (live_list (limits_of setup) (tracked_of history) now)
        → IsTrue (has_distinct_ids held)
        → HasProcessed setup (carried setup r) now held new ended events.events packet
        → Extends setup history r new (newest_in (Some ended) now events packet) }
{
    independent_of_ids();
    mappings_aside();
    one_more_entry();
}
