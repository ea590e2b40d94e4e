//! The laws of NAT, for all histories, as the contract of a function that does nothing; and that the
//! program's calls keep them: the list of connections, each record processed, and a whole run.
#![tactic(auto)]

ghost use Rattle.std.specs.Prelude.{◌<◌, ℕ, Bool, [], List, Option, IfOk};
ghost use Rattle.engine.specs.AfterFault.{Devices, RecordsTaken};
ghost use Rattle.engine.specs.Meaning.{WroteOutputs};
ghost use Rattle.history.specs.Setup.{Setup};
ghost use Rattle.history.specs.History.{Entry, moment_of};
ghost use Rattle.pcap_io.specs.Pcap.{decoded_records};
ghost use Rattle.stepping.specs.Representing.{Represents, recorded_of};
ghost use Rattle.translation_laws.specs.Lawful.{AtEachPrefix, StepKeepsLaws};
ghost use Rattle.translation_laws.specs.Laws.{HistoryLaws, LiveLaws};
ghost use Rattle.translation_laws.specs.Histories.{EntriesFollow, IsHistory};

use conntrack::laws::{one_more_entry, tuples_stay_disjoint};
use conntrack::{Connection, Tracker};
use history::Outcome;
use ip_headers::laws::no_fault;
use nat_mapping::laws::{inbound_is_held, stays_one_to_one};
use pcap_io::Record;
use port_pool::laws::candidates_keep_class_and_parity;
use rewrite::laws::rewritten_has_tuple;
use std::alloc::{AllocError, Global};
use stepping::Engine;

/// What holds of NAT in each history, on each box: the empty one is a history, each entry of a
/// history extends the one before it, and each history obeys the laws.
pub fn translation_laws()
    ensures begins { (setup : Setup) → IsHistory setup [] }
    ensures entries { (setup : Setup) → EntriesFollow setup }
    ensures obeys { (setup : Setup) (history : List Entry) → IsHistory setup history
        → HistoryLaws setup history }
{
    // What one more entry changes.
    one_more_entry();
    // Connections stay apart, and mappings one to one.
    tuples_stay_disjoint();
    stays_one_to_one();
    inbound_is_held();
    // A port keeps its class and parity where the whole class is a candidate.
    candidates_keep_class_and_parity();
    // A rewritten packet has the tuple that it was given.
    rewritten_has_tuple();
    no_fault();
}

/// `Engine::connections` with the laws of its list: exactly the connections alive at the time of
/// the last record, in the order in which they began.
///
/// # Errors
/// An allocation failed.
pub fn connections_keep_the_laws<T: Tracker>(
    engine: &Engine<T>,
    alloc: Global,
) -> Result<Vec<Connection>, AllocError>
    ensures { (history : List Entry) → IsHistory engine.now.setup history
        → Represents engine.now history → IfOk result (λ all.
        LiveLaws engine.now.setup history (moment_of history) all.items) }
{
    translation_laws();
    engine.connections(alloc)
}

/// `Engine::step` with the laws of its entry: an engine that represents a history represents it
/// with the next entry then, and the laws hold of both.
///
/// # Errors
/// An allocation failed. The engine is unchanged.
pub fn steps_keep_the_laws<T: Tracker>(
    engine: &mut Engine<T>,
    recorded: &Record,
) -> Result<Outcome, AllocError>
    requires few { engine.old.records < 4294967296 }
    ensures { (history : List Entry) → IsHistory engine.old.setup history
        → Represents engine.old history → IfOk result (λ outcome.
        StepKeepsLaws engine.old history (recorded_of recorded.now) engine.new outcome) }
{
    translation_laws();
    engine.step(recorded)
}

/// Each prefix of a run's history obeys the laws, also of a run that ends with a fault.
pub fn runs_keep_the_laws()
    ensures whole { (rules box capture : List ℕ) (trace : Bool) (count : ℕ) (torn : Bool)
        (old new old_report new_report : Option (List ℕ))
        → (wrote : WroteOutputs rules box capture trace count torn old new old_report new_report)
        → AtEachPrefix wrote.meaning.accepted.setup
        (decoded_records wrote.meaning.read.format wrote.meaning.records) wrote.meaning.history }
    ensures taken_so_far { (rules box capture : List ℕ) (new : Devices)
        → (left : RecordsTaken rules box capture new)
        → AtEachPrefix left.accepted.setup (decoded_records left.format left.records) left.history }
{
    translation_laws();
}
