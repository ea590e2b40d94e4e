//! What two rulesets that are called the same for every packet have in common, as contracts of functions
//! that do nothing: with which facts packets come to the stages of hooks in runs, and that where each
//! stage does the same with every packet that comes to it, the runs of each capture are the same.
#![tactic(auto)]

ghost use Rattle.std.specs.Prelude.{◌≡◌, All, Bool, List, [], ℕ, true};
ghost use Rattle.nft_tree.specs.Tree.{TableTree};
ghost use Rattle.pcap_io.specs.declared.fault.CaptureFault.{CaptureFault};
ghost use Rattle.pcap_io.specs.Pcap.{Recorded};
ghost use Rattle.history.specs.Setup.{Setup};
ghost use Rattle.history.specs.History.{Entry};
ghost use Rattle.stepping.specs.Next.{IsHistoryOf};
ghost use Rattle.engine.specs.AfterFault.{Devices, RecordRefused, RecordsTaken};
ghost use Rattle.engine.specs.Meaning.{Accepted, Meaning};
ghost use Rattle.diff_laws.specs.Coming.{AreBytes, ComesTo};
ghost use Rattle.diff_laws.specs.Same.{SameHistories, SameOutputs, SameStages, with_rules};
ghost use Rattle.diff_laws.specs.Runs.{SameRefusals, SameRuns};
ghost use Rattle.nft_parser.specs.Spells.{Spells};
ghost use Rattle.box_file.specs.Box.{IsBox};
ghost use Rattle.rule_check.specs.WellFormed.{WellFormed};
ghost use Rattle.rule_meaning.specs.declared.facts.Facts.{Facts};
ghost use Rattle.rule_meaning.specs.declared.stage.HookStage.{HookStage};
ghost use Rattle.fact_sets.specs.Boxes.{IsOfBox};
ghost use Rattle.rule_sets.specs.Interfaces.{interfaces_of};
ghost use Rattle.coming_sets.specs.Coming.{can_come_to};
ghost use Rattle.diff_laws.specs.Addresses.{AddressesFit};
ghost use Rattle.diff_laws.specs.AllSame.{AllSame};
ghost use Rattle.diff_report.specs.Reports.{Tells};

use box_file::one_box;
use pcap_io::one_reading;
use rule_meaning::hook_result_unique;
use stepping::one_entry;

/// On one box, the histories of the same records by two rulesets that do the same at each stage are
/// the same entry by entry, but for events; and such histories write the same capture and totals. A
/// ruleset does the same as itself.
pub fn same_stages_same_histories()
    ensures histories { (setup : Setup) (new : List TableTree) → SameStages setup new
        → (records : List Recorded) → All (λ r. AreBytes r.bytes) records
        → (history other : List Entry) → IsHistoryOf setup [] records history
        → IsHistoryOf (with_rules new setup) [] records other → SameHistories history other }
    ensures outputs { (setup : Setup) (new : List TableTree) (history other : List Entry)
        → SameHistories history other → SameOutputs setup new history other }
    ensures itself { (setup : Setup) → SameStages setup setup.rules }
{
    hook_result_unique();
}

/// Where both rulesets are accepted on a box, the runs of each capture are the same.
pub fn same_stages_same_runs()
    ensures whole { (old new box capture : List ℕ) (trace other_trace : Bool) (count others : ℕ)
        (torn other_torn : Bool) (sent other_sent report other_report : List ℕ)
        → (before : Meaning old box capture trace count torn sent report)
        → (after : Meaning new box capture other_trace others other_torn other_sent other_report)
        → AreBytes capture → SameStages before.accepted.setup after.accepted.setup.rules
        → SameRuns before after }
    // A capture that has a run by the one ruleset has one by the other.
    ensures both { (old new box capture : List ℕ) (trace other_trace : Bool) (count : ℕ)
        (torn : Bool) (sent report : List ℕ)
        → Meaning old box capture trace count torn sent report → Accepted new box
        → (other_sent : List ℕ) × (other_report : List ℕ)
        × Meaning new box capture other_trace count torn other_sent other_report }
    // A capture that is refused within its records is so by both.
    ensures refused { (old new box capture : List ℕ) (trace other_trace : Bool)
        (fault other_fault : CaptureFault) (left left_now other_left other_left_now : Devices)
        → (before : RecordRefused old box capture trace fault left left_now)
        → (after : RecordRefused new box capture other_trace other_fault other_left other_left_now)
        → AreBytes capture → SameStages before.taken_so_far.accepted.setup
        after.taken_so_far.accepted.setup.rules → SameRefusals before after }
    // The same of the records before any other fault, where two runs took equally many.
    ensures taken_so_far { (old new box capture : List ℕ) (devices other_devices : Devices)
        → (before : RecordsTaken old box capture devices)
        → (after : RecordsTaken new box capture other_devices) → before.records ≡ after.records
        → AreBytes capture → SameStages before.accepted.setup after.accepted.setup.rules
        → SameHistories before.history after.history }
{
    same_stages_same_histories();
    one_box();
    one_reading();
    one_entry();
}

/// The addresses of a ruleset that a text spells have 32 bits.
pub fn spelled_addresses_fit()
    ensures { (rules : List TableTree) (text : List ℕ) → Spells rules text → AddressesFit rules }
{}

/// The facts with which a packet comes to a stage in a run fit their types, their interfaces are the
/// box's, and they are among those with which packets can come there.
pub fn packets_come_as_they_can()
    // of a well-formed ruleset on a box
    ensures well_formed { (text : List ℕ) (setup : Setup) → IsBox text setup.network
        → WellFormed setup.rules setup.network → AddressesFit setup.rules
        → (stage : HookStage) (f : Facts) → ComesTo setup stage f
        → IsOfBox (interfaces_of setup.network) f × (can_come_to stage f ≡ true) }
    // of accepted texts
    ensures accepted { (rules box : List ℕ) (texts : Accepted rules box) (stage : HookStage)
        (f : Facts) → ComesTo texts.setup stage f
        → IsOfBox (interfaces_of texts.setup.network) f × (can_come_to stage f ≡ true) }
{
    spelled_addresses_fit();
}

/// Where two rulesets do the same at each stage with all facts of the box with which packets can
/// come there, they do so with each packet that comes there in a run, and have the same runs.
pub fn all_same_same_runs()
    ensures stages { (old new box : List ℕ) (before : Accepted old box) (after : Accepted new box)
        → AllSame before.setup.network before.setup.rules after.setup.rules
        → SameStages before.setup after.setup.rules }
    ensures runs { (old new box capture : List ℕ) (trace other_trace : Bool) (count others : ℕ)
        (torn other_torn : Bool) (sent other_sent report other_report : List ℕ)
        → (before : Meaning old box capture trace count torn sent report)
        → (after : Meaning new box capture other_trace others other_torn other_sent other_report)
        → AreBytes capture → AllSame before.accepted.setup.network before.accepted.setup.rules
        after.accepted.setup.rules → SameRuns before after }
    // A capture that is refused within its records is so by both.
    ensures refused { (old new box capture : List ℕ) (trace other_trace : Bool)
        (fault other_fault : CaptureFault) (left left_now other_left other_left_now : Devices)
        → (before : RecordRefused old box capture trace fault left left_now)
        → (after : RecordRefused new box capture other_trace other_fault other_left other_left_now)
        → AreBytes capture → AllSame before.taken_so_far.accepted.setup.network
        before.taken_so_far.accepted.setup.rules after.taken_so_far.accepted.setup.rules
        → SameRefusals before after }
{
    packets_come_as_they_can();
    same_stages_same_runs();
}

/// Where two rulesets are called the same for every packet on a box, the runs of each capture by both
/// are the same: the packets that leave, the outcome of each record, and the totals.
pub fn told_same_same_runs()
    ensures { (old new box capture : List ℕ) (trace other_trace : Bool) (count others : ℕ)
        (torn other_torn : Bool) (sent other_sent report other_report : List ℕ)
        → (before : Meaning old box capture trace count torn sent report)
        → (after : Meaning new box capture other_trace others other_torn other_sent other_report)
        → AreBytes capture → (text : List ℕ) → Tells before.accepted.setup.network
        before.accepted.setup.rules after.accepted.setup.rules (λ f. true) true text
        → SameRuns before after }
{
    all_same_same_runs();
}
