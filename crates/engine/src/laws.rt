//! Laws of the meaning, each the contract of a function that does nothing: two texts and a capture
//! have one meaning or one refusal, never both; two texts have one judgement or one fault, never
//! both; and one call failed or none did.
ghost use Rattle.std.specs.Prelude.{◌≡◌, ◌⊎◌, List, ℕ, Bool, Some};
ghost use Rattle.engine.specs.declared.fault.RunFault.{RunFault};
ghost use Rattle.engine.specs.declared.judging.Counts.{Counts};
ghost use Rattle.engine.specs.Judged.{Judged, JudgeRefuses};
ghost use Rattle.engine.specs.Meaning.{Meaning};
ghost use Rattle.engine.specs.AfterFault.{Devices, NoneFailed, OneFailed};
ghost use Rattle.engine.specs.Refusals.{IsOfTexts, IsRefusal, Refuses};
ghost use Rattle.engine.specs.steps.Inputs.{Laws};

use box_file::{one_box, some_box};
use nft_parser::{one_fault, one_tree};
use pcap_io::{failure_shows, one_reading, some_reading};
use rule_check::{least_fault_unique, well_formed_or_least_fault};
use stepping::one_entry;

/// What is read is unique, and is never both accepted and refused.
fn readings()
    ensures { Laws }
{
    one_tree();
    one_fault();
    least_fault_unique();
    one_box();
    one_reading();
}

/// The meaning is unique.
pub fn one_meaning()
    ensures { (rules box capture : List ℕ) (trace : Bool) (count others : ℕ)
        (torn other_torn : Bool) (sent other_sent report other_report : List ℕ)
        → Meaning rules box capture trace count torn sent report
        → Meaning rules box capture trace others other_torn other_sent other_report
        → (count ≡ others) × (torn ≡ other_torn) × (sent ≡ other_sent) × (report ≡ other_report) }
{
    readings();
    one_entry();
}

/// The refusal is unique.
pub fn one_refusal()
    ensures { (rules box capture : List ℕ) (fault other : RunFault) → IsRefusal fault
        → IsRefusal other → Refuses rules box (Some capture) fault
        → Refuses rules box (Some capture) other → fault ≡ other }
{
    readings();
}

/// Refused inputs have no meaning.
pub fn no_meaning()
    ensures { (rules box capture : List ℕ) (fault : RunFault) (trace : Bool) (count : ℕ)
        (torn : Bool) (sent report : List ℕ) → IsRefusal fault
        → Refuses rules box (Some capture) fault
        → Meaning rules box capture trace count torn sent report → ⊥ }
{
    readings();
}

/// All inputs have a meaning or a refusal.
pub fn some_answer()
    ensures { (rules box capture : List ℕ) (trace : Bool)
        → ((count : ℕ) × (torn : Bool) × (sent : List ℕ) × (report : List ℕ)
        × Meaning rules box capture trace count torn sent report) ⊎ ((fault : RunFault)
        × IsRefusal fault × Refuses rules box (Some capture) fault) }
{
    some_judging();
    some_reading();
    one_entry();
}

/// The judgement of two texts is unique: counts or one fault, never both.
pub fn one_judging()
    ensures counts { (rules box : List ℕ) (counts other : Counts) → Judged rules box counts
        → Judged rules box other → counts ≡ other }
    ensures fault { (rules box : List ℕ) (fault other : RunFault) → IsOfTexts fault
        → IsOfTexts other → JudgeRefuses rules box fault → JudgeRefuses rules box other
        → fault ≡ other }
    ensures apart { (rules box : List ℕ) (counts : Counts) (fault : RunFault) → IsOfTexts fault
        → Judged rules box counts → JudgeRefuses rules box fault → ⊥ }
{
    readings();
}

/// All texts are judged or refused.
pub fn some_judging()
    ensures { (rules box : List ℕ) → ((counts : Counts) × Judged rules box counts)
        ⊎ ((fault : RunFault) × IsOfTexts fault × JudgeRefuses rules box fault) }
{
    nft_parser::some_answer();
    some_box();
    well_formed_or_least_fault();
}

/// One call failed or none did, never both, however many had failed before.
pub fn failed_or_not()
    ensures { (old new : Devices) → OneFailed old new → NoneFailed old new → ⊥ }
{
    failure_shows();
}
