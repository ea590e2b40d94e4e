//! Runs a ruleset over a capture.
ghost use Rattle.std.specs.Prelude.{◌≡◌, ◌⊎◌, IfOk, IfErr, IfSome, OnOk, IsErrOf};
ghost use Rattle.std.specs.Io.KnownBytes.{IsAtEnd};
ghost use Rattle.engine.specs.declared.fault.RunFault.{RunFault};
ghost use Rattle.engine.specs.Meaning.{WroteOutputs};
ghost use Rattle.engine.specs.Refusals.{Refuses, IsOfRecord, IsOfTexts, IsBeforeHeader};
ghost use Rattle.engine.specs.AfterFault.{AllFlushed, CountsFault, LeftDevices, devices};

use crate::fault::RunFault;
use crate::inputs::checked;
use crate::laws::one_meaning;
use crate::replay::replay_capture;
use pcap_io::{Capture, Counted};
use std::alloc::Global;
use std::hash::RandomState;
use std::io::{Read, Write};
use stepping::Engine;

/// The result of a run.
#[derive(Clone, Copy)]
pub struct Summary {
    /// The number of whole records in the capture.
    pub records: u64,
    /// Whether the capture ends inside a record.
    pub torn: bool,
}

/// Runs the packets of a capture through a ruleset, as a forwarding box with these interfaces and
/// routes would; writes the forwarded packets to `sent` as a capture, and a report to `report`.
///
/// `rules` is the text of an nft(8) ruleset, `network` that of a box file. With `trace` the report
/// has each verdict and each outcome. The keys of `hasher` seed the tables of connections and
/// mappings, against captures made to collide; nothing that is written depends on them.
///
/// Nothing is read of the capture before the texts are accepted, and nothing is written before its
/// header is accepted. A capture that ends inside a record is no error: its whole records are
/// processed, and the summary says so. Before each read, all output of the records so far is
/// written, though not flushed; at most one buffer is read ahead.
///
/// # Errors
/// The first refusal, of the rules' text, the box file, the ruleset on the box, the capture's
/// header and its records. `Memory` after a failed allocation. `Device` after a read or a write
/// failed, which isn't tried again.
///
/// After a refused record and after `Memory` at a record, all output of the records before it is
/// written and flushed; after `Memory` before the first record nothing is written. After `Device`
/// each writer holds a prefix of its text. The report then lacks the lines that follow the last
/// record, unless its own writer failed among them.
pub fn run<R: Read, W: Write, W2: Write>(
    alloc: Global,
    hasher: RandomState,
    rules: &[u8],
    network: &[u8],
    capture: &mut Counted<R>,
    sent: &mut Counted<W>,
    report: &mut Counted<W2>,
    trace: bool,
) -> Result<Summary, RunFault>
    // The written bytes are the meaning of the inputs, which is unique.
    ensures meaning { IfOk result (λ summary. IfSome (R.remaining capture.old.inner) (λ input.
        WroteOutputs rules.now network.now input trace summary.records summary.torn
        (W.contents sent.old.inner) (W.contents sent.new.inner) (W2.contents report.old.inner)
        (W2.contents report.new.inner))) }
    // The reader has ended.
    ensures drained { OnOk result (IsAtEnd (R.remaining capture.new.inner)) }
    // All is flushed, also at a refused record and after a failed allocation.
    ensures flushed { OnOk result (AllFlushed sent.new report.new) }
    ensures refused { IfErr result (λ fault. IsOfRecord fault → AllFlushed sent.new report.new) }
    ensures memory { IsErrOf result RunFault.Memory
        → ((sent.new ≡ sent.old) × (report.new ≡ report.old)) ⊎ AllFlushed sent.new report.new }
    // A refusal is the one that the inputs have.
    ensures refusals { IfErr result (λ fault.
        Refuses rules.now network.now (R.remaining capture.old.inner) fault) }
    // Where a text is refused, nothing is read of the capture.
    ensures unread { IfErr result (λ fault. IsOfTexts fault → capture.new ≡ capture.old) }
    // Before the capture's header is accepted nothing is written.
    ensures before_header { IfErr result (λ fault. IsBeforeHeader fault → (sent.new ≡ sent.old)
        × (report.new ≡ report.old)) }
    // After an error each writer holds a prefix of its text for the records read, and the whole of
    // it unless a write failed; the reader is at most one buffer ahead.
    ensures left { IfErr result (λ fault. IfSome (R.remaining capture.old.inner) (λ input.
        LeftDevices rules.now network.now input trace
        (devices R.remaining W.contents W2.contents capture.old sent.old report.old)
        (devices R.remaining W.contents W2.contents capture.new sent.new report.new) fault)) }
    // `Device` is exactly one failed call; otherwise none failed.
    ensures failures { CountsFault result
        (devices R.remaining W.contents W2.contents capture.old sent.old report.old)
        (devices R.remaining W.contents W2.contents capture.new sent.new report.new) }
{
    let checked = checked(alloc, rules, network)?;
    let records = Capture::open(alloc, capture)?;
    one_meaning();
    let engine = Engine::with_hasher(alloc, hasher, checked)?;
    replay_capture(alloc, engine, records, trace, capture, sent, report)
}
