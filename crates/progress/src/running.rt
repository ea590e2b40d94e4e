//! A run: what it is given, and its progress.
ghost use Rattle.progress.specs.Outputs.{UsesDevices, device, capture_bytes};

use crate::progress_reader::{Progress, ProgressReader};
use devices::Counted;
use engine::RunFault;
use std::hash::RandomState;
use std::io::{Read, Write};
use std::rt::Clock;

/// What a run is given beside its files.
#[derive(Clone, Copy)]
pub struct RunInputs<'a> {
    /// The keys of its hash tables.
    pub hasher: RandomState,
    /// The text of the ruleset.
    pub rules: &'a [u8],
    /// The text of the box file.
    pub network: &'a [u8],
    /// Whether the report has each verdict and each outcome.
    pub trace: bool,
}

/// Runs the engine on a capture, shows the progress of reading it, and returns whether the capture
/// is torn. What is shown changes nothing of the run.
pub fn run_with_progress<'b, R: Clock + Eprint + AllocGlobal, T: Read, W: Write, W2: Write>(
    rt: &'b R,
    inputs: RunInputs<'_>,
    progress: Option<Progress>,
    capture: &mut Counted<ProgressReader<'b, R, T>>,
    sent: &mut Counted<W>,
    report: &mut Counted<W2>,
) -> Result<bool, RunFault>
    ensures { UsesDevices inputs.entry.rules.now inputs.entry.network.now inputs.entry.trace
        (device (capture_bytes T.remaining) capture.old) (device (capture_bytes T.remaining) capture.new)
        (device W.contents sent.old) (device W.contents sent.new)
        (device W2.contents report.old) (device W2.contents report.new) result }
{
    capture.inner.begin(rt, progress);
    let outcome = engine::run(
        rt.alloc(),
        inputs.hasher,
        inputs.rules,
        inputs.network,
        capture,
        sent,
        report,
        inputs.trace,
    );
    capture.inner.end();
    Ok(outcome?.torn)
}
