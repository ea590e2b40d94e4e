//! A run of the same files once more.
use crate::fullness::Fullness;
use crate::tally::source_of;
use engine::{Passed as Outcome, Rerun, RunFault};
use history::Cause;
use pcap_io::{Counted, Record};
use std::alloc::{AllocError, Global};
use std::hash::RandomState;
use std::io::{Read, Write};

/// The most records that are read.
pub(crate) const MOST_RECORDS: u64 = 10_000_000;

/// The texts of a ruleset and of its box file.
#[derive(Clone, Copy)]
pub struct Texts<'a> {
    pub rules: &'a [u8],
    pub network: &'a [u8],
}

/// A run that is stepped through; what it writes is lost.
#[derive(Drop)]
pub struct SecondRun<R, W> {
    run: Rerun,
    capture: Counted<R>,
    lost: Counted<W>,
}

/// What became of a record.
#[derive(Clone, Copy)]
pub(crate) struct Step {
    /// Its number, from 1.
    pub number: u64,
    /// The time of the run at it, in nanoseconds since 1970.
    pub moment: u64,
    /// How many connections live behind it.
    pub live: usize,
    /// Whether it is the first behind which so many do.
    pub is_fullest: bool,
    /// Whether its packet began a connection.
    pub begun: bool,
    /// Why its packet was dropped, if it was.
    pub cause: Option<Cause>,
    /// The address that its packet comes from; none where it has no IPv4 packet.
    pub source: Option<u32>,
}

impl<R: Read + Drop, W: Write + Drop> SecondRun<R, W> {
    /// A run before its first record. None where it can't begin: the first run told why.
    ///
    /// `lost` may throw away what it gets. The keys of `hasher` seed its tables, as those of a run.
    pub fn open(
        alloc: Global,
        hasher: RandomState,
        texts: Texts<'_>,
        capture: R,
        lost: W,
    ) -> Option<SecondRun<R, W>> {
        let mut capture = Counted::new(capture);
        let mut lost = Counted::new(lost);
        let run = Rerun::open(
            alloc,
            hasher,
            texts.rules,
            texts.network,
            &mut capture,
            &mut lost,
        )
        .ok()?;
        Some(SecondRun { run, capture, lost })
    }

    /// Steps through the next record. None behind the last one that can be read, or that is.
    ///
    /// # Errors
    /// `AllocError` for want of memory.
    pub(crate) fn next(&mut self) -> Result<Option<Step>, AllocError> {
        match self.run.next(&mut self.capture, &mut self.lost) {
            Ok(true) => Ok(last_step(&self.run)),
            Err(RunFault::Memory) => Err(AllocError),
            _ => Ok(None),
        }
    }

    /// Notes the next records, and which hosts began the connections alive behind them if these are
    /// the most.
    pub(crate) fn fill(&mut self, alloc: Global, into: &mut Fullness) -> Result<(), AllocError> {
        let mut is_fullest = false;
        for _ in 0..MOST_RECORDS {
            let Some(step) = self.next()? else {
                break;
            };
            is_fullest = into.note(step, is_fullest)?;
        }
        if is_fullest {
            return put_initiators(alloc, &self.run, &mut into.initiators);
        }
        Ok(())
    }

    /// Steps through so many more records, and notes which hosts began the connections alive then.
    pub(crate) fn put_initiators(
        &mut self,
        alloc: Global,
        records: u64,
        addresses: &mut Vec<u32>,
    ) -> Result<(), AllocError> {
        for _ in 0..records {
            if self.next()?.is_none() {
                break;
            }
        }
        put_initiators(alloc, &self.run, addresses)
    }
}

/// Replaces the addresses by those that began the connections alive now, each as often as it did.
fn put_initiators(alloc: Global, run: &Rerun, addresses: &mut Vec<u32>) -> Result<(), AllocError> {
    addresses.clear();
    let connections = run.engine().connections(alloc)?;
    for connection in &connections {
        addresses.push(connection.original.source.address)?;
    }
    Ok(())
}

/// What became of the last record of a run.
fn last_step(run: &Rerun) -> Option<Step> {
    let record = run.record()?;
    let engine = run.engine();
    let entry = engine.entry()?;
    let cause = match entry.outcome {
        Outcome::Dropped(cause) => Some(cause),
        _ => None,
    };
    Some(Step {
        number: entry.number,
        moment: record.moment,
        live: engine.live(),
        is_fullest: run.fullest().number == entry.number,
        begun: entry.begun,
        cause,
        source: source_in(&record),
    })
}

/// The source address of a record's packet.
fn source_in(record: &Record<'_>) -> Option<u32> {
    let link = record.link().ok()?;
    source_of(&record.bytes[link.packet..])
}
