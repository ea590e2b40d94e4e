//! What the records of a run show of its connection table.
use crate::second_run::{SecondRun, Step};
use history::Cause;
use std::alloc::{AllocError, Global};
use std::io::{Read, Write};

/// When the most connections lived and which hosts began them, and whose packets found no room.
#[derive(Drop)]
pub struct Fullness {
    /// How many records were read.
    pub(crate) records: u64,
    /// The first record behind which the most connections lived; none where none ever did.
    pub(crate) fullest: Option<Step>,
    /// The addresses that began them, each as often as it did; none while they aren't known.
    pub(crate) initiators: Vec<u32>,
    /// The senders of the packets that were dropped for each cause, each as often as it sent one.
    pub(crate) without_port: Vec<u32>,
    pub(crate) without_room: Vec<u32>,
    pub(crate) clashing: Vec<u32>,
}

impl Fullness {
    /// Of the records of a run, at most 10,000,000.
    ///
    /// # Errors
    /// `AllocError` for want of memory.
    pub fn of<R: Read + Drop, W: Write + Drop>(
        alloc: Global,
        mut run: SecondRun<R, W>,
    ) -> Result<Fullness, AllocError> {
        let mut fullness = Fullness {
            records: 0,
            fullest: None,
            initiators: Vec::new(alloc),
            without_port: Vec::new(alloc),
            without_room: Vec::new(alloc),
            clashing: Vec::new(alloc),
        };
        run.fill(alloc, &mut fullness)?;
        Ok(fullness)
    }

    /// Notes a record: whether behind it the same connections live as when they were most, if they
    /// did before it: none began at it, and none ended where there are as many.
    pub(crate) fn note(&mut self, step: Step, before: bool) -> Result<bool, AllocError> {
        self.records = step.number;
        if step.is_fullest {
            self.fullest = Some(step);
        }
        if let (Some(cause), Some(source)) = (step.cause, step.source)
            && let Some(senders) = self.senders(cause)
        {
            senders.push(source)?;
        }
        match self.fullest {
            Some(most) => Ok(step.is_fullest || before && !step.begun && step.live == most.live),
            None => Ok(false),
        }
    }

    /// The senders of the packets that were dropped for a cause by which no connection could begin.
    pub(crate) fn senders(&mut self, cause: Cause) -> Option<&mut Vec<u32>> {
        match cause {
            Cause::NoPort => Some(&mut self.without_port),
            Cause::Full => Some(&mut self.without_room),
            Cause::Clash => Some(&mut self.clashing),
            _ => None,
        }
    }

    /// Whether `read_again` has to find the hosts.
    pub fn lacks_hosts(&self) -> bool {
        self.fullest.is_some() && self.initiators.is_empty()
    }

    /// Finds the hosts by the same run once more.
    ///
    /// # Errors
    /// `AllocError` for want of memory.
    pub fn read_again<R: Read + Drop, W: Write + Drop>(
        &mut self,
        alloc: Global,
        mut run: SecondRun<R, W>,
    ) -> Result<(), AllocError> {
        match self.fullest {
            Some(fullest) => run.put_initiators(alloc, fullest.number, &mut self.initiators),
            None => Ok(()),
        }
    }
}
