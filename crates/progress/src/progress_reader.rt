//! Shows once a second, on a terminal, how much of a capture is read.
ghost use Rattle.std.specs.Prelude.{◌≡◌, ◌+◌, ◌^◌, ◌-◌, None, min};
ghost use Rattle.std.specs.Io.{ReadsAtMost};
ghost use Rattle.std.specs.Io.KnownBytes.{ReadConsumes};
ghost use Rattle.devices.specs.CountedCalls.{CountsFailure};

use devices::Counted;
use std::io::{Eprint, Read};
use std::rt::Clock;
use std::time::Instant;
use std::{fmt, io};

/// The seconds before the first line of progress, and between lines.
const PAUSE_SECONDS: u64 = 1;

/// A reader of a capture that can show progress.
///
/// A read has the result of the capture's own read. Where progress can't be shown, because there is
/// no clock or a write fails, the run continues without it.
#[derive(Drop)]
pub struct ProgressReader<'b, R, T> {
    input: Counted<T>,
    display: Option<ProgressDisplay<'b, R>>,
}

impl<'b, R: Clock + Eprint, T: Read> ProgressReader<'b, R, T> {
    /// A reader that doesn't show progress yet.
    pub fn new(input: Counted<T>) -> Self
        ensures { result.input ≡ input }
    {
        ProgressReader {
            input,
            display: None,
        }
    }

    /// Shows progress from now on; without `progress` nothing is shown.
    pub(crate) fn begin(&mut self, rt: &'b R, progress: Option<Progress>)
        ensures { self.new.input ≡ self.old.input }
    {
        self.display = ProgressDisplay::new(rt, progress);
    }

    /// Ends the line of progress, so that what is printed next begins on a new one.
    pub(crate) fn end(&mut self)
        ensures { self.new.input ≡ self.old.input }
    {
        if let Some(display) = self.display.take() {
            display.end();
        }
    }
}

impl<R: Clock + Eprint, T: Read> Read for ProgressReader<'_, R, T> {
    ghost remaining = { λ w. T.remaining w.input.inner };

    fn read(&mut self, buf: &mut [u8]) -> io::Result<usize>
        ensures bound { ReadsAtMost result buf.new }
        ensures bytes { ReadConsumes (T.remaining self.old.input.inner)
            (T.remaining self.new.input.inner) result buf.new }
        // It fails exactly where the capture's own read does.
        ensures fails { CountsFailure result self.old.input.failures self.new.input.failures }
    {
        let answer = self.input.read(buf);
        if let (Ok(count), Some(display)) = (&answer, &mut self.display) {
            display.add(*count as u64);
        }
        answer
    }
}

/// How progress is shown.
#[derive(Clone, Copy)]
pub struct Progress {
    pub line: ProgressLine,
    /// The size of the capture in bytes, where it is known.
    pub size: Option<u64>,
}

/// How lines of progress are printed.
#[derive(Clone, Copy, PartialEq)]
pub enum ProgressLine {
    /// Each overwrites the one before: the terminal shows nothing else.
    Overwritten,
    /// Each is a line of its own: the terminal shows the report too.
    Appended,
}

/// The lines that show how much of a capture is read.
#[derive(Drop)]
struct ProgressDisplay<'b, R> {
    rt: &'b R,
    progress: Progress,
    /// How many bytes were read.
    count: u64,
    /// When the last line was printed, or before that when the run began.
    latest: Instant,
    /// Whether a line without its newline was printed.
    is_open: bool,
}

impl<'b, R: Clock + Eprint> ProgressDisplay<'b, R> {
    /// None where nothing is to be shown, or there is no clock.
    fn new(rt: &'b R, progress: Option<Progress>) -> Option<Self> {
        let progress = progress?;
        let latest = Instant::now(rt).ok()?;
        Some(ProgressDisplay {
            rt,
            progress,
            count: 0,
            latest,
            is_open: false,
        })
    }

    /// Adds bytes that were read, and prints a line if the last one is old enough.
    fn add(&mut self, count: u64)
        ensures { self.new.count ≡ min (self.old.count + count) (2 ^ 64 - 1) }
    {
        self.count = self.count.saturating_add(count);
        let Ok(now) = Instant::now(self.rt) else {
            return;
        };
        if now.duration_since(self.latest).as_secs() >= PAUSE_SECONDS {
            self.latest = now;
            self.print();
        }
    }

    // A line that can't be written is ignored.
    fn print(&mut self)
        ensures { self.new.count ≡ self.old.count }
    {
        let rt = self.rt;
        let text = ProgressText {
            count: self.count,
            size: self.progress.size,
        };
        let _ = match self.progress.line {
            ProgressLine::Overwritten => eprint!(rt; "\r{text}"),
            ProgressLine::Appended => eprintln!(rt; "{text}"),
        };
        self.is_open = self.progress.line == ProgressLine::Overwritten;
    }

    fn end(self) {
        if self.is_open {
            let rt = self.rt;
            let text = ProgressText {
                count: self.count,
                size: self.progress.size,
            };
            let _ = eprintln!(rt; "\r{text}");
        }
    }
}

/// A line of progress. It never gets shorter as more is read, so it can be overwritten.
#[derive(Clone, Copy)]
struct ProgressText {
    count: u64,
    size: Option<u64>,
}

impl fmt::Display for ProgressText {
    ghost use Rattle.std.specs.Prelude.{Some};
    ghost use Rattle.progress.specs.ProgressLine.{progress_line};

    ghost output = { λ text. Some (progress_line text.count text.size) };

    fn fmt<W: fmt::Write>(&self, f: &mut fmt::Formatter<W>) -> fmt::Result {
        let count = Megabytes(self.count);
        match self.size {
            Some(size) => {
                let size = Megabytes(size);
                write!(f, "nftrun: {count} of {size} read")
            }
            None => write!(f, "nftrun: {count} read"),
        }
    }
}

/// A number of bytes, printed in megabytes (10^6 bytes) with one decimal.
#[derive(Clone, Copy)]
struct Megabytes(u64);

impl fmt::Display for Megabytes {
    ghost use Rattle.std.specs.Prelude.{Some};
    ghost use Rattle.progress.specs.ProgressLine.{megabytes};

    ghost output = { λ bytes. Some (megabytes bytes.0) };

    fn fmt<W: fmt::Write>(&self, f: &mut fmt::Formatter<W>) -> fmt::Result {
        let whole = self.0 / 1_000_000;
        let tenths = self.0 / 100_000 % 10;
        write!(f, "{whole}.{tenths} MB")
    }
}
