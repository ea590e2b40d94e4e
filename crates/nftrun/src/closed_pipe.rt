//! Notices when the reader of a pipe has gone.
use std::io;
use std::io::Write;

/// A writer that notices whether a write failed since nobody reads the pipe any more (EPIPE).
///
/// A call has the result of the inner writer's.
#[derive(Drop)]
pub(crate) struct PipeWriter<W> {
    inner: W,
    is_closed: bool,
}

impl<W> PipeWriter<W> {
    pub(crate) fn new(inner: W) -> Self {
        PipeWriter {
            inner,
            is_closed: false,
        }
    }

    pub(crate) fn is_closed(&self) -> bool {
        self.is_closed
    }

    /// Notices a closed pipe in the result of a call.
    fn note<T>(&mut self, answer: &io::Result<T>) {
        if is_closed_pipe(answer) {
            self.is_closed = true;
        }
    }
}

impl<W: Write> Write for PipeWriter<W> {
    fn write(&mut self, buf: &[u8]) -> io::Result<usize> {
        let answer = self.inner.write(buf);
        self.note(&answer);
        answer
    }

    fn flush(&mut self) -> io::Result<()> {
        let answer = self.inner.flush();
        self.note(&answer);
        answer
    }
}

/// Whether a call failed since the reader of a pipe has gone.
pub(crate) fn is_closed_pipe<T>(answer: &io::Result<T>) -> bool {
    match answer {
        Err(error) => matches!(error.kind(), io::ErrorKind::BrokenPipe),
        Ok(_) => false,
    }
}
