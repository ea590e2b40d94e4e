//! A text that is written page by page.
ghost use Rattle.std.specs.Prelude.{◌≡◌, ◌≤◌, ◌+◌, [], false, length, OnOk, OnErr};
ghost use Rattle.std.specs.Io.KnownBytes.{Appends};
ghost use Rattle.devices.specs.Counting.{AppendsPrefix, one_failure};
ghost use Rattle.report.specs.steps.Paging.{IsSent, Puts, piece_text, pieces_text};

use crate::piece::Piece;
use arrayvec::ArrayVec;
use devices::{Counted, DeviceFailed, write_whole};
use itoa::Buffer;
use std::io::Write;

/// The size of a page, in bytes.
const PAGE_BYTES: usize = 4096;

/// A buffer, so that a line doesn't cost a call. Once a write has failed nothing is put or written
/// any more.
#[derive(Drop)]
pub struct Page {
    text: ArrayVec<u8, PAGE_BYTES>,
    failed: bool,
}

impl Page {
    /// An empty page.
    pub fn new() -> Self
        ensures text { result.text.items ≡ [] }
        ensures failed { result.failed ≡ false }
    {
        Page {
            text: ArrayVec::new(),
            failed: false,
        }
    }

    /// Appends bytes. The writer is called only where the page has no room for them. Where a call
    /// fails, the writer holds a prefix of the page's bytes and of these.
    fn put<W: Write>(&mut self, writer: &mut Counted<W>, bytes: &[u8])
        ensures puts { Puts W.contents self.old writer.old self.new writer.new bytes.now }
        ensures room { length self.old.text.items + length bytes.now ≤ PAGE_BYTES
            → writer.new ≡ writer.old }
    {
        if self.failed {
            return;
        }
        if bytes.len() <= self.text.remaining_capacity() {
            self.text.try_extend_from_slice(bytes).unwrap();
            return;
        }
        if self.send(writer).is_err() {
            self.failed = true;
            return;
        }
        if PAGE_BYTES < bytes.len() {
            self.failed = write_whole(writer, bytes).is_err();
            return;
        }
        self.text.try_extend_from_slice(bytes).unwrap();
    }

    /// Appends one part of a line.
    fn put_piece<W: Write>(&mut self, writer: &mut Counted<W>, piece: Piece)
        ensures { Puts W.contents self.old writer.old self.new writer.new (piece_text piece.entry) }
    {
        match piece {
            Piece::Text(text) => self.put(writer, text),
            Piece::Word(text) => {
                self.put(writer, b" ");
                self.put(writer, text);
            }
            Piece::Number(number) => {
                self.put(writer, b" ");
                self.put(writer, Buffer::new().format(number).as_bytes());
            }
        }
    }

    /// Puts a line, or several, by their parts.
    #[tactic(auto, using(crate::proofs::Putting::left_start))]
    pub fn put_all<W: Write>(&mut self, writer: &mut Counted<W>, pieces: &[Piece])
        ensures { Puts W.contents self.old writer.old self.new writer.new (pieces_text pieces.now) }
    {
        for piece in pieces {
            self.put_piece(writer, *piece);
        }
    }

    /// Writes what waits; makes no call where nothing does. After an `Err` the writer holds a
    /// beginning of it.
    fn send<W: Write>(&mut self, writer: &mut Counted<W>) -> Result<(), DeviceFailed>
        ensures ok { OnOk result (Appends (W.contents writer.old.inner)
            (W.contents writer.new.inner) self.old.text.items) }
        ensures empty { OnOk result (self.new.text.items ≡ []) }
        ensures part { OnErr result (AppendsPrefix (W.contents writer.old.inner)
            (W.contents writer.new.inner) self.old.text.items) }
        ensures failed { self.new.failed ≡ self.old.failed }
        ensures no_failure { OnOk result (writer.new.failures ≡ writer.old.failures) }
        ensures device { OnErr result (writer.new.failures ≡ one_failure writer.old.failures) }
        ensures flushes { writer.new.flushes ≡ writer.old.flushes }
        ensures none { self.old.text.items ≡ [] → writer.new ≡ writer.old }
    {
        if self.text.is_empty() {
            return Ok(());
        }
        write_whole(writer, self.text.as_slice())?;
        self.text.clear();
        Ok(())
    }

    /// Writes what waits, unless a write has failed.
    ///
    /// # Errors
    /// A write failed, now or before.
    pub fn finish<W: Write>(&mut self, writer: &mut Counted<W>) -> Result<(), DeviceFailed>
        ensures { IsSent W.contents result self.old writer.old writer.new }
    {
        if self.failed {
            return Err(DeviceFailed);
        }
        self.send(writer)
    }
}
