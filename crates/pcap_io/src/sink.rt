//! Writes a capture packet by packet, through one buffer.
ghost use Rattle.std.specs.Prelude.{◌≡◌, ◌++◌, ◌+◌, ◌<◌, ◌≤◌, [], true, IfOk, OnOk, OnErr, IsErrOf, length, Err};
ghost use Rattle.std.specs.Io.KnownBytes.{Appends};
ghost use Rattle.devices.specs.Counting.{one_failure, one_more, AppendsBuffered, AppendsPrefix};
ghost use Rattle.pcap_io.specs.Buffering as buffer;
ghost use Rattle.pcap_io.specs.Sll2.{sll2_header, sll2_record, sent, IsSent};

use crate::record_headers::HEADERS_BYTES;
use crate::write_buffer::WriteBuffer;
use devices::{Counted, DeviceFailed, write_whole};
use std::alloc::Global;
use std::io::Write;
use std::marker::Model;
use thiserror::Error;

/// The file header: magic 0xa1b23c4d (nanoseconds), version 2.4, zone 0, sigfigs 0, snaplen 262144,
/// link type 276 (LINKTYPE_LINUX_SLL2).
const HEADER: [u8; 24] = [
    0x4d, 0x3c, 0xb2, 0xa1, 2, 0, 4, 0, 0, 0, 0, 0, 0, 0, 0, 0, 0, 0, 4, 0, 0x14, 1, 0, 0,
];

/// A packet that leaves the box.
#[derive(Clone, Copy)]
pub struct Leaving<'a> {
    /// Nanoseconds since 1970-01-01 00:00 UTC.
    pub moment: u64,
    /// The index of the output interface.
    pub interface: u32,
    pub packet: &'a [u8],
}

/// Why opening a sink failed.
#[derive(Clone, Copy, Debug, Error)]
pub enum SinkError {
    /// A write failed.
    #[error("device")]
    Device,
    /// The buffer couldn't be allocated.
    #[error("memory")]
    Memory,
}

/// A capture that is written: LINKTYPE_LINUX_SLL2, nanoseconds, little-endian.
///
/// Records are buffered until the buffer is full, or until `send` or `finish`. A sink that is
/// dropped writes nothing more.
#[derive(Drop)]
pub struct Sink {
    buffered: WriteBuffer,
}

impl Model for Sink {
    ghost use Rattle.pcap_io.specs.Buffering.{SinkState};

    ghost Value = { SinkState };

    ghost view = { λ s. record { buffered = s.buffered } };
}

impl Sink {
    /// Allocates the buffer and writes the file header.
    ///
    /// # Errors
    /// `Memory`, before anything is written; `Device`, and then the writer holds a prefix of the
    /// header.
    pub fn open<W: Write>(alloc: Global, writer: &mut Counted<W>) -> Result<Self, SinkError>
        ensures ok { IfOk result (λ sink.
            AppendsBuffered [] (W.contents writer.old.inner) (W.contents writer.new.inner)
            sink.buffered sll2_header) }
        ensures part { OnErr result (AppendsPrefix (W.contents writer.old.inner)
            (W.contents writer.new.inner) sll2_header) }
        ensures memory { IsErrOf result SinkError.Memory → writer.new ≡ writer.old }
        ensures no_failure { OnOk result (writer.new.failures ≡ writer.old.failures) }
        ensures device { IsErrOf result SinkError.Device
            → writer.new.failures ≡ one_failure writer.old.failures }
        ensures writes { writer.new.writes ≤ writer.old.writes + length sll2_header }
        ensures flushes { writer.new.flushes ≡ writer.old.flushes }
    {
        let buffered = WriteBuffer::new(alloc).map_err(|_| SinkError::Memory)?;
        write_whole(writer, &HEADER).map_err(|_| SinkError::Device)?;
        Ok(Sink { buffered })
    }

    /// Appends one record. The writer is called only where the buffer has no room for it.
    ///
    /// # Errors
    /// The writer then holds a prefix of the buffered bytes, and the sink is unchanged.
    pub fn put<W: Write>(
        &mut self,
        writer: &mut Counted<W>,
        leaving: &Leaving,
    ) -> Result<(), DeviceFailed>
        requires { IsSent (sent leaving.now) }
        ensures ok { OnOk result (AppendsBuffered self.old.buffered (W.contents writer.old.inner)
            (W.contents writer.new.inner) self.new.buffered (sll2_record (sent leaving.now))) }
        ensures part { OnErr result (AppendsPrefix (W.contents writer.old.inner)
            (W.contents writer.new.inner) (self.old.buffered ++ sll2_record (sent leaving.now))) }
        ensures err { OnErr result (self.new ≡ self.old) }
        ensures room { length self.old.buffered + length
            (sll2_record (sent leaving.now)) ≤ buffer.WRITE_BUFFER_BYTES → writer.new ≡ writer.old }
        ensures no_failure { OnOk result (writer.new.failures ≡ writer.old.failures) }
        ensures device { OnErr result (writer.new.failures ≡ one_failure writer.old.failures) }
        ensures writes { writer.new.writes ≤ writer.old.writes + length self.old.buffered }
        ensures flushes { writer.new.flushes ≡ writer.old.flushes }
    {
        if self.buffered.room() < HEADERS_BYTES + leaving.packet.len() {
            write_whole(writer, self.buffered.as_slice())?;
            self.buffered.clear();
        }
        self.buffered.append_record(leaving);
        Ok(())
    }

    /// Writes the buffered bytes; makes no call where there are none.
    ///
    /// # Errors
    /// The writer then holds a prefix of the buffered bytes, and the sink is unchanged.
    pub fn send<W: Write>(&mut self, writer: &mut Counted<W>) -> Result<(), DeviceFailed>
        ensures ok { OnOk result (Appends (W.contents writer.old.inner)
            (W.contents writer.new.inner) self.old.buffered) }
        ensures empty { OnOk result (self.new.buffered ≡ []) }
        ensures none { self.old.buffered ≡ [] → writer.new ≡ writer.old }
        ensures part { OnErr result (AppendsPrefix (W.contents writer.old.inner)
            (W.contents writer.new.inner) self.old.buffered) }
        ensures err { OnErr result (self.new ≡ self.old) }
        ensures no_failure { OnOk result (writer.new.failures ≡ writer.old.failures) }
        ensures device { OnErr result (writer.new.failures ≡ one_failure writer.old.failures) }
        ensures writes { writer.new.writes ≤ writer.old.writes + length self.old.buffered }
        ensures flushes { writer.new.flushes ≡ writer.old.flushes }
    {
        if self.buffered.as_slice().is_empty() {
            return Ok(());
        }
        write_whole(writer, self.buffered.as_slice())?;
        self.buffered.clear();
        Ok(())
    }

    /// Writes the buffered bytes, and flushes the writer once.
    ///
    /// # Errors
    /// The writer then holds a prefix of the buffered bytes, and the sink is unchanged.
    pub fn finish<W: Write>(&mut self, writer: &mut Counted<W>) -> Result<(), DeviceFailed>
        ensures ok { OnOk result (Appends (W.contents writer.old.inner)
            (W.contents writer.new.inner) self.old.buffered) }
        ensures empty { OnOk result (self.new.buffered ≡ []) }
        ensures flushed { OnOk result (writer.new.is_flushed ≡ true) }
        ensures part { OnErr result (AppendsPrefix (W.contents writer.old.inner)
            (W.contents writer.new.inner) self.old.buffered) }
        ensures err { OnErr result (self.new ≡ self.old) }
        ensures no_failure { OnOk result (writer.new.failures ≡ writer.old.failures) }
        ensures device { OnErr result (writer.new.failures ≡ one_failure writer.old.failures) }
        ensures writes { writer.new.writes ≤ writer.old.writes + length self.old.buffered }
        ensures flushes { OnOk result (writer.new.flushes ≡ one_more writer.old.flushes) }
        ensures unflushed { OnErr result (writer.new.flushes ≡ writer.old.flushes) }
    {
        write_whole(writer, self.buffered.as_slice())?;
        if writer.flush().is_err() {
            return Err(DeviceFailed);
        }
        self.buffered.clear();
        Ok(())
    }
}
