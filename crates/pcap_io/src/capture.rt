//! Reads the records of a capture one by one.
ghost use Rattle.std.specs.Prelude.{◌<◌};
ghost use Rattle.pcap_io.specs.Pcap.{MOMENTS_END};

use crate::fault::{CaptureError, CaptureFault};
use crate::format::{Format, HEADER_BYTES, LinkType, RECORD_HEADER_BYTES};
use crate::link::{Link, LinkCause};
use crate::read_buffer::ReadBuffer;
use devices::Counted;
use std::alloc::Global;
use std::io::Read;
use std::marker::Model;

/// The greatest captured length, libpcap's MAXIMUM_SNAPLEN.
const MOST_CAPTURED: u32 = 262_144;

/// The greatest number of records in a file.
const MOST_RECORDS: u64 = 4_294_967_296;

/// A record: its timestamp and its captured bytes, borrowed from the capture's buffer.
#[derive(Clone, Copy)]
pub struct Record<'a> {
    /// Nanoseconds since 1970-01-01 00:00 UTC. Time never runs backwards: this is the greatest of
    /// the record's own timestamp and those of all earlier records.
    pub moment: u64,
    /// The link-layer header that the bytes begin with.
    pub link_type: LinkType,
    /// The captured bytes, from the link header on.
    pub bytes: &'a [u8],
    /// The format has 32 bits for the seconds.
    pub ghost early: { moment < MOMENTS_END },
}

impl<'a> Record<'a> {
    ghost use Rattle.std.specs.Prelude.{◌≡◌, ◌≤◌, length, IfOk};
    ghost use Rattle.pcap_io.specs.Links as links;

    /// Decodes the link header: the packet's offset, and the input interface where the header has
    /// it.
    ///
    /// # Errors
    /// The first of `Short`, `NotIp` and `Link` that applies.
    pub fn link(&self) -> Result<Link, LinkCause>
        ensures link { result ≡ links.link_of self.now.link_type self.now.bytes.now }
        ensures within { IfOk result (λ l. l.packet ≤ length self.now.bytes.now) }
    {
        self.link_type.link(self.bytes)
    }
}

/// The header of a record. Its last field, the original length, isn't used.
#[derive(Clone, Copy)]
struct RecordHeader {
    seconds: u32,
    fraction: u32,
    captured: u32,
}

impl RecordHeader {
    ghost use Rattle.std.specs.Prelude.{◌≡◌, ◌<◌, ◌≤◌, ◌+◌, ◌⊎◌, length, IfOk, IsErrOf, OnOk, OnErr};
    ghost use Rattle.pcap_io.specs.Pcap.{seconds_in, fraction_in, captured_length_in, IsGood};
    ghost use Rattle.pcap_io.specs.Pcap as pcap;

    /// Decodes the header at the start of `bytes`, which must hold the whole record.
    ///
    /// # Errors
    /// `Malformed` for a header that no record may have, `TornEnd` where `bytes` ends inside the
    /// record.
    #[inline(always)]
    fn read(format: Format, bytes: &[u8]) -> Result<RecordHeader, CaptureFault>
        ensures fields { IfOk result (λ h. (h.seconds ≡ seconds_in format bytes.now)
            × (h.fraction ≡ fraction_in format bytes.now)
            × (h.captured ≡ captured_length_in format bytes.now)) }
        ensures good { OnOk result (IsGood format bytes.now) }
        ensures there { IfOk result (λ h.
            pcap.RECORD_HEADER_BYTES + h.captured ≤ length bytes.now) }
        ensures torn { IsErrOf result CaptureFault.TornEnd
            → (length bytes.now < pcap.RECORD_HEADER_BYTES) ⊎ (IsGood format bytes.now
            × (length bytes.now < pcap.RECORD_HEADER_BYTES + captured_length_in format bytes.now)) }
        ensures malformed { IsErrOf result CaptureFault.Malformed
            → (pcap.RECORD_HEADER_BYTES ≤ length bytes.now)
            × ((pcap.MOST_CAPTURED < captured_length_in format bytes.now)
            ⊎ (pcap.per_second format.resolution ≤ fraction_in format bytes.now)) }
        ensures errors { OnErr result (IsErrOf result CaptureFault.TornEnd
            ⊎ IsErrOf result CaptureFault.Malformed) }
    {
        if bytes.len() < RECORD_HEADER_BYTES {
            return Err(CaptureFault::TornEnd);
        }
        let header = RecordHeader {
            seconds: format.endianness.read_u32(bytes, 0),
            fraction: format.endianness.read_u32(bytes, 4),
            captured: format.endianness.read_u32(bytes, 8),
        };
        if header.captured > MOST_CAPTURED || header.fraction >= format.resolution.per_second() {
            return Err(CaptureFault::Malformed);
        }
        if bytes.len() - RECORD_HEADER_BYTES < header.captured as usize {
            return Err(CaptureFault::TornEnd);
        }
        Ok(header)
    }
}

/// A capture that is read record by record, through one buffer of constant size.
#[derive(Drop)]
pub struct Capture {
    buffer: ReadBuffer,
    format: Format,
    count: u64,
    /// The greatest timestamp so far, in nanoseconds.
    latest: u64,
    fault: Option<CaptureError>,
    /// The captured length of the last record; its bytes are the last ones taken from the buffer.
    last: Option<usize>,
    /// The header of the next record, where the buffer has the whole of it behind the last one.
    upcoming: Option<RecordHeader>,
}

impl Model for Capture {
    ghost use Rattle.pcap_io.specs.CaptureStates.{CaptureState};
    ghost use Rattle.pcap_io.specs.steps.CaptureInvariant.{capture_state_of, IsConsistent};

    ghost Value = { CaptureState };

    ghost view = { λ c. capture_state_of c.format c.buffer c.count c.latest c.fault c.last };

    ghost invariant = { λ c. IsConsistent c.format c.buffer c.count c.latest c.fault c.last c.upcoming };
}

impl Capture {
    ghost use Rattle.std.specs.Prelude.{◌≡◌, ◌≢◌, ◌<◌, ◌≤◌, ◌+◌, ◌++◌, ℕ, List, [], length, drop, true, false, Some};
    ghost use Rattle.std.specs.Prelude.{None, Ok, Err, IfOk, IfErr, IfSome, IsNone, IsErrOf, OnOk, OnErr};
    ghost use Rattle.std.specs.Io.KnownBytes.{Consumes, IsAtEnd};
    ghost use Rattle.devices.specs.Counting.{one_failure};
    ghost use Rattle.pcap_io.specs.Pcap.{format_of, MOMENTS_END};
    ghost use Rattle.pcap_io.specs.Pcap as pcap;
    ghost use Rattle.pcap_io.specs.CaptureStates.{CaptureState, IsDone, ahead, is_ready, decides_next};
    ghost use Rattle.pcap_io.specs.ReadAhead.{READ_AHEAD};
    ghost use Rattle.pcap_io.specs.CaptureStates.{IsPartialRecord, NextAnswers, ReadsRecord, RefusedBy, IsOfHeader};
    ghost use Rattle.pcap_io.specs.CaptureStates.{IsOfRecords, recorded};
    ghost use Rattle.pcap_io.specs.steps.Buffered.{IsBuffered};

    /// Allocates the buffer and reads the file header.
    ///
    /// # Errors
    /// `Refused` with the first of `TornEnd`, `Magic`, `Version` and `LinkType` that applies;
    /// `Device` after a failed read, which isn't tried again; `Memory`, before anything is read.
    pub fn open<R: Read>(alloc: Global, reader: &mut Counted<R>) -> Result<Self, CaptureError>
        ensures fresh { IfOk result (λ c. (c.fault ≡ None) × (c.last ≡ None) × (c.count ≡ 0)
            × (c.latest ≡ 0)) }
        ensures bytes { IfOk result (λ c. IfSome (R.remaining reader.old.inner) (λ input.
            (pcap.HEADER_BYTES ≤ length input) × (format_of input ≡ Ok c.format)
            × (ahead c (R.remaining reader.new.inner) ≡ Some (drop pcap.HEADER_BYTES input)))) }
        ensures refused { IfErr result (RefusedBy (R.remaining reader.old.inner)) }
        ensures kinds { IfErr result IsOfHeader }
        // Before a failed read fewer bytes than a file header were consumed.
        ensures broken { IsErrOf result CaptureError.Device → (part : List ℕ)
            × Consumes (R.remaining reader.old.inner) (R.remaining reader.new.inner) part
            × (length part < pcap.HEADER_BYTES) }
        ensures memory { IsErrOf result CaptureError.Memory → reader.new ≡ reader.old }
        ensures room { IfOk result (λ c. length c.held ≤ READ_AHEAD) }
        ensures drained { IfOk result (λ c. c.ended ≡ true
            → IsAtEnd (R.remaining reader.new.inner)) }
        // In every case at most one buffer was consumed.
        ensures read { (part : List ℕ)
            × Consumes (R.remaining reader.old.inner) (R.remaining reader.new.inner) part
            × (length part ≤ READ_AHEAD) }
        ensures no_failure { result ≢ Err CaptureError.Device
            → reader.new.failures ≡ reader.old.failures }
        ensures device { IsErrOf result CaptureError.Device
            → reader.new.failures ≡ one_failure reader.old.failures }
    {
        let Ok(mut buffer) = ReadBuffer::new(alloc) else {
            return Err(CaptureError::Memory);
        };
        while buffer.held().len() < HEADER_BYTES && !buffer.is_ended() {
            let Ok(()) = buffer.fill(reader) else {
                return Err(CaptureError::Device);
            };
        }
        let format = match Format::read(buffer.held()) {
            Ok(format) => format,
            Err(fault) => return Err(CaptureError::Refused(fault)),
        };
        buffer.take(HEADER_BYTES);
        Ok(Capture {
            buffer,
            format,
            count: 0,
            latest: 0,
            fault: None,
            last: None,
            upcoming: None,
        })
    }

    /// Whether `next` would return without a read: the buffer decides its result, or the reader has
    /// ended.
    #[inline(always)]
    pub fn is_ready(&self) -> bool
        ensures { result ≡ is_ready self.now }
    {
        if self.upcoming.is_some() {
            return true;
        }
        self.fault.is_some() || self.buffer.is_ended() || self.decides_next()
    }

    /// Whether the buffered bytes decide the next result, whatever follows them.
    fn decides_next(&self) -> bool
        ensures { result ≡ decides_next self.now.format self.now.count self.now.held }
    {
        let held = self.buffer.held();
        if self.count == MOST_RECORDS {
            return !held.is_empty();
        }
        match RecordHeader::read(self.format, held) {
            Ok(_) | Err(CaptureFault::Malformed) => true,
            Err(_) => false,
        }
    }

    /// Reads the next record, which `record` then lends; `false` at the end of the capture.
    ///
    /// # Errors
    /// `Refused` with `TornEnd`, `Malformed` or `TooMany`; `Device` after a failed read, which
    /// isn't tried again. After an error each call returns the same error and reads nothing.
    #[inline(always)]
    pub fn next<R: Read>(&mut self, reader: &mut Counted<R>) -> Result<bool, CaptureError>
        ensures again { IfSome self.old.fault (λ fault. IsErrOf result fault
            × (self.new ≡ self.old)) }
        // No read where the buffer decides the result, at the end, or after an error.
        ensures unread { is_ready self.old ≡ true → reader.new ≡ reader.old }
        ensures next_answers { IsNone self.old.fault
            → IfSome (ahead self.old (R.remaining reader.old.inner)) (λ bytes.
            NextAnswers bytes (ahead self.new (R.remaining reader.new.inner)) self.old self.new
            result) }
        ensures fault { IfErr result (λ fault. self.new.fault ≡ Some fault) }
        ensures going { OnOk result (self.new.fault ≡ None) }
        // At the end and on an error the count and the latest timestamp stay.
        ensures stopped { IsNone self.old.fault → result ≢ Ok true
            → (self.new.count ≡ self.old.count) × (self.new.latest ≡ self.old.latest)
            × (self.new.last ≡ None) }
        ensures format { self.new.format ≡ self.old.format }
        // These hold even where the reader's bytes aren't known.
        ensures counted { result ≡ Ok true → (self.old.count < pcap.MOST_RECORDS)
            × (self.new.count ≡ self.old.count + 1) }
        ensures broken { IsNone self.old.fault → IsErrOf result CaptureError.Device
            → (self.new.ended ≡ false) × IsPartialRecord self.new.format self.new.count
            self.new.held }
        ensures held { IsNone self.old.fault → is_ready self.old ≡ true
            → result ≢ Err CaptureError.Device }
        ensures ended { self.old.ended ≡ true → self.new.ended ≡ true }
        // After the end each call returns `false` and reads nothing.
        ensures finished { result ≡ Ok false → IsDone self.new }
        ensures done { IsDone self.old → (result ≡ Ok false)
            × (self.new ≡ record self.old { last = None }) × (reader.new ≡ reader.old) }
        ensures torn { IsErrOf result (CaptureError.Refused CaptureFault.TornEnd)
            → IsNone self.old.fault → self.new.ended ≡ true }
        ensures read { (part : List ℕ)
            × Consumes (R.remaining reader.old.inner) (R.remaining reader.new.inner) part }
        ensures room { length self.new.held ≤ READ_AHEAD }
        ensures drained { (self.old.ended ≡ true → IsAtEnd (R.remaining reader.old.inner))
            → self.new.ended ≡ true → IsAtEnd (R.remaining reader.new.inner) }
        ensures no_failure { IsNone self.old.fault → result ≢ Err CaptureError.Device
            → reader.new.failures ≡ reader.old.failures }
        ensures device { IsNone self.old.fault → IsErrOf result CaptureError.Device
            → reader.new.failures ≡ one_failure reader.old.failures }
        ensures record { IfOk result (λ more. more ≡ true → IfSome self.new.last (λ r.
            (r.moment < MOMENTS_END) × (length r.bytes ≤ pcap.MOST_CAPTURED))) }
        ensures some { result ≡ Ok true → self.new.last ≢ None }
        ensures kinds { IsNone self.old.fault → IfErr result IsOfRecords }
    {
        // Most records are buffered whole, and their headers decoded with the record before.
        if let Some(header) = self.upcoming {
            self.advance(header);
            return Ok(true);
        }
        if let Some(fault) = self.fault {
            return Err(fault);
        }
        self.last = None;
        while !self.is_ready() {
            self.upcoming = None;
            let Ok(()) = self.buffer.fill(reader) else {
                self.fault = Some(CaptureError::Device);
                return Err(CaptureError::Device);
            };
        }
        self.step()
    }

    /// Decodes the next record from the buffer, without a read.
    fn step(&mut self) -> Result<bool, CaptureError>
        requires going { self.old.fault ≡ None }
        requires ready { is_ready self.old ≡ true }
        requires none { self.old.last ≡ None }
        // Unless the reader has ended, more bytes may follow the buffered ones.
        ensures next_answers { (more : List ℕ) → (self.old.ended ≡ true → more ≡ [])
            → NextAnswers (self.old.held ++ more) (Some (self.new.held ++ more)) self.old self.new
            result }
        ensures stopped { result ≢ Ok true → (self.new.count ≡ self.old.count)
            × (self.new.latest ≡ self.old.latest) × (self.new.last ≡ None) }
        ensures format { self.new.format ≡ self.old.format }
        ensures counted { result ≡ Ok true → (self.old.count < pcap.MOST_RECORDS)
            × (self.new.count ≡ self.old.count + 1) }
        ensures ended { self.new.ended ≡ self.old.ended }
        ensures finished { result ≡ Ok false → IsDone self.new }
        ensures torn { IsErrOf result (CaptureError.Refused CaptureFault.TornEnd)
            → self.new.ended ≡ true }
        ensures done { self.old.held ≡ [] → (result ≡ Ok false) × (self.new ≡ self.old) }
        ensures room { length self.new.held ≤ READ_AHEAD }
        ensures fault { IfErr result (λ fault. self.new.fault ≡ Some fault) }
        ensures kinds { IfErr result IsOfRecords }
        ensures held { result ≢ Err CaptureError.Device }
        ensures going { OnOk result (self.new.fault ≡ None) }
        ensures record { IfOk result (λ more. more ≡ true → IfSome self.new.last (λ r.
            (r.moment < MOMENTS_END) × (length r.bytes ≤ pcap.MOST_CAPTURED))) }
        ensures some { result ≡ Ok true → self.new.last ≢ None }
    {
        let held = self.buffer.held();
        if held.is_empty() {
            return Ok(false);
        }
        if self.count == MOST_RECORDS {
            return self.fail(CaptureFault::TooMany);
        }
        let header = match RecordHeader::read(self.format, held) {
            Ok(header) => header,
            Err(fault) => return self.fail(fault),
        };
        self.advance(header);
        Ok(true)
    }

    /// The header of the next record, if the buffer has the whole record.
    #[inline(always)]
    fn buffered_record(&self) -> Option<RecordHeader>
        ensures { IfSome result (IsBuffered self.now.format self.now.count self.now.held) }
    {
        if self.count == MOST_RECORDS {
            return None;
        }
        RecordHeader::read(self.format, self.buffer.held()).ok()
    }

    /// Takes the next record from the buffer, which has all of it. Decodes the header behind it, if
    /// the buffer has that record whole too.
    #[inline(always)]
    fn advance(&mut self, header: RecordHeader)
        requires going { self.old.fault ≡ None }
        requires buffered { IsBuffered self.old.format self.old.count self.old.held header }
        ensures reads { (more : List ℕ) → ReadsRecord (self.old.held ++ more)
            (Some (self.new.held ++ more)) self.old self.new }
        ensures same { (self.new.format ≡ self.old.format) × (self.new.ended ≡ self.old.ended)
            × (self.new.fault ≡ self.old.fault) }
        ensures counted { self.new.count ≡ self.old.count + 1 }
        ensures room { length self.new.held ≤ READ_AHEAD }
        ensures record { IfSome self.new.last (λ r. (r.moment < MOMENTS_END)
            × (length r.bytes ≤ pcap.MOST_CAPTURED)) }
        ensures some { self.new.last ≢ None }
    {
        self.count += 1;
        let moment = self
            .format
            .resolution
            .moment(header.seconds, header.fraction);
        self.latest = self.latest.max(moment);
        self.buffer
            .take(RECORD_HEADER_BYTES + header.captured as usize);
        self.last = Some(header.captured as usize);
        // The decoded header was this record's.
        self.upcoming = None;
        self.upcoming = self.buffered_record();
    }

    /// Makes this the error of this call and of all later ones.
    fn fail(&mut self, fault: CaptureFault) -> Result<bool, CaptureError>
        ensures result { result ≡ Err (CaptureError.Refused fault) }
        ensures after { self.new ≡ record self.old { fault = Some (CaptureError.Refused fault) } }
    {
        let error = CaptureError::Refused(fault);
        self.fault = Some(error);
        self.upcoming = None;
        Err(error)
    }

    /// The record that the last `next` read; `None` unless it returned `true`.
    pub fn record(&self) -> Option<Record<'_>>
        ensures { recorded result ≡ self.now.last }
    {
        let length = self.last?;
        Some(Record {
            moment: self.latest,
            link_type: self.format.link,
            bytes: self.buffer.taken(length),
        })
    }
}
