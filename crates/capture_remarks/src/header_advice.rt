//! What to do about the header of a capture.
ghost use Rattle.std.specs.Io.{ReadsAtMost};
ghost use Rattle.std.specs.Io.KnownBytes.{ReadConsumes};

use pcap_io::CaptureFault;
use std::io::Read;
use std::{fmt, io};

/// How many bytes the header of a libpcap file has (pcap-savefile(5)).
const HEADER_BYTES: usize = 24;

/// The magic numbers of files that aren't read.
static MAGICS: [(&[u8], HeaderAdvice); 7] = [
    (b"\x1f\x8b", HeaderAdvice::Decompress(Compression::Gzip)),
    (b"BZh", HeaderAdvice::Decompress(Compression::Bzip2)),
    (b"\xfd7zXZ", HeaderAdvice::Decompress(Compression::Xz)),
    (
        b"\x28\xb5\x2f\xfd",
        HeaderAdvice::Decompress(Compression::Zstd),
    ),
    (b"\x0a\x0d\x0d\x0a", HeaderAdvice::Convert),
    (b"\x34\xcd\xb2\xa1", HeaderAdvice::Rewrite),
    (b"\xa1\xb2\xcd\x34", HeaderAdvice::Rewrite),
];

/// What to do about a file's header.
#[derive(Clone, Copy)]
pub enum HeaderAdvice {
    /// It is compressed, with this program.
    Decompress(Compression),
    /// It is pcapng.
    Convert,
    /// It is written by a libpcap of its own kind.
    Rewrite,
    /// Its records have another link type, of this number.
    LinkType(u32),
}

/// What a file is compressed with.
#[derive(Clone, Copy)]
pub enum Compression {
    Gzip,
    Bzip2,
    Xz,
    Zstd,
}

impl fmt::Display for HeaderAdvice {
    fn fmt<W: fmt::Write>(&self, f: &mut fmt::Formatter<W>) -> fmt::Result {
        f.write_str(match self {
            HeaderAdvice::Decompress(by) => by.sentence(),
            HeaderAdvice::Convert => {
                "It is pcapng: `editcap -F pcap in.pcapng out.pcap`, or `tcpdump -r in.pcapng -w out.pcap`."
            }
            HeaderAdvice::Rewrite => {
                "It is a libpcap file of another kind: `tcpdump -r in.pcap -w out.pcap`."
            }
            HeaderAdvice::LinkType(113) => {
                "Its link type is 113, LINUX_SLL, which names no interface: capture with `-y LINUX_SLL2`."
            }
            HeaderAdvice::LinkType(number) => {
                return write!(
                    f,
                    "Its link type is {number}: 1 (Ethernet), 101 (raw IP) and 276 (LINUX_SLL2) are read."
                );
            }
        })
    }
}

impl Compression {
    /// Which program undoes it.
    fn sentence(self) -> &'static str {
        match self {
            Compression::Gzip => "It is compressed by gzip: `gunzip` it first.",
            Compression::Bzip2 => "It is compressed by bzip2: `bunzip2` it first.",
            Compression::Xz => "It is compressed by xz: `unxz` it first.",
            Compression::Zstd => "It is compressed by zstd: `unzstd` it first.",
        }
    }
}

/// What to do about a header that is refused, by the bytes that were read.
pub fn header_advice<R>(fault: CaptureFault, read: &Noted<R>) -> Option<HeaderAdvice> {
    let first = &read.beginning.bytes;
    match fault {
        CaptureFault::Magic => magic_advice(first.as_slice()),
        CaptureFault::LinkType => Some(HeaderAdvice::LinkType(link_type(first))),
        CaptureFault::Version => Some(HeaderAdvice::Rewrite),
        _ => None,
    }
}

/// What to do about a magic number that isn't libpcap's.
fn magic_advice(first: &[u8]) -> Option<HeaderAdvice> {
    for (magic, advice) in &MAGICS {
        if first.starts_with(magic) {
            return Some(*advice);
        }
    }
    None
}

/// The link type of a header: the low 16 bits of its last number, in the byte order of the first.
fn link_type(first: &[u8; HEADER_BYTES]) -> u32 {
    u32::from(if first[0] == 0xa1 {
        u16::from_be_bytes([first[22], first[23]])
    } else {
        u16::from_le_bytes([first[20], first[21]])
    })
}

/// The first bytes of a file; those that weren't read are 0.
#[derive(Clone, Copy)]
struct Beginning {
    bytes: [u8; HEADER_BYTES],
    count: usize,
}

impl Beginning {
    /// Keeps so many bytes, as far as there is room.
    fn note(&mut self, bytes: &[u8], count: usize) {
        for byte in bytes.iter().take(count) {
            if let Some(slot) = self.bytes.get_mut(self.count) {
                *slot = *byte;
                self.count = self.count.saturating_add(1);
            }
        }
    }
}

/// A reader that keeps the first bytes that it hands out.
#[derive(Drop)]
pub struct Noted<R> {
    inner: R,
    beginning: Beginning,
}

impl<R> Noted<R> {
    pub fn new(inner: R) -> Noted<R> {
        let beginning = Beginning {
            bytes: [0; HEADER_BYTES],
            count: 0,
        };
        Noted { inner, beginning }
    }
}

impl<R: Read> Read for Noted<R> {
    ghost remaining = { λ noted. R.remaining noted.inner };

    fn read(&mut self, buf: &mut [u8]) -> io::Result<usize>
        ensures bound { ReadsAtMost result buf.new }
        ensures bytes { ReadConsumes (R.remaining self.old.inner) (R.remaining self.new.inner)
            result buf.new }
    {
        let answer = self.inner.read(buf);
        if let Ok(count) = &answer {
            self.beginning.note(buf, *count);
        }
        answer
    }
}
