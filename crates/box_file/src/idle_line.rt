//! The idle lines of a box file.
ghost use Rattle.std.specs.Prelude.{IsTrue};
ghost use Rattle.box_file.specs.Text.{is_numeral};

// The smallest timeouts in seconds. UDP: two minutes (RFC 4787, REQ-5).
const MIN_UDP: u32 = 120;
// TCP, established: two hours and four minutes (RFC 5382, REQ-5).
const MIN_ESTABLISHED: u32 = 7_440;
// TCP, opening or closing: four minutes (RFC 5382, REQ-5).
const MIN_TRANSITORY: u32 = 240;
// ICMP echo and other protocols: not 0.
const MIN_OTHER: u32 = 1;

/// The largest timeout of any kind, in seconds: a week.
pub const MAX_IDLE_SECONDS: u32 = 604_800;

/// `idle udp 120`. The digits of its number, which may have any size, borrow the text.
#[derive(Clone, Copy)]
pub struct IdleLine<'t> {
    pub kind: IdleKind,
    pub seconds: &'t [u8],
    pub ghost numeral: { IsTrue (is_numeral seconds.now) },
}

/// The connections that a timeout is for.
#[derive(Clone, Copy, PartialEq, Eq, Hash, Drop)]
pub enum IdleKind {
    /// UDP.
    Udp,
    /// TCP, once established.
    Established,
    /// TCP, while opening or closing.
    Transitory,
    /// ICMP echo.
    Echo,
    /// Other protocols.
    Other,
}

impl IdleKind {
    ghost use Rattle.std.specs.Prelude.{◌≡◌};
    ghost use Rattle.box_file.specs.Idle.{minimum_for, word_of};

    /// All kinds.
    pub(crate) const ALL: [IdleKind; 5] = [
        IdleKind::Udp,
        IdleKind::Established,
        IdleKind::Transitory,
        IdleKind::Echo,
        IdleKind::Other,
    ];

    /// The keyword that a box file has for it.
    pub(crate) fn keyword(self) -> &'static [u8]
        ensures { result.now ≡ word_of self }
    {
        match self {
            IdleKind::Udp => b"udp",
            IdleKind::Established => b"established",
            IdleKind::Transitory => b"transitory",
            IdleKind::Echo => b"ask",
            IdleKind::Other => b"other",
        }
    }

    /// The smallest timeout that a box file may set for it, in seconds.
    pub fn minimum(self) -> u32
        ensures { result ≡ minimum_for self }
    {
        match self {
            IdleKind::Udp => MIN_UDP,
            IdleKind::Established => MIN_ESTABLISHED,
            IdleKind::Transitory => MIN_TRANSITORY,
            IdleKind::Echo | IdleKind::Other => MIN_OTHER,
        }
    }
}
