//! Outcomes of records, and the causes of drops.

/// Why a record is dropped.
#[derive(Clone, Copy)]
pub enum Cause {
    /// The frame is for a group or for another station.
    Link,
    /// The input interface isn't in the box file.
    Interface,
    /// The link header's protocol isn't IPv4.
    NotIp,
    /// Fewer bytes than a link header or an IPv4 header needs.
    Short,
    /// The version isn't 4.
    Version,
    /// The header length field is below 5 (RFC 791, section 3.1).
    HeaderLength,
    /// The total length is below the header's length.
    Length,
    /// Fewer bytes than the total length.
    Truncated,
    /// The header's checksum is wrong.
    Checksum,
    /// The packet is a fragment.
    Fragment,
    /// The transport header is malformed.
    Transport,
    /// A rule or a policy dropped it.
    Rule,
    /// No route to its destination.
    Route,
    /// Its TTL is used up.
    Ttl,
    /// No port is free for its source.
    NoPort,
    /// The connection table is full.
    Full,
    /// Its replies would belong to another connection.
    Clash,
}

impl Cause {
    ghost use Rattle.std.specs.Prelude.{◌≡◌, ◌<◌};
    ghost use Rattle.history.specs.Outcomes.{report_index, report_word};

    /// Every cause, in the order of the report.
    pub const ALL: [Self; 17] = [
        Self::Link,
        Self::Interface,
        Self::NotIp,
        Self::Short,
        Self::Version,
        Self::HeaderLength,
        Self::Length,
        Self::Truncated,
        Self::Checksum,
        Self::Fragment,
        Self::Transport,
        Self::Rule,
        Self::Route,
        Self::Ttl,
        Self::NoPort,
        Self::Full,
        Self::Clash,
    ];

    /// Its index in the report's order, from 0.
    pub fn report_index(self) -> usize
        ensures report_index { result ≡ report_index self }
        ensures within { result < 17 }
    {
        self as usize
    }

    /// Its word in the report.
    pub fn report_word(self) -> &'static str
        ensures { result.now ≡ report_word self }
    {
        match self {
            Self::Link => "link",
            Self::Interface => "interface",
            Self::NotIp => "notip",
            Self::Short => "short",
            Self::Version => "version",
            Self::HeaderLength => "hlen",
            Self::Length => "length",
            Self::Truncated => "truncated",
            Self::Checksum => "checksum",
            Self::Fragment => "fragment",
            Self::Transport => "transport",
            Self::Rule => "rule",
            Self::Route => "route",
            Self::Ttl => "ttl",
            Self::NoPort => "noport",
            Self::Full => "full",
            Self::Clash => "clash",
        }
    }
}

/// What became of a record.
#[derive(Clone, Copy)]
pub enum Outcome {
    /// Its packet is forwarded by the interface of this index.
    Passed(u32),
    /// Its packet is delivered to the box itself.
    Local,
    /// Its packet is dropped, or it carries none.
    Dropped(Cause),
}
