//! Incremental checksum updates (RFC 1624).
ghost use Rattle.std.specs.Prelude.{◌≡◌, ◌+◌, ◌^◌, ◌<◌};
ghost use Rattle.rewrite.specs.Rewritten.{corrected};
ghost use Rattle.rewrite.specs.steps.Fields.{combined, u32_change, updated_checksum, updated_udp_checksum, u16_change};

/// The words under a checksum that a change replaces: their sum before and after it, and whether
/// all of them stay the same.
#[derive(Clone, Copy)]
pub(crate) struct ChecksumDelta {
    pub old: u32,
    pub new: u32,
    pub is_same: bool,
}

impl ChecksumDelta {
    /// The change of one word.
    #[inline(always)]
    pub(crate) fn word(old: u16, new: u16) -> ChecksumDelta
        ensures { result ≡ u16_change old new }
    {
        ChecksumDelta {
            old: old as u32,
            new: new as u32,
            is_same: old == new,
        }
    }

    /// The change of a 32-bit number, which is two words.
    #[inline(always)]
    pub(crate) fn number(old: u32, new: u32) -> ChecksumDelta
        ensures { result ≡ u32_change old new }
    {
        ChecksumDelta {
            old: old / 65536 + old % 65536,
            new: new / 65536 + new % 65536,
            is_same: old == new,
        }
    }

    /// These changes and others.
    #[inline(always)]
    pub(crate) fn and(self, other: ChecksumDelta) -> ChecksumDelta
        requires old { self.old + other.old < 2 ^ 32 }
        requires new { self.new + other.new < 2 ^ 32 }
        ensures { result ≡ combined self other }
    {
        ChecksumDelta {
            old: self.old + other.old,
            new: self.new + other.new,
            is_same: self.is_same && other.is_same,
        }
    }

    /// The checksum after the change; the same where no word changed.
    #[inline(always)]
    pub(crate) fn update(self, checksum: u16) -> u16
        ensures { result ≡ updated_checksum self checksum }
    {
        if self.is_same {
            checksum
        } else {
            self.incremental_update(checksum)
        }
    }

    /// The same for UDP, where 0 means no checksum and a computed 0 is written as ffff (RFC 768).
    #[inline(always)]
    pub(crate) fn update_udp(self, checksum: u16) -> u16
        ensures { result ≡ updated_udp_checksum self checksum }
    {
        if self.is_same || checksum == 0 {
            return checksum;
        }
        match self.incremental_update(checksum) {
            0 => 0xffff,
            other => other,
        }
    }

    /// The incremental update (RFC 1624, section 3): the number from 0 to 65534 that is congruent to
    /// the checksum plus the old words minus the new ones, modulo 65535.
    #[inline(always)]
    fn incremental_update(self, checksum: u16) -> u16
        ensures { result ≡ corrected checksum self.old self.new }
    {
        // 2^32 - 1 is a multiple of 65535.
        let sum = checksum as u64 + self.old as u64 + (u32::MAX - self.new) as u64;
        (sum % 65535) as u16
    }
}
