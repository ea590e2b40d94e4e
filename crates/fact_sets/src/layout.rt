//! Where each field of facts stands among the bits of a packet.
use packet_sets::Field;

pub(crate) const PROTOCOL: Field = Field { first: 0, width: 8 };

pub(crate) const TRANSPORT: Field = Field { first: 8, width: 2 };

pub(crate) const INPUT: Field = Field {
    first: 10,
    width: 6,
};

pub(crate) const HAS_OUTPUT: u32 = 16;

pub(crate) const OUTPUT: Field = Field {
    first: 17,
    width: 6,
};

pub(crate) const TRACKING: Field = Field {
    first: 23,
    width: 3,
};

pub(crate) const DIRECTION: Field = Field {
    first: 26,
    width: 1,
};

pub(crate) const STATUS: Field = Field {
    first: 27,
    width: 3,
};

pub(crate) const DESTINATION: Field = Field {
    first: 30,
    width: 32,
};

pub(crate) const SOURCE: Field = Field {
    first: 62,
    width: 32,
};

pub(crate) const DESTINATION_PORT: Field = Field {
    first: 94,
    width: 16,
};

pub(crate) const SOURCE_PORT: Field = Field {
    first: 110,
    width: 16,
};

pub(crate) const FLAGS: Field = Field {
    first: 126,
    width: 8,
};

pub(crate) const ICMP_TYPE: Field = Field {
    first: 134,
    width: 8,
};

pub(crate) const LENGTH: Field = Field {
    first: 142,
    width: 16,
};

pub(crate) const TTL: Field = Field {
    first: 158,
    width: 8,
};

pub(crate) const MARK: Field = Field {
    first: 166,
    width: 32,
};

pub(crate) const CT_MARK: Field = Field {
    first: 198,
    width: 32,
};
