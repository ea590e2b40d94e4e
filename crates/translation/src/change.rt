//! The header rewrite of a forwarded packet.
ghost use Rattle.std.specs.Prelude.{◌≡◌};
ghost use Rattle.translation.specs.CtInfos.{change_of};

use crate::ct_info::{CtInfo, outgoing};
use crate::facts::{outer_destination, outer_source};
use ip_headers::View;
use rewrite::Change;

impl CtInfo {
    /// The header rewrite for a packet forwarded with this TTL. An ICMP error gets new addresses,
    /// and its embedded datagram the inverse of the connection's outgoing tuple.
    pub fn change(&self, view: &View, ttl: u8) -> Change
        ensures { result ≡ change_of self.now view.now.packet.now ttl }
    {
        match self {
            CtInfo::Tracked(connection) => Change::between(outgoing(connection), Some(ttl)),
            CtInfo::Related(connection) => Change {
                source: Some(outer_source(connection, view.source())),
                destination: Some(outer_destination(connection, view.destination())),
                numbers: None,
                ttl: Some(ttl),
                inner: Some(outgoing(connection).inverse()),
            },
            CtInfo::New(new_connection) => Change::between(new_connection.tuple, Some(ttl)),
            CtInfo::Invalid | CtInfo::Untracked => Change {
                source: None,
                destination: None,
                numbers: None,
                ttl: Some(ttl),
                inner: None,
            },
        }
    }
}
