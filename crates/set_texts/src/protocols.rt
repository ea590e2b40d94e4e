//! The protocols of a line's packets.

ghost use Rattle.std.specs.Prelude.{◌<◌};

use crate::numbers::meet;
use set_lines::Numbers;
use std::alloc::{AllocError, Global};

const ICMP: u32 = 1;

const TCP: u32 = 6;

const UDP: u32 = 17;

/// The header that packets have behind IP's.
#[derive(Clone, Copy, PartialEq, Eq)]
pub(crate) enum Header {
    Tcp,
    Udp,
    /// TCP's or UDP's.
    Ports,
    Icmp,
    Any,
}

/// The protocols, one by one, by the numbers of `FactField::Protocol`. Packets that can come have
/// the header of their protocol; only where there are none of these the others are told.
pub(crate) fn protocols(alloc: Global, numbers: &[Numbers]) -> Result<Vec<Numbers>, AllocError> {
    let own = listed(alloc, numbers, true)?;
    if own.is_empty() {
        return listed(alloc, numbers, false);
    }
    Ok(own)
}

/// The protocols with one of the numbers: with their own header, or with any.
fn listed(alloc: Global, numbers: &[Numbers], own: bool) -> Result<Vec<Numbers>, AllocError> {
    let mut found = Vec::new(alloc);
    for protocol in 0u8..=255 {
        let protocol = u32::from(protocol);
        let first = 4 * protocol;
        let known = if own {
            let number = first + code(protocol);
            meet(numbers, number, number)
        } else {
            meet(numbers, first, first + 3)
        };
        if known {
            found.push(Numbers {
                low: protocol,
                high: protocol,
            })?;
        }
    }
    Ok(found)
}

/// The code of the protocol's header.
fn code(protocol: u32) -> u32
    ensures { result < 4 }
{
    match protocol {
        TCP => 1,
        UDP => 2,
        ICMP => 3,
        _ => 0,
    }
}

/// The header of packets of these protocols.
pub(crate) fn header_of(protocols: &[Numbers]) -> Header {
    match protocols {
        [only] => match only.low {
            TCP => Header::Tcp,
            UDP => Header::Udp,
            ICMP => Header::Icmp,
            _ => Header::Any,
        },
        [first, second] => {
            if first.low == TCP && second.low == UDP {
                Header::Ports
            } else {
                Header::Any
            }
        }
        _ => Header::Any,
    }
}
