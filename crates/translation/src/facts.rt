//! What rules read of a packet after NAT.
ghost use Rattle.std.specs.Prelude.{◌≡◌};
ghost use Rattle.translation.specs.declared.ct_info.CtInfo.TheVariants.{New};
ghost use Rattle.translation.specs.CtInfos.{facts_after_source_nat, facts_after_destination_nat, outer_destination};
ghost use Rattle.translation.specs.CtInfos.{outer_source, with_source, with_destination, ct_facts_after_nat};

use crate::ct_info::{
    CtInfo, NewConnection, TrackedConnection, incoming, outgoing_destination, outgoing_source,
};
use ip_headers::{Endpoint, Transport};
use rule_meaning::{CtFacts, Facts, Packet};

/// Updates the facts after destination NAT; of a connection that exists its tuples tell it.
#[inline(always)]
pub fn update_destination(info: &CtInfo, facts: &mut Facts)
    ensures { facts.new ≡ facts_after_destination_nat info.now facts.old }
{
    match info {
        CtInfo::Tracked(connection) => set_destination(
            outgoing_destination(connection),
            &mut facts.packet,
        ),
        CtInfo::Related(connection) => {
            facts.packet.destination = outer_destination(connection, facts.packet.destination);
        }
        CtInfo::New(new_connection) => {
            set_destination(new_connection.tuple.destination, &mut facts.packet);
            set_nat_status(new_connection, &mut facts.ct);
        }
        CtInfo::Invalid | CtInfo::Untracked => {}
    }
}

/// Updates the facts after source NAT.
#[inline(always)]
pub fn update_source(info: &CtInfo, facts: &mut Facts)
    ensures { facts.new ≡ facts_after_source_nat info.now facts.old }
{
    match info {
        CtInfo::Tracked(connection) => {
            set_source(outgoing_source(connection), &mut facts.packet);
        }
        CtInfo::Related(connection) => {
            facts.packet.source = outer_source(connection, facts.packet.source);
        }
        CtInfo::New(new_connection) => {
            set_source(new_connection.tuple.source, &mut facts.packet);
            set_nat_status(new_connection, &mut facts.ct);
        }
        CtInfo::Invalid | CtInfo::Untracked => {}
    }
}

/// Sets the NAT status of a new connection, which follows its tuple.
#[inline(always)]
fn set_nat_status(new_connection: &NewConnection, ct: &mut CtFacts)
    ensures { ct.new ≡ ct_facts_after_nat (New new_connection.now) ct.old }
{
    if let CtFacts::Known(connection) = *ct {
        *ct = CtFacts::Known(new_connection.with_nat_status(connection));
    }
}

/// The translated source address of an ICMP error about a packet of the connection.
pub(crate) fn outer_source(connection: &TrackedConnection, address: u32) -> u32
    ensures { result ≡ outer_source connection.now address }
{
    if address == incoming(connection).source.address {
        outgoing_source(connection).address
    } else {
        address
    }
}

/// Its translated destination address.
pub(crate) fn outer_destination(connection: &TrackedConnection, address: u32) -> u32
    ensures { result ≡ outer_destination connection.now address }
{
    if address == incoming(connection).destination.address {
        outgoing_destination(connection).address
    } else {
        address
    }
}

fn set_destination(to: Endpoint, packet: &mut Packet)
    ensures { packet.new ≡ with_destination to packet.old }
{
    packet.destination = to.address;
    match &mut packet.transport {
        Transport::Tcp { destination, .. } => *destination = to.port,
        Transport::Udp { destination, .. } => *destination = to.port,
        Transport::Icmp { .. } | Transport::Other => {}
    }
}

fn set_source(from: Endpoint, packet: &mut Packet)
    ensures { packet.new ≡ with_source from packet.old }
{
    packet.source = from.address;
    match &mut packet.transport {
        Transport::Tcp { source, .. } => *source = from.port,
        Transport::Udp { source, .. } => *source = from.port,
        Transport::Icmp { .. } | Transport::Other => {}
    }
}
