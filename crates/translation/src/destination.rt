//! Destination NAT.
ghost use Rattle.std.specs.Prelude.{◌≡◌, List};
ghost use Rattle.ip_headers.specs.declared.tuple.Mapping.{Mapping as Mapped};
ghost use Rattle.nat_mapping.specs.HeldMappings.{HoldsSame};
ghost use Rattle.translation.specs.Fitting.{Fits, IsFitting};
ghost use Rattle.translation.specs.CtInfos.{facts_after_destination_nat, untranslated};
ghost use Rattle.translation.specs.Nat.{statement_destination, internal_endpoint, with_destination_nat, has_ports};
ghost use Rattle.translation.specs.Nat.{to_internal, port_named, after_destination_nat};

use crate::ct_info::{CtInfo, NewConnection};
use crate::facts::update_destination;
use box_file::Plant;
use ip_headers::{Endpoint, Kind, Mapping};
use nat_mapping::Mappings;
use nat_mapping::laws::inbound_is_held;
use rule_meaning::{Facts, HookVerdict, NatAction};

/// Destination NAT, by the verdict of the nat chains: a new connection goes where a NAT statement
/// sends it, or without one to the internal endpoint of a live mapping. Rules then read each
/// packet's destination after NAT.
#[inline(always)]
pub fn apply_destination_nat(
    network: &Plant,
    mappings: &Mappings,
    verdict: HookVerdict,
    info: &mut CtInfo,
    facts: &mut Facts,
)
    // For each list that represents the mappings held.
    ensures info { (held : List Mapped) → HoldsSame held mappings.now.held
        → info.new ≡ after_destination_nat network.now held facts.old info.old verdict }
    ensures facts { facts.new ≡ facts_after_destination_nat info.new facts.old }
    ensures fits { (held : List Mapped) → HoldsSame held mappings.now.held → Fits info.old held
        → Fits info.new held }
    // The connection stays the same.
    ensures same { untranslated info.new ≡ untranslated info.old }
{
    if let CtInfo::New(new_connection) = info {
        translate_destination(network, mappings, facts, new_connection, verdict);
    }
    update_destination(info, facts);
}

#[inline(always)]
fn translate_destination(
    network: &Plant,
    mappings: &Mappings,
    facts: &Facts,
    new_connection: &mut NewConnection,
    verdict: HookVerdict,
)
    ensures new_connection { (held : List Mapped) → HoldsSame held mappings.now.held
        → new_connection.new
        ≡ with_destination_nat network.now held facts.now new_connection.old verdict }
    ensures fits { (held : List Mapped) → HoldsSame held mappings.now.held
        → IsFitting new_connection.old held → IsFitting new_connection.new held }
    ensures same { new_connection.new.original ≡ new_connection.old.original }
{
    match verdict {
        HookVerdict::Translated(translation) => {
            let destination = statement_destination(network, facts, new_connection, translation);
            new_connection.tuple.destination = destination;
        }
        HookVerdict::Accepted => to_internal(mappings, new_connection),
        HookVerdict::Dropped => {}
    }
}

/// The destination by a NAT statement; a statement that doesn't translate destinations keeps it.
fn statement_destination(
    network: &Plant,
    facts: &Facts,
    new_connection: &NewConnection,
    translation: NatAction,
) -> Endpoint
    ensures { result ≡ statement_destination network.now facts.now new_connection.now translation }
{
    let (kind, old) = (new_connection.tuple.kind, new_connection.tuple.destination);
    match translation {
        NatAction::Destination(address, port) => Endpoint {
            address,
            port: port_named(kind, port, old.port),
        },
        NatAction::Redirect(port) => Endpoint {
            address: network.first_address(facts.input.index).unwrap_or(0),
            port: port_named(kind, port, old.port),
        },
        NatAction::Source(_, _) | NatAction::Masquerade(_) => old,
    }
}

/// The port of the statement, if it has one and the kind has ports; else the old one.
fn port_named(kind: Kind, port: Option<u16>, old: u16) -> u16
    ensures { result ≡ port_named kind port old }
{
    match port {
        Some(port) if has_ports(kind) => port,
        _ => old,
    }
}

fn has_ports(kind: Kind) -> bool
    ensures { result ≡ has_ports kind }
{
    matches!(kind, Kind::Tcp | Kind::Udp)
}

/// Sends a connection to the internal endpoint of the live mapping at its destination, if any.
fn to_internal(mappings: &Mappings, new_connection: &mut NewConnection)
    ensures new_connection { (held : List Mapped) → HoldsSame held mappings.now.held
        → new_connection.new
        ≡ to_internal new_connection.old (internal_endpoint held new_connection.old) }
    ensures fits { (held : List Mapped) → HoldsSame held mappings.now.held
        → IsFitting new_connection.old held → IsFitting new_connection.new held }
    ensures same { new_connection.new.original ≡ new_connection.old.original }
{
    let kind = new_connection.tuple.kind;
    if !has_ports(kind) {
        return;
    }
    let external = new_connection.tuple.destination;
    // The mapping found is one of those held.
    inbound_is_held();
    let Some(internal) = mappings.inbound(kind, external) else {
        return;
    };
    new_connection.tuple.destination = internal;
    new_connection.dest = Some(Mapping {
        kind,
        internal,
        external,
    });
}
