//! The external address for source NAT.
ghost use Rattle.std.specs.Prelude.{◌≡◌, None, Some};
ghost use Rattle.rule_meaning.specs.declared.event.NatAction.TheVariants as nat_actions;
ghost use Rattle.translation.specs.Nat.{hairpin, is_same_interface, external_source, statement_source};

use crate::ct_info::NewConnection;
use box_file::Plant;
use ip_headers::Mapping;
use rule_meaning::{Facts, HookVerdict, NatAction, PortInterval};

/// The external address for a source, and the port range where one is given.
#[derive(Clone, Copy)]
pub struct ExternalSource {
    pub address: u32,
    pub ports: Option<PortInterval>,
}

/// By the NAT statement that ended the nat chains, or without one by the mapping that gave the
/// packet its destination.
#[inline(always)]
pub(crate) fn external_source(
    network: &Plant,
    facts: &Facts,
    new_connection: &NewConnection,
    verdict: HookVerdict,
) -> Option<ExternalSource>
    ensures { result ≡ external_source network.now facts.now new_connection.now verdict }
{
    match verdict {
        HookVerdict::Translated(translation) => statement_source(network, facts, translation),
        HookVerdict::Accepted => hairpin(network, facts.input.index, new_connection.dest),
        HookVerdict::Dropped => None,
    }
}

/// The external source of a NAT statement that translates a source.
fn statement_source(
    network: &Plant,
    facts: &Facts,
    translation: NatAction,
) -> Option<ExternalSource>
    ensures { result ≡ statement_source network.now facts.now translation }
{
    match translation {
        NatAction::Source(address, ports) => Some(ExternalSource { address, ports }),
        NatAction::Masquerade(ports) => Some(ExternalSource {
            address: masquerade_address(network, facts),
            ports,
        }),
        NatAction::Destination(_, _) | NatAction::Redirect(_) => None,
    }
}

/// The first address of the output interface.
fn masquerade_address(network: &Plant, facts: &Facts) -> u32
    ensures { statement_source network.now facts.now (nat_actions.Masquerade None)
        ≡ Some (record { address = result; ports = None }) }
{
    let index = match facts.output {
        Some(output) => output.index,
        None => 0,
    };
    network.first_address(index).unwrap_or(0)
}

/// Hairpinning (RFC 4787, REQ-9): where the destination came from a mapping, and the packet didn't
/// enter by the interface that owns the external address, its source is mapped to that address too,
/// so that the reply comes back through the box.
fn hairpin(network: &Plant, entered: u32, dest: Option<Mapping>) -> Option<ExternalSource>
    ensures { result ≡ hairpin network.now entered dest }
{
    let address = dest?.external.address;
    if is_same_interface(entered, network.owner(address)) {
        return None;
    }
    Some(ExternalSource {
        address,
        ports: None,
    })
}

fn is_same_interface(index: u32, other: Option<u32>) -> bool
    ensures { result ≡ is_same_interface index other }
{
    match other {
        Some(other) => other == index,
        None => false,
    }
}
