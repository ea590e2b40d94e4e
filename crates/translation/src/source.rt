//! Source NAT.
ghost use Rattle.std.specs.Prelude.{◌≡◌, List, OnErr, OnOk};
ghost use Rattle.std.specs.Option.{option_map};
ghost use Rattle.std.specs.Result.{result_ok};
ghost use Rattle.ip_headers.specs.declared.tuple.Mapping.{Mapping as Mapped};
ghost use Rattle.nat_mapping.specs.HeldMappings.{HoldsSame};
ghost use Rattle.translation.specs.Fitting.{Fits, IsFitting};
ghost use Rattle.translation.specs.CtInfos.{facts_after_source_nat, untranslated};
ghost use Rattle.translation.specs.Nat.{with_source_nat, with_source_mapping, range_of, after_source_nat};

use crate::ct_info::{CtInfo, NewConnection};
use crate::external::{ExternalSource, external_source};
use crate::facts::update_source;
use box_file::Plant;
use ip_headers::{Endpoint, Mapping};
use nat_mapping::laws::stays_one_to_one;
use nat_mapping::{MapError, Mappings};
use port_pool::CandidateRange;
use rule_meaning::{Facts, HookVerdict, PortInterval};

/// Source NAT, by the verdict of the nat chains: the source of a new connection is mapped by a NAT
/// statement, or for hairpinning. Rules then read each packet's source after NAT.
///
/// # Errors
/// No port is free. State and facts are unchanged.
#[inline(always)]
pub fn apply_source_nat(
    network: &Plant,
    mappings: &Mappings,
    verdict: HookVerdict,
    info: &mut CtInfo,
    facts: &mut Facts,
) -> Result<(), MapError>
    // For each list that represents the mappings held.
    ensures info { (held : List Mapped) → HoldsSame held mappings.now.held
        → after_source_nat network.now held facts.old info.old verdict
        ≡ option_map (λ _. info.new) (result_ok result) }
    ensures facts { OnOk result (facts.new ≡ facts_after_source_nat info.new facts.old) }
    ensures fits { (held : List Mapped) → HoldsSame held mappings.now.held → Fits info.old held
        → Fits info.new held }
    // The connection stays the same.
    ensures same { untranslated info.new ≡ untranslated info.old }
    ensures err { OnErr result ((info.new ≡ info.old) × (facts.new ≡ facts.old)) }
{
    if let CtInfo::New(new_connection) = info {
        let external_source = external_source(network, facts, new_connection, verdict);
        translate_source(mappings, new_connection, external_source)?;
    }
    update_source(info, facts);
    Ok(())
}

#[inline(always)]
fn translate_source(
    mappings: &Mappings,
    new_connection: &mut NewConnection,
    external_source: Option<ExternalSource>,
) -> Result<(), MapError>
    ensures new_connection { (held : List Mapped) → HoldsSame held mappings.now.held
        → with_source_nat held new_connection.old external_source
        ≡ option_map (λ _. new_connection.new) (result_ok result) }
    ensures fits { (held : List Mapped) → HoldsSame held mappings.now.held
        → IsFitting new_connection.old held → IsFitting new_connection.new held }
    ensures same { new_connection.new.original ≡ new_connection.old.original }
    ensures err { OnErr result (new_connection.new ≡ new_connection.old) }
{
    let Some(external_source) = external_source else {
        return Ok(());
    };
    let (kind, internal) = (new_connection.tuple.kind, new_connection.tuple.source);
    let range = range_of(external_source.ports);
    // With that port the mappings stay one to one.
    stays_one_to_one();
    let port = mappings.source(kind, internal, external_source.address, range)?;
    map_source(new_connection, &external_source, port);
    Ok(())
}

/// Maps the source to this port of the external address.
fn map_source(new_connection: &mut NewConnection, external_source: &ExternalSource, port: u16)
    ensures { new_connection.new
        ≡ with_source_mapping new_connection.old external_source.now port }
{
    let (kind, internal) = (new_connection.tuple.kind, new_connection.tuple.source);
    let external = Endpoint {
        address: external_source.address,
        port,
    };
    new_connection.tuple.source = external;
    new_connection.source = Some(Mapping {
        kind,
        internal,
        external,
    });
    new_connection.has_port_range = external_source.ports.is_some();
}

fn range_of(ports: Option<PortInterval>) -> Option<CandidateRange>
    ensures { result ≡ range_of ports }
{
    let ports = ports?;
    Some(CandidateRange {
        low: ports.low,
        high: ports.high,
    })
}
