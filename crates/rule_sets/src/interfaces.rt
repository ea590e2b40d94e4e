//! The interfaces of a box, as rules see them.
ghost use Rattle.std.specs.Prelude.{◌≡◌, IfOk, map};
ghost use Rattle.rule_sets.specs.Interfaces.{interface_facts, interfaces_of};

use box_file::{IfIndex, Plant};
use fact_sets::Interfaces;
use nft_values::name_number;
use rule_meaning::Interface;
use std::alloc::{AllocError, Global};

/// An interface of the box.
fn interface(network: &Plant, index: IfIndex) -> Interface
    ensures { result ≡ interface_facts network.now index }
{
    Interface {
        index,
        name: name_number(network.name(index).unwrap_or(&[])),
    }
}

/// Those with these indexes.
fn interfaces(
    alloc: Global,
    network: &Plant,
    indexes: &[IfIndex],
) -> Result<Vec<Interface>, AllocError>
    ensures { IfOk result (λ list. list.items ≡ map (interface_facts network.now) indexes.now) }
{
    indexes
        .iter()
        .map(|index| interface(network, *index))
        .collect(alloc)
}

/// The interfaces of a box, by number: one for each `interface` line, in text order.
///
/// # Errors
///
/// If an allocation fails.
pub fn box_interfaces(alloc: Global, network: &Plant) -> Result<Interfaces, AllocError>
    ensures { IfOk result (λ list. list ≡ interfaces_of network.now) }
{
    let indexes = network.indexes(alloc)?;
    Ok(Interfaces::new(interfaces(alloc, network, &indexes)?))
}
