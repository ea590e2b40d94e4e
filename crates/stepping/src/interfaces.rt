//! The interfaces of a box, as rules read them.
ghost use Rattle.std.specs.Prelude.{◌≡◌, find, IfOk};
ghost use Rattle.std.specs.Option.{option_copied};
ghost use Rattle.stepping.specs.Carried.{interface_facts};
ghost use Rattle.stepping.specs.steps.Interfaces.{interfaces_of, is_at};

use box_file::Plant;
use nft_values::name_number;
use rule_meaning::Interface;
use std::alloc::{AllocError, Global};

/// The interfaces of a box with their names laid out, one for each `interface` line of its file.
///
/// # Errors
/// An allocation failed.
pub fn interfaces_of(alloc: Global, network: &Plant) -> Result<Vec<Interface>, AllocError>
    ensures { IfOk result (λ found. found.items ≡ interfaces_of network.now) }
{
    let indexes = network.indexes(alloc)?;
    indexes
        .iter()
        .map(|index| interface_facts(network, *index))
        .collect(alloc)
}

/// The first of these interfaces that has this index.
#[inline(always)]
pub fn find_interface(interfaces: &[Interface], index: u32) -> Option<&Interface>
    ensures { option_copied result ≡ find (is_at index) interfaces.now }
{
    let mut rest = interfaces;
    while let [interface, others @ ..] = rest {
        if interface.index == index {
            return Some(interface);
        }
        rest = others;
    }
    None
}

/// The interface of this index, which the box has.
pub fn interface_facts(network: &Plant, index: u32) -> Interface
    ensures { result ≡ interface_facts network.now index }
{
    let name = match network.name(index) {
        Some(name) => name_number(name),
        None => name_number(&[]),
    };
    Interface { index, name }
}
