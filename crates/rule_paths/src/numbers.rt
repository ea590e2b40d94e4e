//! The indices of chains and maps in the call graph of a table.
ghost use Rattle.std.specs.Prelude.{◌≡◌};
ghost use Rattle.rule_paths.specs.Paths.{a_chain, a_map};
ghost use Rattle.rule_paths.specs.steps.Index.{index_of};

use rule_names::TableNames;

/// The index of the chain with that name, or that of the node for unknown chains.
pub(crate) fn chain_number(names: &TableNames, name: &[u8]) -> usize
    ensures { result ≡ index_of names.now (a_chain name.now) }
{
    match names.chain_index(name) {
        Some(index) => index,
        None => names.chains().len() + names.maps().len(),
    }
}

/// The index of the map with that name, or that of the node for unknown maps.
pub(crate) fn map_number(names: &TableNames, name: &[u8]) -> usize
    ensures { result ≡ index_of names.now (a_map name.now) }
{
    let chains = names.chains().len();
    let maps = names.maps().len();
    match names.map_index(name) {
        Some(index) => chains + index,
        None => chains + maps + 1,
    }
}
