//! The names that a ruleset and a box file declare.
use nft_tree::{Item, Table};
use std::alloc::{AllocError, Global};

/// What something is that has a name in a table, as far as names may not stand twice.
#[derive(Clone, Copy, PartialEq, Eq)]
pub enum Kind {
    Chain,
    /// A set or a map.
    Set,
}

/// What an item of a table declares, and its name; a comment declares nothing.
pub fn declared(item: &Item) -> Option<(Kind, &str)> {
    let (kind, name) = match item {
        Item::Comment(_) => return None,
        Item::Chain(chain) => (Kind::Chain, &chain.name),
        Item::Set(set) => (Kind::Set, &set.name),
        Item::Map(map) => (Kind::Set, &map.name),
    };
    Some((kind, str::from_utf8(name).unwrap_or("")))
}

/// Whether an item declares this.
pub fn declares(item: &Item, kind: Kind, name: &str) -> bool {
    declared(item) == Some((kind, name))
}

/// The number of the first item of a table that declares this.
pub fn item_named(table: &Table, kind: Kind, name: &str) -> Option<usize> {
    for (number, item) in table.items.iter().enumerate() {
        if declares(item, kind, name) {
            return Some(number);
        }
    }
    None
}

/// The names of a box's interfaces.
pub fn interfaces<'a>(alloc: Global, network: &'a [u8]) -> Result<Vec<&'a str>, AllocError> {
    let mut names = Vec::new(alloc);
    for line in network.split(|byte| *byte == b'\n') {
        let mut words = str::from_utf8(line).unwrap_or("").split_whitespace();
        if words.next() == Some("interface")
            && let Some(name) = words.nth(1)
            && !names.contains(&name)
        {
            names.push(name)?;
        }
    }
    Ok(names)
}
