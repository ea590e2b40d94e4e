//! What to do about a name that isn't declared.
use crate::around::Around;
use crate::names::{Kind, declared, declares, interfaces, item_named};
use advice::{
    Advice, DID_YOU_MEAN, DID_YOU_MEAN_ONE_OF, Gap, NO_GAP, filled, fixed, with_text, with_texts,
};
use nft_tree::Item;
use rule_check::CheckFault;
use std::alloc::{AllocError, Global};

/// The names that could stand at the place of a fault of a name that isn't declared.
pub fn names_wanted<'a>(
    alloc: Global,
    around: &Around<'a>,
    network: &'a [u8],
    fault: CheckFault,
) -> Result<Vec<&'a str>, AllocError> {
    let kind = match fault {
        CheckFault::NoSuchInterface => return interfaces(alloc, network),
        CheckFault::NoSuchChain => Kind::Chain,
        _ => Kind::Set,
    };
    let mut names = Vec::new(alloc);
    for item in &around.table.items {
        let is_base = matches!(item, Item::Chain(chain) if chain.head.is_some());
        if let Some((found, name)) = declared(item)
            && found == kind
            && !is_base
            && !matches!(around.item, Some(own) if declares(own, kind, name))
        {
            names.push(name)?;
        }
    }
    Ok(names)
}

/// The one of these names that may be meant by one that isn't declared.
pub fn name_advice<'a>(around: &Around<'a>, fault: CheckFault, names: &'a [&'a str]) -> Advice<'a> {
    let (here, words) = (around.here(), Gap::Words(names));
    let name = here.split('"').nth(1).unwrap_or(here);
    match fault {
        CheckFault::NoSuchChain => no_chain(around, names).unless_near(here, words, DID_YOU_MEAN),
        CheckFault::NoSuchSet => no_set(names).unless_near(here, words, "Did you mean `@{}`?"),
        _ => no_interface(around, name, names).unless_near(name, words, DID_YOU_MEAN_ONE_OF),
    }
}

/// What to do about the name of a set or a map that isn't one of these.
fn no_set<'a>(names: &'a [&'a str]) -> Advice<'a> {
    if names.is_empty() {
        return fixed("The table has no set or map: declare it, as `set lan { type ipv4_addr; }`.");
    }
    known_names("Sets and maps of this table", names)
}

/// What to do about the name of a chain that isn't one of these.
fn no_chain<'a>(around: &Around<'a>, names: &'a [&'a str]) -> Advice<'a> {
    let here = around.here();
    for table in &around.tree.tables {
        if item_named(table, Kind::Chain, here).is_some() {
            let sentence = "`{}` is a chain of another table: copy it into this one.";
            return with_text(sentence, here);
        }
    }
    if names.is_empty() {
        return fixed(
            "The table has no chain that can be called: write it, as `chain web { accept }`.",
        );
    }
    known_names("Chains that can be called here", names)
}

/// What to do about the name of an interface that isn't one of these.
fn no_interface<'a>(around: &Around<'a>, name: &'a str, names: &'a [&'a str]) -> Advice<'a> {
    // The one by the index of an interface, where a name stands behind it.
    let selector = match around.last_of("iif oif") {
        Some(number) if around.here().parse::<u64>().is_err() => around.words.get(number),
        _ => return known_names("Interfaces of the box", names),
    };
    if around.before(1) == selector {
        return with_texts(
            "Write `{}name \"{}\"`: it compares names, and asks for no interface on the box.",
            selector,
            name,
        );
    }
    let selector = Gap::Text(selector);
    filled(
        "Interfaces of the box: {}. `{}name` in place of `{}` compares names, and asks for none of them.",
        [known(names), selector, selector, NO_GAP],
    )
}

/// The first names of a kind.
pub fn known_names<'a>(kind: &'a str, names: &'a [&'a str]) -> Advice<'a> {
    filled("{}: {}.", [Gap::Text(kind), known(names), NO_GAP, NO_GAP])
}

/// The first ones of some names.
fn known<'a>(names: &'a [&'a str]) -> Gap<'a> {
    Gap::Words(names.get(..12).unwrap_or(names))
}
