//! What to do about types that don't fit.
use crate::around::Around;
use crate::types::{ADDRESS, MARK, SERVICE, Types, values_of};
use advice::{
    Advice, DID_YOU_MEAN_ONE_OF, Gap, NO_GAP, VERDICTS, filled, fixed, groups_advice, lists,
    no_value, one_of, with_text, with_words,
};
use nft_tree::{ComparedType, Item};

/// What to do about types that don't fit, if it is known.
pub fn type_advice<'a>(around: &Around<'a>, types: &'a Types) -> Option<Advice<'a>> {
    match around.set() {
        Some(set) if around.before(1) == "@" => Some(advice_on_set(around, set, types)),
        Some(set) => groups_advice(around.here()).or(advice_on_element(around, set, types)),
        None => groups_advice(around.here()).or(advice_on_rule(around, types)),
    }
}

/// What to do about a set or a map that a rule names at the place.
fn advice_on_set<'a>(around: &Around<'a>, set: &Item, types: &'a Types) -> Advice<'a> {
    let is_lookup = matches!(around.before(2), "vmap" | "map");
    match (is_lookup, matches!(set, Item::Map(_))) {
        (true, false) => with_text(
            "`@{}` is a set: name a map, or take out `vmap` or `map` before it.",
            around.here(),
        ),
        (false, true) => with_text(
            "`@{}` is a map: write `vmap` or `map` before it, or name a set.",
            around.here(),
        ),
        _ if types.compared == types.keys => advice_on_data(around, types),
        _ => other_keys(Gap::Text(around.here()), types),
    }
}

/// What is compared is of other types than the keys of a set or a map of this name.
fn other_keys<'a>(name: Gap<'a>, types: &'a Types) -> Advice<'a> {
    let (compared, keys) = (Gap::Types(&types.compared), Gap::Types(&types.keys));
    if let ([ComparedType::Named(_)], [key]) = (types.compared.as_slice(), types.keys.as_slice()) {
        let selectors = Gap::Text(values_of(*key).1);
        return filled(
            "The keys of `@{}` are {}: compare {} with it, or declare another set, of `type {}`.",
            [name, keys, selectors, compared],
        );
    }
    filled(
        "What is compared is {}, the keys of `@{}` are {}: declare another set, by `typeof`.",
        [compared, name, keys, NO_GAP],
    )
}

/// What to do about the data of the map that a rule names at the place.
fn advice_on_data<'a>(around: &Around<'a>, types: &Types) -> Advice<'a> {
    let wanted = match around.before(2) {
        "vmap" => "verdict",
        _ if around.words.has_before(around.at, "to") => "ipv4_addr",
        _ => "mark",
    };
    let data = match types.data {
        Some(data) => Gap::Type(data),
        None => Gap::Text("verdict"),
    };
    filled(
        "The data of `@{}` are {}: {} is wanted.",
        [Gap::Text(around.here()), data, Gap::Text(wanted), NO_GAP],
    )
}

/// What to do about an element of a set or a map.
fn advice_on_element<'a>(around: &Around<'a>, set: &Item, types: &Types) -> Option<Advice<'a>> {
    if !matches!(set, Item::Map(_)) {
        return advice_on_parts(around, types.keys.len() as u64);
    }
    let Some(data) = types.data else {
        return Some(verdict_advice(around));
    };
    if lists(VERDICTS, around.here()) {
        return Some(no_value(data, "`: verdict` in the type for verdicts"));
    }
    if around.before(1) == ":" {
        return Some(no_value(data, "one"));
    }
    Some(fixed("The data aren't of the type behind `:`, which is `verdict` for verdicts."))
}

/// What to do about an element of a set whose type has so many parts.
fn advice_on_parts<'a>(around: &Around<'a>, of_type: u64) -> Option<Advice<'a>> {
    let mut of_element = 1u64;
    for number in around.at..around.words.len() {
        match around.words.get(number) {
            "." => of_element = of_element.saturating_add(1),
            "," | "}" | ":" | "comment" => break,
            _ => {}
        }
    }
    if of_element == of_type {
        return None;
    }
    let (wanted, own) = (Gap::Number(of_type), Gap::Number(of_element));
    let sentence = "The type has {} parts, this element {}.";
    Some(filled(sentence, [wanted, own, NO_GAP, NO_GAP]))
}

/// The verdict that may be meant.
fn verdict_advice<'a>(around: &Around<'a>) -> Advice<'a> {
    let verdicts = Gap::Listed(VERDICTS);
    one_of(verdicts).unless_near(around.here(), verdicts, DID_YOU_MEAN_ONE_OF)
}

/// What to do about a rule that names no set.
fn advice_on_rule<'a>(around: &Around<'a>, types: &Types) -> Option<Advice<'a>> {
    if around.words.has_before(around.at, "vmap") {
        return Some(verdict_advice(around));
    }
    if around.words.has_before(around.at, "map") {
        return Some(fixed(
            "`map` takes values, `meta mark set` numbers and NAT addresses; a verdict needs `vmap`.",
        ));
    }
    let of = *types.compared.last()?;
    let has_order = matches!(of, ADDRESS | SERVICE | MARK | ComparedType::Unnamed(_));
    if has_order && around.last_of("< > <= >=").is_some() {
        return Some(fixed(
            "An order compares with one value: write `==` before a range or a prefix.",
        ));
    }
    let sentence = "{} has no order: compare with `==`, `!=` or a set.";
    Some(with_words(sentence, Gap::Type(of)))
}
