//! What to do about a fault of a ruleset as a whole.
use crate::around::{Around, Source};
use crate::duplicates::put_duplicate;
use crate::name_advice::{name_advice, names_wanted};
use crate::type_advice::type_advice;
use crate::types::Types;
use crate::value_advice::{put_unread, value_advice};
use advice::{
    Advice, Gap, VERDICTS, begins_match, fixed, greatest_is, lists, put_known, with_text,
    with_texts,
};
use fault_nodes::FaultyNode;
use rule_check::CheckFault;
use std::alloc::{AllocError, Global};

/// Writes what to do about a fault of a ruleset that is shown at an offset, if it is known.
///
/// # Errors
/// `AllocError` for want of memory.
pub fn put_advice_on_rules(
    alloc: Global,
    source: Source<'_>,
    network: &[u8],
    found: FaultyNode,
    offset: usize,
    lines: &mut String,
) -> Result<(), AllocError> {
    if let CheckFault::DuplicateName = found.fault {
        return put_duplicate(alloc, source, found.node, lines);
    }
    match Around::new(alloc, source, found.node, offset)? {
        Some(around) => put_advice(alloc, &around, network, found.fault, lines),
        None => Ok(()),
    }
}

/// Writes what to do about a fault, if it is known.
fn put_advice(
    alloc: Global,
    around: &Around<'_>,
    network: &[u8],
    fault: CheckFault,
    lines: &mut String,
) -> Result<(), AllocError> {
    let names = names_wanted(alloc, around, network, fault)?;
    let types = Types::at(alloc, around)?;
    if matches!(fault, CheckFault::WrongValue) && put_unread(alloc, around, &types, lines)? {
        return Ok(());
    }
    put_known(alloc, check_advice(around, fault, &names, &types), lines)?;
    Ok(())
}

/// What to do about a fault, if it is known.
fn check_advice<'a>(
    around: &Around<'a>,
    fault: CheckFault,
    names: &'a [&'a str],
    types: &'a Types,
) -> Option<Advice<'a>> {
    let sentence = match fault {
        CheckFault::DuplicateName => return None,
        CheckFault::NoSuchChain | CheckFault::NoSuchSet | CheckFault::NoSuchInterface => {
            return Some(name_advice(around, fault, names));
        }
        CheckFault::TypeMismatch => return type_advice(around, types),
        CheckFault::WrongValue => return value_advice(around, types),
        CheckFault::MisplacedNat => return nat_advice(around.here()),
        CheckFault::StatementAfterVerdict => return Some(behind_end(around)),
        CheckFault::TooLarge if lists("packets bytes", around.before(1)) => {
            let most = 4_611_686_018_427_387_904;
            return Some(greatest_is(Gap::Text("start of a counter"), most));
        }
        CheckFault::BaseChainCalled =>
            "Put the rules of `{}` into a chain without a `type` line, and jump to that from both.",
        CheckFault::Cycle => "`return` goes back to the caller: write it in place of a jump back.",
        CheckFault::TooDeep =>
            "`goto` adds no depth: write it where nothing follows in the caller.",
        CheckFault::TooCostly => "Call a chain once, or look the verdict up in a map by `vmap`.",
        CheckFault::MisplacedNatChain =>
            "Chains of type nat stand at prerouting (priority `dstnat`), output (-100) and postrouting (`srcnat`), with a priority above -200.",
        CheckFault::TooLarge => "A ruleset has at most 16,384 rules and 65,536 elements.",
        CheckFault::Contradiction =>
            "It shares a number with an element before it: leave one out, or give both the same.",
    };
    Some(with_text(sentence, around.here()))
}

/// The chain in which a NAT statement has its place.
fn nat_advice<'a>(statement: &'a str) -> Option<Advice<'a>> {
    let head = match statement {
        "snat" | "masquerade" => "type nat hook postrouting priority srcnat;",
        "dnat" | "redirect" => "type nat hook prerouting priority dstnat;",
        _ => return None,
    };
    Some(with_texts("`{}` goes into a chain with `{}`.", statement, head))
}

/// What to do about the statement at the place, which stands behind the one that ends its rule.
fn behind_end<'a>(around: &Around<'a>) -> Advice<'a> {
    let behind = around.here();
    let end = match (around.before(2), around.before(1)) {
        ("jump" | "goto", _) => around.before(2),
        (_, verdict) if lists(VERDICTS, verdict) => verdict,
        _ => return fixed("A `vmap` or a NAT statement ends its rule: write it last."),
    };
    // What can stand before the end of the rule.
    let moved = match behind {
        "counter" | "log" | "notrack" => behind,
        "meta" | "ct" if around.words.has("set") => "mark set",
        _ => "",
    };
    let sentence = match moved {
        "" if begins_match(behind) =>
            "`{}` ends the rule: begin another one behind it, on a new line.",
        "" => "`{}` ends the rule: take out what stands behind it.",
        _ => return with_texts("Write `{}` before `{}`, which ends the rule.", moved, end),
    };
    with_text(sentence, end)
}
