//! What to do about a fault of a box file.
use crate::name_advice::known_names;
use crate::names::interfaces;
use advice::{Advice, DID_YOU_MEAN_ONE_OF, Gap, fixed};
use box_file::BoxFault;
use fault_places::{Span, shown};
use std::alloc::{AllocError, Global};

/// Writes what to do about the fault of a line of a box file.
///
/// # Errors
/// `AllocError` for want of memory.
pub fn put_advice_on_box(
    alloc: Global,
    text: &[u8],
    fault: BoxFault,
    line: Span,
    lines: &mut String,
) -> Result<(), AllocError> {
    let names = interfaces(alloc, text)?;
    box_advice(fault, shown(text, line), &names).put(alloc, lines)
}

/// What to do about the fault of a line, in a box with these interfaces.
fn box_advice<'a>(fault: BoxFault, line: &'a str, names: &'a [&'a str]) -> Advice<'a> {
    match fault {
        BoxFault::Form => form_advice(line.split_whitespace().next().unwrap_or("")),
        BoxFault::UnknownName => known_names("Interfaces of the box", names).unless_near(
            line.split_whitespace().last().unwrap_or(""),
            Gap::Words(names),
            DID_YOU_MEAN_ONE_OF,
        ),
        BoxFault::Repeated => fixed(
            "A line before it has its index, name, address, prefix or kind: give it another one, or leave it out.",
        ),
        BoxFault::TooLarge => {
            fixed("A box has at most 64 `interface` lines and 1,024 `route` lines.")
        }
        BoxFault::OutOfRange => fixed(
            "Seconds are at least 120 for udp, 7440 for established, 240 for transitory, 1 for ask and other; at most 604800.",
        ),
    }
}

/// The form of a line that begins with a word.
fn form_advice<'a>(first: &'a str) -> Advice<'a> {
    fixed(match first {
        "interface" => "Write it as `interface 2 lan 192.168.1.1/24`.",
        "route" => "Write it as `route 10.0.0.0/8 lan`, its host bits zero.",
        "default" => "Write it as `default lan`, on one line alone.",
        "idle" => {
            "Write it as `idle udp 120`: udp, established, transitory, ask or other, and seconds."
        }
        _ => {
            let words = Gap::Listed("interface route default idle");
            let known = fixed("A line begins with `interface`, `route`, `default` or `idle`.");
            return known.unless_near(first, words, DID_YOU_MEAN_ONE_OF);
        }
    })
}
