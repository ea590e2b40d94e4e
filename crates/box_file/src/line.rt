//! Parses the lines of a box file.
ghost use Rattle.std.specs.Prelude.{◌≡◌, map, IfOk};
ghost use Rattle.std.specs.Option.{option_map};
ghost use Rattle.box_file.specs.Text.{words_of};
ghost use Rattle.box_file.specs.steps.Reading.{has_none, interface_words, route_words, default_words, idle_words, kind_in, line_of, lines_in, line_tree};

use crate::idle_line::{IdleKind, IdleLine};
use crate::numbers::{is_network, is_numeral, name, number, prefixed};
use crate::words::{first_line, same_text, word};
use std::alloc::{AllocError, Global};

/// `interface 2 lan 192.168.1.1/24`. Its name borrows the text.
#[derive(Clone, Copy)]
pub struct InterfaceLine<'t> {
    pub index: u32,
    pub name: &'t [u8],
    pub address: u32,
    pub prefix: u8,
}

/// `route 0.0.0.0/0 wan`. Its name borrows the text.
#[derive(Clone, Copy)]
pub struct RouteLine<'t> {
    pub address: u32,
    pub prefix: u8,
    pub name: &'t [u8],
}

/// A line of a box file.
#[derive(Clone, Copy)]
pub enum Line<'t> {
    Interface(InterfaceLine<'t>),
    Route(RouteLine<'t>),
    /// `default lan`, with the name alone.
    Default(&'t [u8]),
    Idle(IdleLine<'t>),
}

/// Whether no word follows.
fn is_end(rest: &[u8]) -> bool
    ensures { result ≡ has_none (words_of rest.now) }
{
    word(rest).is_none()
}

/// Parses what follows `interface`.
#[tactic(auto, unfolding(crate::specs::steps::Reading::interface_words))]
fn interface(rest: &[u8]) -> Option<Line<'_>>
    ensures { option_map line_tree result ≡ interface_words (words_of rest.now) }
{
    let (index, rest) = word(rest)?;
    let (own_name, rest) = word(rest)?;
    let (prefix_word, rest) = word(rest)?;
    let (Some(index), Some(name), Some((address, prefix))) = (
        number(index),
        name(own_name),
        prefixed(prefix_word),
    ) else {
        return None;
    };
    if is_end(rest) && 0 < index && index < 2_147_483_648 && 0 < prefix {
        Some(Line::Interface(InterfaceLine {
            index,
            name,
            address,
            prefix,
        }))
    } else {
        None
    }
}

/// Parses what follows `route`.
#[tactic(auto, unfolding(crate::specs::steps::Reading::route_words, crate::specs::steps::Reading::prefixed_in))]
fn route(rest: &[u8]) -> Option<Line<'_>>
    ensures { option_map line_tree result ≡ route_words (words_of rest.now) }
{
    let (prefix_word, rest) = word(rest)?;
    let (out_name, rest) = word(rest)?;
    let (address, prefix) = prefixed(prefix_word)?;
    let name = name(out_name)?;
    if is_end(rest) && is_network(address, prefix) {
        Some(Line::Route(RouteLine {
            address,
            prefix,
            name,
        }))
    } else {
        None
    }
}

/// Parses what follows `default`.
#[tactic(auto, unfolding(crate::specs::steps::Reading::default_words))]
fn default(rest: &[u8]) -> Option<Line<'_>>
    ensures { option_map line_tree result ≡ default_words (words_of rest.now) }
{
    let (in_name, rest) = word(rest)?;
    let name = name(in_name)?;
    if is_end(rest) {
        Some(Line::Default(name))
    } else {
        None
    }
}

/// The kind with this keyword.
fn idle_kind(word: &[u8]) -> Option<IdleKind>
    ensures { result ≡ kind_in word.now }
{
    for kind in &IdleKind::ALL {
        if same_text(word, kind.keyword()) {
            return Some(*kind);
        }
    }
    None
}

/// Parses what follows `idle`.
#[tactic(auto, unfolding(crate::specs::steps::Reading::idle_words))]
fn idle(rest: &[u8]) -> Option<Line<'_>>
    ensures { option_map line_tree result ≡ idle_words (words_of rest.now) }
{
    let (kind, rest) = word(rest)?;
    let (seconds, rest) = word(rest)?;
    let kind = idle_kind(kind)?;
    if is_end(rest) && is_numeral(seconds) {
        Some(Line::Idle(IdleLine { kind, seconds }))
    } else {
        None
    }
}

/// Parses a line by its first word and the rest.
fn line_of<'t>(first: &[u8], rest: &'t [u8]) -> Option<Line<'t>>
    ensures { option_map line_tree result ≡ line_of first.now (words_of rest.now) }
{
    if first == b"interface".as_slice() {
        interface(rest)
    } else if first == b"route".as_slice() {
        route(rest)
    } else if first == b"default".as_slice() {
        default(rest)
    } else if first == b"idle".as_slice() {
        idle(rest)
    } else {
        None
    }
}

/// The lines of a text without blank ones; `None` where one of them is malformed.
pub fn lines<'t>(alloc: Global, text: &'t [u8]) -> Result<Option<Vec<Line<'t>>>, AllocError>
    ensures { IfOk result (λ o. option_map (λ v. map line_tree v.items) o ≡ lines_in text.now) }
{
    let mut found = Vec::new(alloc);
    let mut rest = text;
    while !rest.is_empty() {
        let (front, after) = first_line(rest);
        if let Some((first, others)) = word(front) {
            let Some(line) = line_of(first, others) else {
                return Ok(None);
            };
            found.push(line)?;
        }
        rest = after;
    }
    Ok(Some(found))
}
