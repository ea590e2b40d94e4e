//! Checks the lines of a box file.
ghost use Rattle.std.specs.Prelude.{◌≡◌, map, IfOk};
ghost use Rattle.std.specs.List.{list_any};
ghost use Rattle.box_file.specs.Box.{any_pair, two_names, two_indexes, same_address, same_prefix, same_kind};
ghost use Rattle.box_file.specs.Box.{is_out_of_range, is_repeated, has_unknown, is_too_large, least_fault};
ghost use Rattle.box_file.specs.steps.Reading.{interface_tree, route_tree, idle_tree, line_tree};
ghost use Rattle.box_file.specs.steps.Tests.{least_fault_of, lacks, Knows};

use crate::by_kind::{LinesByKind, lines_by_kind};
use crate::duplicates::{HasEntry, HasKey, has_conflict, has_duplicate};
use crate::fault::BoxFault;
use crate::idle::is_out_of_range;
use crate::idle_line::{IdleKind, IdleLine};
use crate::line::{InterfaceLine, Line, RouteLine};
use std::alloc::{AllocError, Global};
use std::collections::HashSet;

/// The largest text that is accepted, in bytes.
const MAX_BYTES: usize = 1_048_576;
/// The most `interface` lines that are accepted.
const MAX_INTERFACES: usize = 64;
/// The most `route` lines that are accepted.
const MAX_ROUTES: usize = 1024;

impl<'t> HasEntry<u32, &'t [u8]> for InterfaceLine<'t> {
    ghost entry_of = { λ line. (line.index, line.name) };

    /// Its index, which has one name.
    fn entry(&self) -> (u32, &'t [u8]) {
        (self.index, self.name)
    }
}

impl<'t> HasEntry<&'t [u8], u32> for InterfaceLine<'t> {
    ghost entry_of = { λ line. (line.name, line.index) };

    /// Its name, which has one index.
    fn entry(&self) -> (&'t [u8], u32) {
        (self.name, self.index)
    }
}

impl HasKey<u32> for InterfaceLine<'_> {
    ghost key_of = { λ line. line.address };

    /// Its address.
    fn key(&self) -> u32 {
        self.address
    }
}

impl HasKey<(u32, u8)> for RouteLine<'_> {
    ghost key_of = { λ line. (line.address, line.prefix) };

    /// Its prefix.
    fn key(&self) -> (u32, u8) {
        (self.address, self.prefix)
    }
}

impl HasKey<IdleKind> for IdleLine<'_> {
    ghost key_of = { λ line. line.kind };

    /// Its kind.
    fn key(&self) -> IdleKind {
        self.kind
    }
}

/// Whether an index has two names.
fn has_two_names(alloc: Global, interfaces: &[InterfaceLine]) -> Result<bool, AllocError>
    ensures { IfOk result (λ r. r ≡ any_pair two_names (map interface_tree interfaces.now)) }
{
    has_conflict::<u32, &[u8], _>(alloc, interfaces)
}

/// Whether a name has two indexes.
fn has_two_indexes(alloc: Global, interfaces: &[InterfaceLine]) -> Result<bool, AllocError>
    ensures { IfOk result (λ r. r ≡ any_pair two_indexes (map interface_tree interfaces.now)) }
{
    has_conflict::<&[u8], u32, _>(alloc, interfaces)
}

/// Whether an address is given twice.
fn has_address_twice(alloc: Global, interfaces: &[InterfaceLine]) -> Result<bool, AllocError>
    ensures { IfOk result (λ r. r ≡ any_pair same_address (map interface_tree interfaces.now)) }
{
    has_duplicate(alloc, interfaces)
}

/// Whether a route's prefix is given twice.
fn has_prefix_twice(alloc: Global, routes: &[RouteLine]) -> Result<bool, AllocError>
    ensures { IfOk result (λ r. r ≡ any_pair same_prefix (map route_tree routes.now)) }
{
    has_duplicate(alloc, routes)
}

/// Whether a kind of idle timeout is given twice.
fn has_kind_twice(alloc: Global, idles: &[IdleLine]) -> Result<bool, AllocError>
    ensures { IfOk result (λ r. r ≡ any_pair same_kind (map idle_tree idles.now)) }
{
    has_duplicate(alloc, idles)
}

/// Whether something is given twice, or with two values, that may not be.
fn is_repeated(
    alloc: Global,
    interfaces: &[InterfaceLine],
    routes: &[RouteLine],
    idles: &[IdleLine],
) -> Result<bool, AllocError>
    ensures { IfOk result (λ r. r
        ≡ is_repeated (map interface_tree interfaces.now) (map route_tree routes.now)
        (map idle_tree idles.now)) }
{
    Ok(
        has_two_names(alloc, interfaces)?
            || has_two_indexes(alloc, interfaces)?
            || has_address_twice(alloc, interfaces)?
            || has_prefix_twice(alloc, routes)?
            || has_kind_twice(alloc, idles)?,
    )
}

/// The names of the interfaces.
fn names<'t>(
    alloc: Global,
    interfaces: &[InterfaceLine<'t>],
) -> Result<HashSet<&'t [u8]>, AllocError>
    ensures { IfOk result (λ known. Knows known (map interface_tree interfaces.now)) }
{
    let mut known = HashSet::new(alloc);
    for interface in interfaces {
        known.insert(interface.name)?;
    }
    Ok(known)
}

/// Whether a route uses a name that isn't known.
fn has_unknown_route(known: &HashSet<&[u8]>, routes: &[RouteLine]) -> bool
    ensures { result ≡ list_any (λ r. lacks known.now r.name) routes.now }
{
    for route in routes {
        if !known.contains(route.name) {
            return true;
        }
    }
    false
}

/// Whether a default line uses a name that isn't known.
fn has_unknown_default(known: &HashSet<&[u8]>, defaults: &[&[u8]]) -> bool
    ensures { result ≡ list_any (lacks known.now) defaults.now }
{
    for name in defaults {
        if !known.contains(*name) {
            return true;
        }
    }
    false
}

/// Whether a route or the default line uses an unknown interface name.
fn names_unknown_interface(
    alloc: Global,
    interfaces: &[InterfaceLine],
    routes: &[RouteLine],
    defaults: &[&[u8]],
) -> Result<bool, AllocError>
    ensures { IfOk result (λ r. r
        ≡ has_unknown (map interface_tree interfaces.now) (map route_tree routes.now)
        (map (λ n. n.now) defaults.now)) }
{
    let known = names(alloc, interfaces)?;
    Ok(has_unknown_route(&known, routes) || has_unknown_default(&known, defaults))
}

/// Whether the text or the number of its lines is above a limit.
fn is_too_large(text: &[u8], interfaces: &[InterfaceLine], routes: &[RouteLine]) -> bool
    ensures { result ≡ is_too_large text.now (map interface_tree interfaces.now)
        (map route_tree routes.now) }
{
    text.len() > MAX_BYTES || interfaces.len() > MAX_INTERFACES || routes.len() > MAX_ROUTES
}

/// Whether an idle timeout is out of its range.
fn has_out_of_range(idles: &[IdleLine]) -> bool
    ensures { result ≡ list_any is_out_of_range (map idle_tree idles.now) }
{
    for idle in idles {
        if is_out_of_range(idle) {
            return true;
        }
    }
    false
}

/// The first fault that applies to a text with these lines.
fn least_fault_of(
    alloc: Global,
    text: &[u8],
    lines: &LinesByKind,
) -> Result<Option<BoxFault>, AllocError>
    ensures { IfOk result (λ o. o
        ≡ least_fault_of text.now (map interface_tree lines.now.interfaces.items)
        (map route_tree lines.now.routes.items) (map (λ n. n.now) lines.now.defaults.items)
        (map idle_tree lines.now.idles.items)) }
{
    if lines.defaults.len() != 1 {
        return Ok(Some(BoxFault::Form));
    }
    if is_repeated(alloc, &lines.interfaces, &lines.routes, &lines.idles)? {
        return Ok(Some(BoxFault::Repeated));
    }
    if names_unknown_interface(alloc, &lines.interfaces, &lines.routes, &lines.defaults)? {
        return Ok(Some(BoxFault::UnknownName));
    }
    if is_too_large(text, &lines.interfaces, &lines.routes) {
        return Ok(Some(BoxFault::TooLarge));
    }
    if has_out_of_range(&lines.idles) {
        return Ok(Some(BoxFault::OutOfRange));
    }
    Ok(None)
}

/// The first fault that applies to a text that consists of these lines.
pub fn fault_of(alloc: Global, text: &[u8], lines: &[Line]) -> Result<Option<BoxFault>, AllocError>
    ensures { IfOk result (λ o. o ≡ least_fault text.now (map line_tree lines.now)) }
{
    let lines = lines_by_kind(alloc, lines)?;
    least_fault_of(alloc, text, &lines)
}
