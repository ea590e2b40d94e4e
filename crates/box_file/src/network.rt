//! A box, and lookups in it.
ghost use Rattle.std.specs.Prelude.{◌≡◌, map, find, unwrap_or, false, IfOk, IfErr, IfSome};
ghost use Rattle.std.specs.List.{filter_map, list_any};
ghost use Rattle.std.specs.Option.{option_map};
ghost use Rattle.box_file.specs.Box.{has_address, has_index, is_named, index_of, known_index, route_of_line};
ghost use Rattle.box_file.specs.Box.{entering_of, AreLimits, plant_of, idles_in, is_out_of_range, IsBox};
ghost use Rattle.box_file.specs.Box.{IsBoxRefusal, IsIndex, route, is_own, owner, first_address, named, name_of};
ghost use Rattle.box_file.specs.Box.{each_is_line};
ghost use Rattle.box_file.specs.steps.Reading.{interface_tree, line_tree};
ghost use Rattle.box_file.specs.steps.Best.{route_entry};
ghost use Rattle.box_file.specs.steps.Plant.{interface_of, KnowsNames};

use crate::by_kind::lines_by_kind;
use crate::checks::fault_of;
use crate::fault::{BoxError, BoxFault};
use crate::idle::limits;
use crate::limits::Limits;
use crate::line::{InterfaceLine, Line, lines};
use crate::routes::{Route, table};
use crate::words::same_text;
use set_intervals::Intervals;
use std::alloc::{AllocError, Global};
use std::marker::Model;

/// The index of an interface, 1 to 2147483647, as Linux numbers them.
pub type IfIndex = u32;

/// The first multicast address (RFC 5771). It and those above have no route.
const FIRST_MULTICAST: u32 = 0xe000_0000;

/// An interface with one of its addresses.
#[derive(Drop)]
struct Interface {
    index: IfIndex,
    name: Vec<u8>,
    address: u32,
    prefix: u8,
}

/// The box that a box file describes: its interfaces with their addresses, its routes, the entering
/// interface of captures without interfaces, and the idle timeouts.
#[derive(Drop)]
pub struct Plant {
    /// One for each `interface` line, in text order.
    interfaces: Vec<Interface>,
    /// In text order; an interface line is also a route to its connected prefix.
    routes: Vec<Route>,
    /// The routes as a lookup table: address intervals, each with its outgoing interface.
    table: Intervals<IfIndex>,
    /// The interface by which packets are received where the capture names none.
    entering: IfIndex,
    /// The idle timeouts.
    idle: Limits,
}

impl Model for Plant {
    ghost use Rattle.box_file.specs.Box.{PlantTree};
    ghost use Rattle.box_file.specs.steps.Plant.{plant_tree, IsSound};

    ghost Value = { PlantTree };

    ghost view = { λ p. plant_tree p.interfaces.items p.routes.items p.entering p.idle };

    ghost invariant = { λ p. IsSound p.interfaces.items p.routes.items p.table p.entering };
}

/// Copies the interfaces with their names.
fn copied(alloc: Global, lines: &[InterfaceLine]) -> Result<Vec<Interface>, AllocError>
    ensures { IfOk result (λ v. map interface_of v.items ≡ map interface_tree lines.now) }
{
    let mut found = Vec::new(alloc);
    for line in lines {
        let name = Vec::from_slice(alloc, line.name)?;
        found.push(Interface {
            index: line.index,
            name,
            address: line.address,
            prefix: line.prefix,
        })?;
    }
    Ok(found)
}

/// The index of the first interface line with this name.
fn index_of(lines: &[InterfaceLine], name: &[u8]) -> Option<IfIndex>
    ensures { result ≡ index_of (map interface_tree lines.now) name.now }
{
    let mut rest = lines;
    while let [line, others @ ..] = rest {
        if same_text(line.name, name) {
            return Some(line.index);
        }
        rest = others;
    }
    None
}

/// The same for a known name (0 for others).
fn known_index(lines: &[InterfaceLine], name: &[u8]) -> IfIndex
    ensures { result ≡ known_index (map interface_tree lines.now) name.now }
{
    index_of(lines, name).unwrap_or(0)
}

/// The route of a line: an interface line is also a route to its connected prefix.
fn route_of_line(interfaces: &[InterfaceLine], line: &Line) -> Option<Route>
    ensures { option_map route_entry result
        ≡ route_of_line (map interface_tree interfaces.now) (line_tree line.now) }
{
    match line {
        Line::Interface(interface) => Some(Route {
            address: interface.address,
            prefix: interface.prefix,
            interface: interface.index,
        }),
        Line::Route(route) => Some(Route {
            address: route.address,
            prefix: route.prefix,
            interface: known_index(interfaces, route.name),
        }),
        Line::Default(_) | Line::Idle(_) => None,
    }
}

/// The routes of the lines, in text order.
fn routes(
    alloc: Global,
    interfaces: &[InterfaceLine],
    lines: &[Line],
) -> Result<Vec<Route>, AllocError>
    ensures { IfOk result (λ v. map route_entry v.items
        ≡ filter_map (route_of_line (map interface_tree interfaces.now))
        (map line_tree lines.now)) }
{
    let mut found = Vec::new(alloc);
    for line in lines {
        if let Some(route) = route_of_line(interfaces, line) {
            found.push(route)?;
        }
    }
    Ok(found)
}

/// The index of the interface of the first default line.
fn entering(interfaces: &[InterfaceLine], defaults: &[&[u8]]) -> IfIndex
    ensures { result ≡ entering_of (map interface_tree interfaces.now)
        (map (λ n. n.now) defaults.now) }
{
    match defaults {
        [] => 0,
        [name, ..] => known_index(interfaces, name),
    }
}

/// The box that faultless lines describe.
fn plant_of(alloc: Global, lines: &[Line]) -> Result<Plant, AllocError>
    requires lines { each_is_line (map line_tree lines.now) }
    requires names { KnowsNames (map line_tree lines.now) }
    requires range { list_any is_out_of_range (idles_in (map line_tree lines.now)) ≡ false }
    ensures value { IfOk result (λ network. network ≡ plant_of (map line_tree lines.now) network.idle) }
    ensures limits { IfOk result (λ network. AreLimits
        (idles_in (map line_tree lines.now)) network.idle) }
{
    let sorted = lines_by_kind(alloc, lines)?;
    let entering = entering(&sorted.interfaces, &sorted.defaults);
    let interfaces = copied(alloc, &sorted.interfaces)?;
    let routes = routes(alloc, &sorted.interfaces, lines)?;
    let table = table(alloc, &routes)?;
    let idle = limits(&sorted.idles);
    Ok(Plant {
        interfaces,
        routes,
        table,
        entering,
        idle,
    })
}

/// The index of each interface.
fn indexes_of(alloc: Global, interfaces: &[Interface]) -> Result<Vec<IfIndex>, AllocError>
    ensures { IfOk result (λ found.
        found.items ≡ map (λ i. i.index) (map interface_of interfaces.now)) }
{
    let mut found = Vec::new(alloc);
    for interface in interfaces {
        found.push(interface.index)?;
    }
    Ok(found)
}

/// The first interface with this address.
fn find_by_address(interfaces: &[Interface], address: u32) -> Option<&Interface>
    ensures { option_map (λ i. interface_of i.now) result
        ≡ find (has_address address) (map interface_of interfaces.now) }
{
    let mut rest = interfaces;
    while let [interface, others @ ..] = rest {
        if interface.address == address {
            return Some(interface);
        }
        rest = others;
    }
    None
}

/// The first interface with this index.
fn find_by_index(interfaces: &[Interface], index: IfIndex) -> Option<&Interface>
    ensures { option_map (λ i. interface_of i.now) result
        ≡ find (has_index index) (map interface_of interfaces.now) }
{
    let mut rest = interfaces;
    while let [interface, others @ ..] = rest {
        if interface.index == index {
            return Some(interface);
        }
        rest = others;
    }
    None
}

/// The first interface with this name.
fn find_by_name<'p>(interfaces: &'p [Interface], name: &[u8]) -> Option<&'p Interface>
    ensures { option_map (λ i. interface_of i.now) result
        ≡ find (is_named name.now) (map interface_of interfaces.now) }
{
    let mut rest = interfaces;
    while let [interface, others @ ..] = rest {
        if same_text(&interface.name, name) {
            return Some(interface);
        }
        rest = others;
    }
    None
}

impl Plant {
    /// Parses and checks a box file.
    ///
    /// # Errors
    ///
    /// `Refused` with the first fault that applies; `Memory` where memory ran out.
    pub fn read(alloc: Global, text: &[u8]) -> Result<Plant, BoxError>
        ensures ok { IfOk result (λ network. IsBox text.now network) }
        ensures refused { IfErr result (λ error. IsBoxRefusal text.now error) }
    {
        let Some(lines) = lines(alloc, text)? else {
            return Err(BoxError::Refused(BoxFault::Form));
        };
        if let Some(fault) = fault_of(alloc, text, &lines)? {
            return Err(BoxError::Refused(fault));
        }
        Ok(plant_of(alloc, &lines)?)
    }

    /// The outgoing interface for a destination address: longest prefix match, among equals the
    /// first in the text; `None` for 224.0.0.0 and above.
    pub fn route(&self, address: u32) -> Option<IfIndex>
        ensures value { result ≡ route self.now address }
        ensures index { IfSome result IsIndex }
    {
        if address >= FIRST_MULTICAST {
            return None;
        }
        self.table.find(u128::from(address)).copied()
    }

    /// Whether the address is one of the box's own.
    pub fn is_own(&self, address: u32) -> bool
        ensures { result ≡ is_own self.now address }
    {
        find_by_address(&self.interfaces, address).is_some()
    }

    /// The interface that has the address as one of its own.
    pub fn owner(&self, address: u32) -> Option<IfIndex>
        ensures value { result ≡ owner self.now address }
        ensures index { IfSome result IsIndex }
    {
        let interface = find_by_address(&self.interfaces, address)?;
        Some(interface.index)
    }

    /// The first address of the interface in the text.
    pub fn first_address(&self, index: IfIndex) -> Option<u32>
        ensures { result ≡ first_address self.now index }
    {
        let interface = find_by_index(&self.interfaces, index)?;
        Some(interface.address)
    }

    /// The interface with this name.
    pub fn named(&self, name: &[u8]) -> Option<IfIndex>
        ensures value { result ≡ named self.now name.now }
        ensures index { IfSome result IsIndex }
    {
        let interface = find_by_name(&self.interfaces, name)?;
        Some(interface.index)
    }

    /// The name of the interface with this index.
    pub fn name(&self, index: IfIndex) -> Option<&[u8]>
        ensures { option_map (λ n. n.now) result ≡ name_of self.now index }
    {
        let interface = find_by_index(&self.interfaces, index)?;
        Some(&interface.name)
    }

    /// The indexes of the interfaces, one for each `interface` line, in text order.
    ///
    /// # Errors
    ///
    /// An allocation failed.
    pub fn indexes(&self, alloc: Global) -> Result<Vec<IfIndex>, AllocError>
        ensures { IfOk result (λ indexes.
            indexes.items ≡ map (λ i. i.index) self.now.interfaces) }
    {
        indexes_of(alloc, &self.interfaces)
    }

    /// The interface by which packets are received where the capture names none.
    pub fn entering(&self) -> IfIndex
        ensures value { result ≡ self.now.entering }
        ensures index { IsIndex result }
    {
        self.entering
    }

    /// The idle timeouts: those that the text sets, and the defaults of the other kinds.
    pub fn idle(&self) -> Limits
        ensures { result ≡ self.now.idle }
    {
        self.idle
    }
}
