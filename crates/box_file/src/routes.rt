//! Routes, and the lookup table for longest prefix match.
ghost use Rattle.std.specs.Prelude.{◌≡◌, ◌+◌, ◌-◌, ◌<◌, ◌≤◌, ◌^◌, map, IfOk};
ghost use Rattle.box_file.specs.steps.Best.{begin_of, end_of, route_entry, GivesBest, GivesFirst, IsLongestFirst};

use set_intervals::{Intervals, Range};
use std::alloc::{AllocError, Global};

/// Packets to the prefix leave by the interface with this index.
#[derive(Clone, Copy)]
pub struct Route {
    pub address: u32,
    pub prefix: u8,
    pub interface: u32,
}

/// How many addresses the route covers.
#[tactic(auto, using(crate::proofs::BestLaws::size_fits))]
fn size_of(route: &Route) -> u128
    ensures value { result ≡ 2 ^ (32 - route.now.prefix) }
    ensures some { 0 < result }
    ensures fits { result ≤ 2 ^ 32 }
{
    1u128 << 32u8.saturating_sub(route.prefix)
}

/// The first address that the route covers.
#[tactic(auto, using(crate::proofs::BestLaws::begin_is))]
fn begin_of(route: &Route) -> u128
    ensures value { result ≡ begin_of (route_entry route.now) }
    ensures fits { result < 2 ^ 32 }
{
    let address = u128::from(route.address);
    address - address % size_of(route)
}

/// The addresses that the route covers.
fn range_of(route: &Route) -> Range
    ensures low { result.low ≡ begin_of (route_entry route.now) }
    ensures high { result.high + 1 ≡ end_of (route_entry route.now) }
{
    let begin = begin_of(route);
    Range::new(begin, begin + (size_of(route) - 1)).unwrap()
}

/// The routes sorted by the length of their prefixes, the longest first (stable).
fn longest_first(alloc: Global, routes: &[Route]) -> Result<Vec<Route>, AllocError>
    ensures { IfOk result (λ sorted.
        IsLongestFirst (map route_entry routes.now) (map route_entry sorted.items)) }
{
    let mut sorted = Vec::from_slice(alloc, routes)?;
    sorted.sort_by(|one, other| other.prefix.cmp(&one.prefix))?;
    Ok(sorted)
}

/// The address interval of each route with its interface.
fn pairs_of(alloc: Global, routes: &[Route]) -> Result<Vec<(Range, u32)>, AllocError>
    ensures { IfOk result (λ pairs. GivesFirst pairs.items (map route_entry routes.now)) }
{
    let mut pairs = Vec::new(alloc);
    for route in routes {
        pairs.push((range_of(route), route.interface))?;
    }
    Ok(pairs)
}

/// The lookup table: for each address the interface of its longest prefix match.
pub fn table(alloc: Global, routes: &[Route]) -> Result<Intervals<u32>, AllocError>
    ensures { IfOk result (λ table. GivesBest table (map route_entry routes.now)) }
{
    let sorted = longest_first(alloc, routes)?;
    let pairs = pairs_of(alloc, &sorted)?;
    Intervals::first_wins(alloc, &pairs)
}
