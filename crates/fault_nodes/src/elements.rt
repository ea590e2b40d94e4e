//! Copies of statements with the elements between two numbers of their anonymous sets and maps.
ghost use Rattle.std.specs.Prelude.{◌≡◌, IfOk};
ghost use Rattle.nft_tree.specs.TreeViews.{destination_tree, map_lookup_tree, map_ref_tree, match_tree, nat_tree};
ghost use Rattle.nft_tree.specs.TreeViews.{operand_tree, set_ref_tree, source_tree, statement};
ghost use Rattle.fault_nodes.specs.ReadParts.{destination_with, lookup_with, map_ref_with, match_with, nat_with};
ghost use Rattle.fault_nodes.specs.ReadParts.{operand_with, set_ref_with, source_with, statement_with};

use crate::lists::nodes_between;
use nft_tree::{
    DestinationTarget, MapLookup, MapRef, Match, Nat, Operand, SetRef, SourceTarget, Stmt, TreeNode,
};
use std::alloc::{AllocError, Global};

/// A statement with the elements `from..to` of its anonymous set or map.
///
/// # Errors
///
/// If an allocation fails.
pub fn statement_with(
    alloc: Global,
    stmt: &Stmt,
    from: usize,
    to: usize,
) -> Result<Stmt, AllocError>
    ensures { IfOk result (λ copy. statement copy ≡ statement_with from to (statement stmt.now)) }
{
    Ok(match stmt {
        Stmt::Match(test) => Stmt::Match(match_with(alloc, test, from, to)?),
        Stmt::SetMark(field, operand) => Stmt::SetMark(
            *field,
            operand_with(alloc, operand, from, to)?,
        ),
        Stmt::VerdictMap(selector, map) => {
            Stmt::VerdictMap(*selector, map_ref_with(alloc, map, from, to)?)
        }
        Stmt::Nat(nat) => Stmt::Nat(nat_with(alloc, nat, from, to)?),
        _ => stmt.try_clone()?,
    })
}

fn match_with(alloc: Global, test: &Match, from: usize, to: usize) -> Result<Match, AllocError>
    ensures { IfOk result (λ copy. match_tree copy ≡ match_with from to (match_tree test.now)) }
{
    Ok(match test {
        Match::In(selectors, set) => Match::In(
            selectors.clone()?,
            set_ref_with(alloc, set, from, to)?,
        ),
        Match::NotIn(selectors, set) => Match::NotIn(
            selectors.clone()?,
            set_ref_with(alloc, set, from, to)?,
        ),
        _ => test.try_clone()?,
    })
}

fn operand_with(
    alloc: Global,
    operand: &Operand,
    from: usize,
    to: usize,
) -> Result<Operand, AllocError>
    ensures { IfOk result (λ copy. operand_tree copy ≡ operand_with from to (operand_tree operand.now)) }
{
    Ok(match operand {
        Operand::MapLookup(lookup) => Operand::MapLookup(lookup_with(alloc, lookup, from, to)?),
        _ => operand.try_clone()?,
    })
}

fn nat_with(alloc: Global, nat: &Nat, from: usize, to: usize) -> Result<Nat, AllocError>
    ensures { IfOk result (λ copy. nat_tree copy ≡ nat_with from to (nat_tree nat.now)) }
{
    Ok(match nat {
        Nat::Source(target) => Nat::Source(source_with(alloc, target, from, to)?),
        Nat::Destination(target) => Nat::Destination(destination_with(alloc, target, from, to)?),
        _ => nat.try_clone()?,
    })
}

fn source_with(
    alloc: Global,
    target: &SourceTarget,
    from: usize,
    to: usize,
) -> Result<SourceTarget, AllocError>
    ensures { IfOk result (λ copy. source_tree copy ≡ source_with from to (source_tree target.now)) }
{
    Ok(match target {
        SourceTarget::MapLookup(lookup) => {
            SourceTarget::MapLookup(lookup_with(alloc, lookup, from, to)?)
        }
        _ => target.try_clone()?,
    })
}

fn destination_with(
    alloc: Global,
    target: &DestinationTarget,
    from: usize,
    to: usize,
) -> Result<DestinationTarget, AllocError>
    ensures { IfOk result (λ copy.
        destination_tree copy ≡ destination_with from to (destination_tree target.now)) }
{
    Ok(match target {
        DestinationTarget::MapLookup(lookup) => {
            DestinationTarget::MapLookup(lookup_with(alloc, lookup, from, to)?)
        }
        _ => target.try_clone()?,
    })
}

fn lookup_with(
    alloc: Global,
    lookup: &MapLookup,
    from: usize,
    to: usize,
) -> Result<MapLookup, AllocError>
    ensures { IfOk result (λ copy.
        map_lookup_tree copy ≡ lookup_with from to (map_lookup_tree lookup.now)) }
{
    Ok(MapLookup {
        selector: lookup.selector,
        map: map_ref_with(alloc, &lookup.map, from, to)?,
    })
}

fn set_ref_with(alloc: Global, set: &SetRef, from: usize, to: usize) -> Result<SetRef, AllocError>
    ensures { IfOk result (λ copy. set_ref_tree copy ≡ set_ref_with from to (set_ref_tree set.now)) }
{
    Ok(match set {
        SetRef::Named(name) => SetRef::Named(name.clone()?),
        SetRef::Anonymous(elements) => SetRef::Anonymous(nodes_between(alloc, elements, from, to)?),
    })
}

fn map_ref_with(alloc: Global, map: &MapRef, from: usize, to: usize) -> Result<MapRef, AllocError>
    ensures { IfOk result (λ copy. map_ref_tree copy ≡ map_ref_with from to (map_ref_tree map.now)) }
{
    Ok(match map {
        MapRef::Named(name) => MapRef::Named(name.clone()?),
        MapRef::Anonymous(pairs) => MapRef::Anonymous(nodes_between(alloc, pairs, from, to)?),
    })
}
