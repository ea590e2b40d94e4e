//! The targets of jumps and gotos.
ghost use Rattle.std.specs.Prelude.{◌≡◌, map};
ghost use Rattle.std.specs.List.{list_any};
ghost use Rattle.nft_tree.specs.TreeViews.{map_ref_tree, pair_tree, statement, verdict_tree};
ghost use Rattle.rule_names.specs.Names.{data_target, map_ref_targets, one_or_none, pair_targets, statement_targets};
ghost use Rattle.rule_names.specs.Names.{target_of};
ghost use Rattle.rule_names.specs.steps.NameFaults.{passes};

use crate::table::TableNames;
use nft_tree::{
    Data, DestinationTarget, MapLookup, MapRef, Nat, Operand, Pair, SourceTarget, Stmt, Verdict,
};

/// A test of the target of a jump or goto.
#[derive(Clone, Copy)]
pub(crate) enum TargetTest {
    /// It is no chain of the table.
    IsNoChain,
    /// It is a base chain.
    IsBaseChain,
}

impl TargetTest {
    fn passes(self, names: &TableNames, name: &[u8]) -> bool
        ensures { result ≡ passes self names.now name.now }
    {
        match self {
            TargetTest::IsNoChain => !names.has_chain(name),
            TargetTest::IsBaseChain => names.has_base_chain(name),
        }
    }

    fn of_verdict(self, names: &TableNames, verdict: &Verdict) -> bool
        ensures { result ≡ list_any (passes self names.now)
            (one_or_none (target_of (verdict_tree verdict.now))) }
    {
        match verdict {
            Verdict::Jump(name) | Verdict::Goto(name) => self.passes(names, name),
            _ => false,
        }
    }

    fn of_pair(self, names: &TableNames, pair: &Pair) -> bool
        ensures { result ≡ list_any (passes self names.now)
            (one_or_none (data_target (pair_tree pair.now).value)) }
    {
        match &pair.value {
            Data::Verdict(verdict) => self.of_verdict(names, verdict),
            Data::Value(_) => false,
        }
    }

    /// Tests the data of a map.
    pub(crate) fn of_pairs(self, names: &TableNames, pairs: &[Pair]) -> bool
        ensures { result ≡ list_any (passes self names.now)
            (pair_targets (map pair_tree pairs.now)) }
    {
        for pair in pairs {
            if self.of_pair(names, pair) {
                return true;
            }
        }
        false
    }

    /// Tests the data of an anonymous map.
    fn of_map_ref(self, names: &TableNames, map: &MapRef) -> bool
        ensures { result ≡ list_any (passes self names.now)
            (map_ref_targets (map_ref_tree map.now)) }
    {
        match map {
            MapRef::Named(_) => false,
            MapRef::Anonymous(pairs) => self.of_pairs(names, pairs),
        }
    }

    pub(crate) fn of_statement(self, names: &TableNames, stmt: &Stmt) -> bool
        ensures { result ≡ list_any (passes self names.now)
            (statement_targets (statement stmt.now)) }
    {
        match stmt {
            Stmt::Verdict(verdict) => self.of_verdict(names, verdict),
            Stmt::VerdictMap(_, map)
            | Stmt::SetMark(_, Operand::MapLookup(MapLookup { map, .. }))
            | Stmt::Nat(
                Nat::Source(SourceTarget::MapLookup(MapLookup { map, .. }))
                | Nat::Destination(DestinationTarget::MapLookup(MapLookup { map, .. })),
            ) => self.of_map_ref(names, map),
            _ => false,
        }
    }
}
