//! Type checking of statements.
ghost use Rattle.std.specs.Prelude.{◌≡◌};
ghost use Rattle.nft_tree.specs.TreeViews.{match_tree, statement};
ghost use Rattle.rule_types.specs.Types.{match_mismatches, statement_mismatches};

use crate::compared_types::compare_mismatches;
use crate::keys::lookup_mismatches;
use crate::maps::map_ref_mismatches;
use nft_tree::{
    ComparedType, DestinationTarget, Match, Nat, Operand, SourceTarget, Stmt, ValueType,
};
use rule_names::TableNames;

fn match_mismatches(names: &TableNames, test: &Match) -> bool
    ensures { result ≡ match_mismatches names.now (match_tree test.now) }
{
    match test {
        Match::Compare(selector, operator, range) => compare_mismatches(
            *selector, *operator, range,
        ),
        Match::In(selectors, set) | Match::NotIn(selectors, set) => {
            lookup_mismatches(names, selectors, set)
        }
        _ => false,
    }
}

/// Whether the types in a statement don't match. `vmap` needs a map to verdicts, `mark set` one to
/// marks, `snat` and `dnat` one to addresses.
pub(crate) fn statement_mismatches(names: &TableNames, stmt: &Stmt) -> bool
    ensures { result ≡ statement_mismatches names.now (statement stmt.now) }
{
    match stmt {
        Stmt::Match(test) => match_mismatches(names, test),
        Stmt::VerdictMap(selector, map) => map_ref_mismatches(names, *selector, None, map),
        Stmt::SetMark(_, Operand::MapLookup(look)) => {
            let mark = Some(ComparedType::Named(ValueType::Mark));
            map_ref_mismatches(names, look.selector, mark, &look.map)
        }
        Stmt::Nat(
            Nat::Source(SourceTarget::MapLookup(look))
            | Nat::Destination(DestinationTarget::MapLookup(look)),
        ) => {
            let address = Some(ComparedType::Named(ValueType::Address));
            map_ref_mismatches(names, look.selector, address, &look.map)
        }
        _ => false,
    }
}
