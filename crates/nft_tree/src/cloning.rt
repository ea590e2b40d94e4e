//! Copies of trees. A copy equals its source in all that contracts compare; making one fails only
//! when memory runs out.
ghost use Rattle.nft_tree.specs.Tree.{ChainTree, DataTree, DestinationTree, ElementTree, FlagTree, HeadTree};
ghost use Rattle.nft_tree.specs.Tree.{ItemTree, KeyTree, MapLookupTree, MapRefTree, MapTree, MatchTree, NatTree};
ghost use Rattle.nft_tree.specs.Tree.{OperandTree, PairTree, RangeTree, RuleTree, SetRefTree, SetTree, SetTypeTree};
ghost use Rattle.nft_tree.specs.Tree.{SourceTree, Statement, TableTree, ValueTree, VerdictTree};
ghost use Rattle.nft_tree.specs.TreeViews.{chain_tree, data_tree, destination_tree, element_tree, flag_tree, head_tree};
ghost use Rattle.nft_tree.specs.TreeViews.{item_tree, key_tree, map_lookup_tree, map_ref_tree, map_tree, match_tree};
ghost use Rattle.nft_tree.specs.TreeViews.{nat_tree, operand_tree, pair_tree, range_tree, rule_tree, set_ref_tree};
ghost use Rattle.nft_tree.specs.TreeViews.{set_tree, set_type_tree, source_tree, statement, table_tree, tables_of};
ghost use Rattle.nft_tree.specs.TreeViews.{value_tree, verdict_tree};
ghost use Rattle.std.specs.Prelude.{◌≡◌, List, map, IfOk};

use crate::chain::{Chain, Head, Rule};
use crate::nat::{DestinationTarget, Nat, SourceTarget};
use crate::ruleset::{Item, Ruleset, Table};
use crate::set::{Data, Element, Key, MapDecl, Pair, SetDecl, SetType};
use crate::statement::{Flag, MapLookup, MapRef, Masked, Match, Operand, SetRef, Stmt, Verdict};
use crate::tree_nodes::TreeNode;
use crate::values::{Value, ValueRange};
use std::alloc::AllocError as Memory;

impl Ruleset {
    /// A copy of the ruleset.
    ///
    /// # Errors
    ///
    /// `Memory` if an allocation was refused.
    pub fn try_clone(&self) -> Result<Self, Memory>
        ensures { IfOk result (λ copy. tables_of copy ≡ tables_of self.now) }
    {
        Ok(Ruleset {
            tables: self.tables.try_clone()?,
        })
    }
}

impl TreeNode for Table {
    ghost Tree = { TableTree };

    ghost tree = { table_tree };

    fn try_clone(&self) -> Result<Table, Memory> {
        Ok(Table {
            family: self.family,
            name: self.name.clone()?,
            items: self.items.try_clone()?,
        })
    }
}

impl TreeNode for Item {
    ghost Tree = { ItemTree };

    ghost tree = { item_tree };

    fn try_clone(&self) -> Result<Item, Memory> {
        Ok(match self {
            Item::Comment(text) => Item::Comment(text.clone()?),
            Item::Chain(chain) => Item::Chain(chain.try_clone()?),
            Item::Set(set) => Item::Set(set.try_clone()?),
            Item::Map(map) => Item::Map(map.try_clone()?),
        })
    }
}

impl TreeNode for Chain {
    ghost Tree = { ChainTree };

    ghost tree = { chain_tree };

    fn try_clone(&self) -> Result<Chain, Memory> {
        Ok(Chain {
            name: self.name.clone()?,
            notes: self.notes.try_clone()?,
            head: self.head.try_clone()?,
            rules: self.rules.try_clone()?,
        })
    }
}

impl TreeNode for Head {
    ghost Tree = { HeadTree };

    ghost tree = { head_tree };

    fn try_clone(&self) -> Result<Head, Memory> {
        Ok(Head {
            kind: self.kind,
            hook: self.hook,
            priority: self.priority,
            policy: self.policy,
            notes: self.notes.try_clone()?,
        })
    }
}

impl TreeNode for Rule {
    ghost Tree = { RuleTree };

    ghost tree = { rule_tree };

    fn try_clone(&self) -> Result<Rule, Memory> {
        Ok(Rule {
            statements: self.statements.try_clone()?,
            comment: self.comment.clone()?,
        })
    }
}

impl TreeNode for Stmt {
    ghost Tree = { Statement };

    ghost tree = { statement };

    fn try_clone(&self) -> Result<Stmt, Memory> {
        Ok(match self {
            Stmt::Match(test) => Stmt::Match(test.try_clone()?),
            Stmt::Counter(start) => Stmt::Counter(*start),
            Stmt::Log(prefix) => Stmt::Log(prefix.clone()?),
            Stmt::NoTrack => Stmt::NoTrack,
            Stmt::SetMark(mark, operand) => Stmt::SetMark(*mark, operand.try_clone()?),
            Stmt::VerdictMap(selector, map) => Stmt::VerdictMap(*selector, map.try_clone()?),
            Stmt::Verdict(verdict) => Stmt::Verdict(verdict.try_clone()?),
            Stmt::Nat(nat) => Stmt::Nat(nat.try_clone()?),
        })
    }
}

impl TreeNode for Match {
    ghost Tree = { MatchTree };

    ghost tree = { match_tree };

    fn try_clone(&self) -> Result<Match, Memory> {
        Ok(match self {
            Match::Compare(selector, operator, range) => Match::Compare(
                *selector,
                *operator,
                range.try_clone()?,
            ),
            Match::In(selectors, set) => Match::In(selectors.clone()?, set.try_clone()?),
            Match::NotIn(selectors, set) => Match::NotIn(selectors.clone()?, set.try_clone()?),
            Match::Bits(field, test, words) => Match::Bits(*field, *test, words.try_clone()?),
            Match::AnyFlag(flags) => Match::AnyFlag(flags.try_clone()?),
            Match::ExactFlags(flags) => Match::ExactFlags(flags.try_clone()?),
            Match::MaskedFlags(masked) => Match::MaskedFlags(masked.try_clone()?),
            Match::MaskedFlagsUnequal(masked) => Match::MaskedFlagsUnequal(masked.try_clone()?),
        })
    }
}

impl TreeNode for Masked {
    ghost Tree = { List FlagTree × List FlagTree };

    ghost tree = { λ m. (map flag_tree m.wanted.items, map flag_tree m.mask.items) };

    fn try_clone(&self) -> Result<Masked, Memory> {
        Ok(Masked {
            wanted: self.wanted.try_clone()?,
            mask: self.mask.try_clone()?,
        })
    }
}

impl TreeNode for Flag {
    ghost Tree = { FlagTree };

    ghost tree = { flag_tree };

    fn try_clone(&self) -> Result<Flag, Memory> {
        Ok(match self {
            Flag::Word(word) => Flag::Word(word.clone()?),
            Flag::Number(number) => Flag::Number(*number),
        })
    }
}

impl TreeNode for Operand {
    ghost Tree = { OperandTree };

    ghost tree = { operand_tree };

    fn try_clone(&self) -> Result<Operand, Memory> {
        Ok(match self {
            Operand::Number(number) => Operand::Number(*number),
            Operand::Mark(mark) => Operand::Mark(*mark),
            Operand::MapLookup(look) => Operand::MapLookup(look.try_clone()?),
        })
    }
}

impl TreeNode for MapLookup {
    ghost Tree = { MapLookupTree };

    ghost tree = { map_lookup_tree };

    fn try_clone(&self) -> Result<MapLookup, Memory> {
        Ok(MapLookup {
            selector: self.selector,
            map: self.map.try_clone()?,
        })
    }
}

impl TreeNode for MapRef {
    ghost Tree = { MapRefTree };

    ghost tree = { map_ref_tree };

    fn try_clone(&self) -> Result<MapRef, Memory> {
        Ok(match self {
            MapRef::Named(name) => MapRef::Named(name.clone()?),
            MapRef::Anonymous(pairs) => MapRef::Anonymous(pairs.try_clone()?),
        })
    }
}

impl TreeNode for SetRef {
    ghost Tree = { SetRefTree };

    ghost tree = { set_ref_tree };

    fn try_clone(&self) -> Result<SetRef, Memory> {
        Ok(match self {
            SetRef::Named(name) => SetRef::Named(name.clone()?),
            SetRef::Anonymous(elements) => SetRef::Anonymous(elements.try_clone()?),
        })
    }
}

impl TreeNode for Verdict {
    ghost Tree = { VerdictTree };

    ghost tree = { verdict_tree };

    fn try_clone(&self) -> Result<Verdict, Memory> {
        Ok(match self {
            Verdict::Accept => Verdict::Accept,
            Verdict::Drop => Verdict::Drop,
            Verdict::Continue => Verdict::Continue,
            Verdict::Return => Verdict::Return,
            Verdict::Jump(name) => Verdict::Jump(name.clone()?),
            Verdict::Goto(name) => Verdict::Goto(name.clone()?),
        })
    }
}

impl TreeNode for SetDecl {
    ghost Tree = { SetTree };

    ghost tree = { set_tree };

    fn try_clone(&self) -> Result<SetDecl, Memory> {
        Ok(SetDecl {
            name: self.name.clone()?,
            key: self.key.try_clone()?,
            flags: self.flags.clone()?,
            size: self.size,
            auto_merge: self.auto_merge,
            comment: self.comment.clone()?,
            elements: self.elements.try_clone()?,
        })
    }
}

impl TreeNode for MapDecl {
    ghost Tree = { MapTree };

    ghost tree = { map_tree };

    fn try_clone(&self) -> Result<MapDecl, Memory> {
        Ok(MapDecl {
            name: self.name.clone()?,
            types: self.types,
            flags: self.flags.clone()?,
            size: self.size,
            auto_merge: self.auto_merge,
            comment: self.comment.clone()?,
            elements: self.elements.try_clone()?,
        })
    }
}

impl TreeNode for SetType {
    ghost Tree = { SetTypeTree };

    ghost tree = { set_type_tree };

    fn try_clone(&self) -> Result<SetType, Memory> {
        Ok(match self {
            SetType::Types(types) => SetType::Types(types.clone()?),
            SetType::Selectors(selectors) => SetType::Selectors(selectors.clone()?),
        })
    }
}

impl TreeNode for Element {
    ghost Tree = { ElementTree };

    ghost tree = { element_tree };

    fn try_clone(&self) -> Result<Element, Memory> {
        Ok(Element {
            key: self.key.try_clone()?,
            comment: self.comment.clone()?,
        })
    }
}

impl TreeNode for Key {
    ghost Tree = { KeyTree };

    ghost tree = { key_tree };

    fn try_clone(&self) -> Result<Key, Memory> {
        Ok(match self {
            Key::Single(range) => Key::Single(range.try_clone()?),
            Key::Joined(values) => Key::Joined(values.try_clone()?),
        })
    }
}

impl TreeNode for Pair {
    ghost Tree = { PairTree };

    ghost tree = { pair_tree };

    fn try_clone(&self) -> Result<Pair, Memory> {
        Ok(Pair {
            key: self.key.try_clone()?,
            comment: self.comment.clone()?,
            value: self.value.try_clone()?,
        })
    }
}

impl TreeNode for Data {
    ghost Tree = { DataTree };

    ghost tree = { data_tree };

    fn try_clone(&self) -> Result<Data, Memory> {
        Ok(match self {
            Data::Verdict(verdict) => Data::Verdict(verdict.try_clone()?),
            Data::Value(value) => Data::Value(value.try_clone()?),
        })
    }
}

impl TreeNode for ValueRange {
    ghost Tree = { RangeTree };

    ghost tree = { range_tree };

    fn try_clone(&self) -> Result<ValueRange, Memory> {
        Ok(match self {
            ValueRange::One(value) => ValueRange::One(value.try_clone()?),
            ValueRange::Between(low, high) => ValueRange::Between(
                low.try_clone()?,
                high.try_clone()?,
            ),
            ValueRange::Prefix(address, length) => ValueRange::Prefix(*address, *length),
        })
    }
}

impl TreeNode for Value {
    ghost Tree = { ValueTree };

    ghost tree = { value_tree };

    fn try_clone(&self) -> Result<Value, Memory> {
        Ok(match self {
            Value::Number(number) => Value::Number(*number),
            Value::Address(address) => Value::Address(*address),
            Value::Word(word) => Value::Word(word.clone()?),
            Value::String(text) => Value::String(text.clone()?),
        })
    }
}

impl TreeNode for Nat {
    ghost Tree = { NatTree };

    ghost tree = { nat_tree };

    fn try_clone(&self) -> Result<Nat, Memory> {
        Ok(match self {
            Nat::Source(target) => Nat::Source(target.try_clone()?),
            Nat::Destination(target) => Nat::Destination(target.try_clone()?),
            Nat::Masquerade(ports) => Nat::Masquerade(*ports),
            Nat::Redirect(port) => Nat::Redirect(*port),
        })
    }
}

impl TreeNode for SourceTarget {
    ghost Tree = { SourceTree };

    ghost tree = { source_tree };

    fn try_clone(&self) -> Result<SourceTarget, Memory> {
        Ok(match self {
            SourceTarget::Address(address, ports) => SourceTarget::Address(*address, *ports),
            SourceTarget::MapLookup(look) => SourceTarget::MapLookup(look.try_clone()?),
        })
    }
}

impl TreeNode for DestinationTarget {
    ghost Tree = { DestinationTree };

    ghost tree = { destination_tree };

    fn try_clone(&self) -> Result<DestinationTarget, Memory> {
        Ok(match self {
            DestinationTarget::Address(address, port) => DestinationTarget::Address(
                *address, *port,
            ),
            DestinationTarget::MapLookup(look) => DestinationTarget::MapLookup(look.try_clone()?),
        })
    }
}
