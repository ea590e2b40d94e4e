//! A hashed set of names that remembers their order.
ghost use Rattle.std.specs.Prelude.{◌≡◌, [], IfOk};
ghost use Rattle.std.specs.List.{list_any};
ghost use Rattle.std.specs.Str.{bytes_eq};
ghost use Rattle.rule_names.specs.Names.{index_in};
ghost use Rattle.rule_names.specs.steps.Index.{IsAdded, IsAddedApart};

use indexmap::IndexSet;
use std::alloc::{AllocError, Global};
use std::marker::Model;

/// Distinct names, each with its index in order of insertion. It owns their text.
pub(crate) struct NameIndex {
    names: IndexSet<Vec<u8>>,
}

// Written out, so that dropping one is a call.
impl Drop for NameIndex {
    fn drop(self) {
        let NameIndex { names: _ } = self;
    }
}

impl Model for NameIndex {
    ghost use Rattle.std.specs.Prelude.{List};
    ghost use Rattle.nft_tree.specs.Tree.{Text};
    ghost use Rattle.rule_names.specs.Names.{HasDuplicate};
    ghost use Rattle.rule_names.specs.steps.Index.{texts};

    ghost Value = { List Text };

    ghost view = { λ i. texts i.names.keys };

    ghost invariant = { λ i. HasDuplicate (texts i.names.keys) → ⊥ };
}

impl NameIndex {
    pub(crate) fn new(alloc: Global) -> NameIndex
        ensures { result ≡ [] }
    {
        NameIndex {
            names: IndexSet::new(alloc),
        }
    }

    /// Adds the name at the end; false if it is there already.
    pub(crate) fn add(&mut self, alloc: Global, name: &[u8]) -> Result<bool, AllocError>
        ensures { IfOk result (IsAdded self.old name.now self.new) }
    {
        let owned = Vec::from_slice(alloc, name)?;
        Ok(self.names.insert(owned)?)
    }

    /// The same; false also if it is among the others, with which these share a namespace.
    pub(crate) fn add_apart(
        &mut self,
        alloc: Global,
        name: &[u8],
        others: &NameIndex,
    ) -> Result<bool, AllocError>
        ensures { IfOk result (IsAddedApart self.old name.now others.now self.new) }
    {
        if others.contains(name) {
            return Ok(false);
        }
        self.add(alloc, name)
    }

    /// The index of the name, from 0.
    pub(crate) fn index(&self, name: &[u8]) -> Option<usize>
        ensures { result ≡ index_in name.now self.now }
    {
        self.names.get_index_of(name)
    }

    pub(crate) fn contains(&self, name: &[u8]) -> bool
        ensures { result ≡ list_any (bytes_eq name.now) self.now }
    {
        self.names.contains(name)
    }
}
