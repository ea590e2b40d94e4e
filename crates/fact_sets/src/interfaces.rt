//! The interfaces of a box.
ghost use Rattle.std.specs.Prelude.{◌≡◌, ◌<◌, ◌^◌};
ghost use Rattle.fact_sets.specs.Facts.{interface_at};
ghost use Rattle.fact_sets.specs.steps.Interfaces.{AreNarrow};

use rule_meaning::Interface;
use std::marker::Model;

/// The interfaces of a box, by number.
#[derive(Drop)]
pub struct Interfaces {
    list: Vec<Interface>,
}

impl Model for Interfaces {
    ghost use Rattle.std.specs.Prelude.{List};
    ghost use Rattle.rule_meaning.specs.declared.facts.Interface.{Interface};
    ghost use Rattle.fact_sets.specs.steps.Interfaces.{AreNarrow};

    ghost Value = { List Interface };

    ghost view = { λ i. i.list.items };

    ghost invariant = { λ i. AreNarrow i.list.items };
}

/// What numbers beyond a box's interfaces stand for.
const NOWHERE: Interface = Interface { index: 0, name: 0 };

/// An interface's index and name fit their types. It does nothing.
fn fits(index: u32, name: u128)
    ensures index { index < 2 ^ 32 }
    ensures name { name < 2 ^ 128 }
{}

/// Those of each interface do.
fn are_narrow(interfaces: &[Interface])
    ensures { AreNarrow interfaces.now }
{
    for interface in interfaces {
        fits(interface.index, interface.name);
    }
}

impl Interfaces {
    /// These interfaces, numbered from 0.
    pub fn new(list: Vec<Interface>) -> Interfaces
        ensures { result ≡ list.items }
    {
        are_narrow(&list);
        Interfaces { list }
    }

    /// The interface of a number.
    pub(crate) fn at(&self, number: u64) -> Interface
        ensures { result ≡ interface_at self.now number }
    {
        match self.list.get(number as usize) {
            Some(interface) => *interface,
            None => NOWHERE,
        }
    }

    /// Their indexes and names fit their types. It does nothing.
    pub(crate) fn narrow(&self)
        ensures { AreNarrow self.now }
    {
        let _ = &self.list;
    }
}
