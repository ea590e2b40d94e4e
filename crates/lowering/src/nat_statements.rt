//! Lowers NAT statements.
ghost use Rattle.std.specs.Prelude.{◌≡◌, ◌<◌, false, not, true, IfOk, OnOk};
ghost use Rattle.std.specs.Option.{option_map};
ghost use Rattle.nft_tree.specs.TreeViews.{nat_tree};
ghost use Rattle.nft_tree.specs.Tree as tree;
ghost use Rattle.rule_types.specs.Types.{statement_mismatches};
ghost use Rattle.rule_values.specs.Faults.{are_ports, if_some, is_port, nat_out_of_range};
ghost use Rattle.rule_meaning.specs.Statements.{give, port_interval_of, nat_action_of, with_value};
ghost use Rattle.lowering.specs.Lowered.{AddsFewTables, Extends, HasDeclared, scope_of};
ghost use Rattle.lowering.specs.steps.Actions.{HasEffect};

use crate::lookup_tables::number_map_index;
use box_file::Plant;
use nft_tree::{DestinationTarget, Nat, PortRange, SourceTarget, ValueType};
use rule_code::{Action, Lookups};
use rule_meaning::{NatAction, PortInterval, RuleVerdict};
use rule_names::TableNames;
use std::alloc::{AllocError, Global};

/// A port, which is checked to be below 2^16.
fn port(number: u64) -> u16
    requires { is_port number ≡ true }
    ensures { result ≡ number }
{
    number as u16
}

/// A port, if one is given.
fn some_port(number: Option<u64>) -> Option<u16>
    requires { if_some (λ n. not (is_port n)) number ≡ false }
    ensures { result ≡ number }
{
    match number {
        Some(number) => Some(port(number)),
        None => None,
    }
}

/// An interval of ports.
fn ports(range: PortRange) -> PortInterval
    requires { are_ports range ≡ true }
    ensures { result ≡ port_interval_of range }
{
    match range {
        PortRange::One(number) => PortInterval {
            low: port(number),
            high: port(number),
        },
        PortRange::Between(low, high) => PortInterval {
            low: port(low),
            high: port(high),
        },
    }
}

/// An interval of ports, if one is given.
fn some_ports(range: Option<PortRange>) -> Option<PortInterval>
    requires { if_some (λ r. not (are_ports r)) range ≡ false }
    ensures { result ≡ option_map port_interval_of range }
{
    match range {
        Some(range) => Some(ports(range)),
        None => None,
    }
}

/// The verdict that translates.
fn translate(action: NatAction) -> Action
    ensures { result ≡ Action.GiveVerdict (RuleVerdict.Translate action) }
{
    Action::GiveVerdict(RuleVerdict::Translate(action))
}

/// The action of a NAT statement. The table of an anonymous map is added.
pub(crate) fn lower_nat(
    alloc: Global,
    network: &Plant,
    names: &TableNames,
    nat: &Nat,
    lookups: &mut Lookups,
) -> Result<Action, AllocError>
    requires declared { HasDeclared network.now names.now lookups.old }
    requires types { statement_mismatches names.now (tree.nat (nat_tree nat.now)) ≡ false }
    requires bounds { nat_out_of_range (nat_tree nat.now) ≡ false }
    ensures extends { OnOk result (Extends lookups.old lookups.new) }
    ensures few { OnOk result (AddsFewTables lookups.old lookups.new) }
    ensures effect { IfOk result (HasEffect lookups.new
        (λ f. with_value (λ t. give (RuleVerdict.Translate t))
        (nat_action_of (scope_of network.now names.now) (nat_tree nat.now) f))) }
{
    match nat {
        Nat::Source(SourceTarget::MapLookup(look)) => {
            let index = number_map_index(alloc, network, names, ValueType::Address, look, lookups)?;
            Ok(Action::TranslateSource(look.selector, index))
        }
        Nat::Destination(DestinationTarget::MapLookup(look)) => {
            let index = number_map_index(alloc, network, names, ValueType::Address, look, lookups)?;
            Ok(Action::TranslateDestination(look.selector, index))
        }
        Nat::Source(SourceTarget::Address(address, ports)) => Ok(translate(NatAction::Source(
            *address,
            some_ports(*ports),
        ))),
        Nat::Destination(DestinationTarget::Address(address, port)) => Ok(translate(
            NatAction::Destination(*address, some_port(*port)),
        )),
        Nat::Masquerade(ports) => Ok(translate(NatAction::Masquerade(some_ports(*ports)))),
        Nat::Redirect(port) => Ok(translate(NatAction::Redirect(some_port(*port)))),
    }
}
