//! Range checks of numbers in statements and chain heads.
ghost use Rattle.std.specs.Prelude.{◌≡◌, map};
ghost use Rattle.std.specs.List.{list_any};
ghost use Rattle.std.specs.Option.{option_map};
ghost use Rattle.nft_tree.specs.TreeViews.{chain_tree, flag_tree, head_tree, item_tree, match_tree, nat_tree, rule_tree, statement};
ghost use Rattle.rule_values.specs.Faults.{are_ports, chain_out_of_range, flag_out_of_range, is_port};
ghost use Rattle.rule_values.specs.Faults.{item_out_of_range, match_out_of_range, nat_out_of_range};
ghost use Rattle.rule_values.specs.Faults.{priority_out_of_range, statement_out_of_range};
ghost use Rattle.rule_values.specs.steps.Checks.{head_out_of_range, rule_out_of_range};

use nft_tree::{
    Chain, DestinationTarget, Flag, Head, Item, Match, Nat, Operand, PortRange, Priority, Rule,
    SourceTarget, Stmt, any,
};

/// The longest prefix of a `log` statement, in bytes (NF_LOG_PREFIXLEN is 128 with its zero).
const MAX_LOG_PREFIX: usize = 127;

/// Whether a number of a chain is out of range.
pub(crate) fn item_out_of_range(item: &Item) -> bool
    ensures { result ≡ item_out_of_range (item_tree item.now) }
{
    match item {
        Item::Chain(chain) => chain_out_of_range(chain),
        _ => false,
    }
}

fn chain_out_of_range(chain: &Chain) -> bool
    ensures { result ≡ chain_out_of_range (chain_tree chain.now) }
{
    head_out_of_range(&chain.head) || any(&chain.rules, rule_out_of_range)
}

fn head_out_of_range(head: &Option<Head>) -> bool
    ensures { result ≡ head_out_of_range (option_map head_tree head.now) }
{
    match head {
        None => false,
        Some(head) => priority_out_of_range(head.priority),
    }
}

/// Whether the priority doesn't fit a signed 32-bit number.
fn priority_out_of_range(priority: Priority) -> bool
    ensures { result ≡ priority_out_of_range priority }
{
    let number = priority.number();
    number < i128::from(i32::MIN) || number > i128::from(i32::MAX)
}

fn rule_out_of_range(rule: &Rule) -> bool
    ensures { result ≡ rule_out_of_range (rule_tree rule.now) }
{
    any(&rule.statements, statement_out_of_range)
}

fn statement_out_of_range(stmt: &Stmt) -> bool
    ensures { result ≡ statement_out_of_range (statement stmt.now) }
{
    match stmt {
        Stmt::Match(test) => match_out_of_range(test),
        Stmt::SetMark(_, Operand::Number(mark)) => *mark > u64::from(u32::MAX),
        Stmt::Log(Some(prefix)) => prefix.len() > MAX_LOG_PREFIX,
        Stmt::Nat(nat) => nat_out_of_range(nat),
        _ => false,
    }
}

fn match_out_of_range(test: &Match) -> bool
    ensures { result ≡ match_out_of_range (match_tree test.now) }
{
    match test {
        Match::AnyFlag(flags) | Match::ExactFlags(flags) => flags_out_of_range(flags),
        Match::MaskedFlags(flags) | Match::MaskedFlagsUnequal(flags) => {
            flags_out_of_range(&flags.wanted) || flags_out_of_range(&flags.mask)
        }
        _ => false,
    }
}

fn flags_out_of_range(flags: &[Flag]) -> bool
    ensures { result ≡ list_any flag_out_of_range (map flag_tree flags.now) }
{
    for flag in flags {
        if flag_out_of_range(flag) {
            return true;
        }
    }
    false
}

/// Whether the flag is a number wider than 8 bits.
fn flag_out_of_range(flag: &Flag) -> bool
    ensures { result ≡ flag_out_of_range (flag_tree flag.now) }
{
    match flag {
        Flag::Word(_) => false,
        Flag::Number(bits) => *bits > u64::from(u8::MAX),
    }
}

/// Whether a NAT statement has invalid ports.
fn nat_out_of_range(nat: &Nat) -> bool
    ensures { result ≡ nat_out_of_range (nat_tree nat.now) }
{
    match nat {
        Nat::Source(SourceTarget::Address(_, Some(ports))) | Nat::Masquerade(Some(ports)) => {
            !are_ports(*ports)
        }
        Nat::Destination(DestinationTarget::Address(_, Some(port))) | Nat::Redirect(Some(port)) => {
            !is_port(*port)
        }
        _ => false,
    }
}

/// Whether the range is a port, or two ports in ascending order.
fn are_ports(ports: PortRange) -> bool
    ensures { result ≡ are_ports ports }
{
    match ports {
        PortRange::One(port) => is_port(port),
        PortRange::Between(low, high) => is_port(low) && is_port(high) && low <= high,
    }
}

/// Whether the number is a port: 1 to 65535.
fn is_port(number: u64) -> bool
    ensures { result ≡ is_port number }
{
    0 < number && number <= u64::from(u16::MAX)
}
