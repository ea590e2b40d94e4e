//! The words for what a ruleset does with packets.
use fact_sets::{MarkSource, Written};
use itoa::Buffer;
use nft_tree::{Family, Ruleset};
use rule_meaning::{HookStage, HookVerdict, NatAction, PortInterval};
use stage_sets::Decider;
use std::alloc::AllocError;

/// A stage: its hook, and where in it its base chains run.
pub(crate) fn stage_words(stage: HookStage) -> &'static [u8] {
    match stage {
        HookStage::PreroutingRaw => b"prerouting before conntrack",
        HookStage::PreroutingBeforeNat => b"prerouting before dstnat",
        HookStage::PreroutingNat => b"prerouting nat",
        HookStage::PreroutingAfterNat => b"prerouting after dstnat",
        HookStage::Input => b"input",
        HookStage::Forward => b"forward",
        HookStage::PostroutingBeforeNat => b"postrouting before srcnat",
        HookStage::PostroutingNat => b"postrouting nat",
        HookStage::PostroutingAfterNat => b"postrouting after srcnat",
    }
}

/// Appends a verdict.
pub(crate) fn put_verdict(text: &mut Vec<u8>, verdict: HookVerdict) -> Result<(), AllocError> {
    match verdict {
        HookVerdict::Accepted => text.extend_from_slice(b"accept"),
        HookVerdict::Dropped => text.extend_from_slice(b"drop"),
        HookVerdict::Translated(action) => put_translation(text, action),
    }
}

/// Appends a NAT statement, as in a rule.
fn put_translation(text: &mut Vec<u8>, action: NatAction) -> Result<(), AllocError> {
    match action {
        NatAction::Source(address, ports) => {
            text.extend_from_slice(b"snat to ")?;
            put_address(text, address)?;
            put_ports(text, b":", ports)
        }
        NatAction::Destination(address, port) => {
            text.extend_from_slice(b"dnat to ")?;
            put_address(text, address)?;
            put_port(text, b":", port)
        }
        NatAction::Masquerade(ports) => {
            text.extend_from_slice(b"masquerade")?;
            put_ports(text, b" to :", ports)
        }
        NatAction::Redirect(port) => {
            text.extend_from_slice(b"redirect")?;
            put_port(text, b" to :", port)
        }
    }
}

fn put_number(text: &mut Vec<u8>, number: u32) -> Result<(), AllocError> {
    text.extend_from_slice(Buffer::new().format(number).as_bytes())
}

fn put_address(text: &mut Vec<u8>, address: u32) -> Result<(), AllocError> {
    let bytes = address.to_be_bytes();
    put_number(text, u32::from(bytes[0]))?;
    for byte in &bytes[1..] {
        text.push(b'.')?;
        put_number(text, u32::from(*byte))?;
    }
    Ok(())
}

fn put_port(text: &mut Vec<u8>, before: &[u8], port: Option<u16>) -> Result<(), AllocError> {
    match port {
        None => Ok(()),
        Some(port) => {
            text.extend_from_slice(before)?;
            put_number(text, u32::from(port))
        }
    }
}

fn put_ports(
    text: &mut Vec<u8>,
    before: &[u8],
    ports: Option<PortInterval>,
) -> Result<(), AllocError> {
    let Some(ports) = ports else {
        return Ok(());
    };
    put_port(text, before, Some(ports.low))?;
    if ports.low < ports.high {
        put_port(text, b"-", Some(ports.high))?;
    }
    Ok(())
}

/// Appends what gave the verdict.
pub(crate) fn put_decider(
    text: &mut Vec<u8>,
    rules: &Ruleset,
    by: Decider,
) -> Result<(), AllocError> {
    match by {
        Decider::NoChain => text.extend_from_slice(b" without a chain"),
        Decider::Policy(chain) => {
            text.extend_from_slice(b" by the policy of ")?;
            put_chain(text, rules, chain.table, chain.chain)
        }
        Decider::Rule(rule) => {
            text.extend_from_slice(b" by rule ")?;
            put_number(text, rule.rule)?;
            text.extend_from_slice(b" of ")?;
            put_chain(text, rules, rule.table, rule.chain)
        }
    }
}

/// Appends a chain's family, table and name.
fn put_chain(
    text: &mut Vec<u8>,
    rules: &Ruleset,
    table: u32,
    chain: u32,
) -> Result<(), AllocError> {
    let Some(table) = rules.tables.get(table as usize) else {
        return Ok(());
    };
    let Some(chain) = table.chain(chain as usize) else {
        return Ok(());
    };
    text.extend_from_slice(match table.family {
        Family::Ip => b"ip ",
        Family::Inet => b"inet ",
    })?;
    text.extend_from_slice(&table.name)?;
    text.push(b' ')?;
    text.extend_from_slice(&chain.name)
}

/// Appends the marks that rules have written, where they aren't what the other ruleset's have.
pub(crate) fn put_written(
    text: &mut Vec<u8>,
    written: Written,
    other: Written,
) -> Result<(), AllocError> {
    if written.packet != other.packet {
        put_mark(text, b" with meta mark ", written.packet)?;
    }
    if written.connection != other.connection {
        put_mark(text, b" with ct mark ", written.connection)?;
    }
    Ok(())
}

fn put_mark(text: &mut Vec<u8>, before: &[u8], mark: MarkSource) -> Result<(), AllocError> {
    text.extend_from_slice(before)?;
    match mark {
        MarkSource::Packet => text.extend_from_slice(b"as the packet's came"),
        MarkSource::Connection => text.extend_from_slice(b"as the connection's came"),
        MarkSource::Number(number) => put_number(text, number),
    }
}
